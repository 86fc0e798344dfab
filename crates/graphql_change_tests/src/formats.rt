ghost use Rattle.graphql_frontend.specs.Schemas.{IsUsable};

use graphql_change_formats::{
    ChangeTally, ComparedTexts, ShownChange, json_format, markdown_format, text_format, verdict_of,
};
use graphql_change_witnesses::confirmed_witness;
use graphql_documents::documents::Schema;
use graphql_frontend::{FileId, SchemaReading, SourceText, read_schema};
use graphql_nodes::ValidationError;
use graphql_parser::Bounds;
use graphql_report_formats::named_texts::{CountedSubject, NamedText};
use graphql_report_formats::schema_texts::{BUILT_IN_TEXT, schema_subject, sources_of};
use graphql_schema_comparison::{Comparison, compare_schemas};
use graphql_schema_ways::Ways;
use json::Writer;
use std::alloc::{AllocError, Global};
use std::process::Abort;

const OLD: &str = "type Query {\n  a: Int\n  b: Int\n}\n";

const NEW: &str = "type Query {\n  a: Int!\n}\n";

/// A form in which changes are shown.
#[derive(Clone, Copy)]
enum Form {
    Text,
    Markdown,
    Json,
}

/// The texts of a schema of one file.
fn named_texts<'a>(path: &'a str, text: &'a str) -> [NamedText<'a>; 2] {
    let source = SourceText {
        file_id: FileId(1),
        text,
    };
    [
        BUILT_IN_TEXT,
        NamedText {
            path: Some(path),
            source,
        },
    ]
}

/// The changes of the two texts, in this form.
fn shown_in<R: AllocGlobal + Abort>(rt: &R, form: Form) -> String {
    let alloc = rt.alloc();
    let old_named = named_texts("old.graphql", OLD);
    let new_named = named_texts("new.graphql", NEW);
    let old_sources = sources_of(alloc, &old_named).expect(rt, "memory for texts");
    let new_sources = sources_of(alloc, &new_named).expect(rt, "memory for texts");
    let texts = ComparedTexts {
        old: CountedSubject::new(alloc, schema_subject(&old_named, &old_sources)).expect(
            rt,
            "memory for lines",
        ),
        new: CountedSubject::new(alloc, schema_subject(&new_named, &new_sources)).expect(
            rt,
            "memory for lines",
        ),
    };
    let old = read_schema(alloc, &old_sources, Bounds::DEFAULT).expect(rt, "memory for a schema");
    let new = read_schema(alloc, &new_sources, Bounds::DEFAULT).expect(rt, "memory for a schema");
    match (old, new) {
        (SchemaReading::Accepted(old), SchemaReading::Accepted(new)) => {
            shown_changes(alloc, &old, &new, &texts, form).expect(rt, "memory for changes")
        }
        _ => panic!(rt; "a schema is not accepted"),
    }
}

fn shown_changes(
    alloc: Global,
    old: &Schema,
    new: &Schema,
    texts: &ComparedTexts<'_>,
    form: Form,
) -> Result<String, ValidationError>
    requires old { IsUsable old.now }
    requires new { IsUsable new.now }
{
    let comparison = compare_schemas(alloc, old, new)?;
    let ways = Ways::new(alloc, old)?;
    let mut shown = Vec::new(alloc);
    for change in &comparison.changes {
        shown.push(ShownChange {
            change,
            level: change.level(),
            witness: confirmed_witness(alloc, &ways, old, new, &change.change, Bounds::DEFAULT)?,
            used: None,
        })?;
    }
    Ok(written(alloc, &comparison, &shown, texts, form)?)
}

fn written(
    alloc: Global,
    comparison: &Comparison,
    shown: &[ShownChange<'_>],
    texts: &ComparedTexts<'_>,
    form: Form,
) -> Result<String, AllocError> {
    let verdict = verdict_of(comparison, false);
    let mut out = String::new(alloc);
    match form {
        Form::Text => {
            text_format::push_changes(&mut out, shown, texts)?;
            text_format::push_summary(&mut out, ChangeTally::of(shown), verdict)?;
        }
        Form::Markdown => markdown_format::push_changes(&mut out, shown, texts, verdict)?,
        Form::Json => {
            let mut json = Writer::new(Vec::new(alloc));
            json_format::begin(&mut json, comparison)?;
            json_format::add_changes(&mut json, alloc, shown, texts)?;
            json_format::add_operations(&mut json, 3, 1, &["a.graphql"])?;
            json_format::end(&mut json)?;
            let bytes = json.into_inner();
            if let Ok(text) = std::str::from_utf8(&bytes) {
                out.push_str(text)?;
            }
        }
    }
    Ok(out)
}

#[test]
fn changes_are_shown_in_each_form(rt: HostRuntime) {
    let rows = [
        (
            Form::Text,
            "new.graphql:2:3: other: `Query.a` changes from `Int` to `Int!` [FieldTypeChanged]\nold.graphql:2:3: note: before\nnew.graphql:1:6: breaking: `Query.b` is removed [FieldRemoved]\nold.graphql:3:3: note: before\n  valid before and not after: { b }\n1 breaking, 0 dangerous, 1 other; documents that are valid against the old schema may not be valid against the new one\n",
        ),
        (
            Form::Markdown,
            "| Level | Change | Place | Valid before and not after |\n|---|---|---|---|\n| other | `Query.a` changes from `Int` to `Int!` | new.graphql:2:3 |  |\n| breaking | `Query.b` is removed | new.graphql:1:6 | `{ b }` |\n\n**1 breaking, 0 dangerous, 1 other**; documents that are valid against the old schema may not be valid against the new one\n",
        ),
        (
            Form::Json,
            "{\"version\":1,\"keepsDocuments\":false,\"keepsLoneFields\":false,\"changes\":[{\"change\":\"FieldTypeChanged\",\"level\":\"other\",\"message\":\"`Query.a` changes from `Int` to `Int!`\",\"old\":{\"file\":\"old.graphql\",\"line\":2,\"column\":3,\"span\":{\"start\":15,\"end\":21}},\"new\":{\"file\":\"new.graphql\",\"line\":2,\"column\":3,\"span\":{\"start\":15,\"end\":22}}},{\"change\":\"FieldRemoved\",\"level\":\"breaking\",\"reason\":\"documents\",\"message\":\"`Query.b` is removed\",\"old\":{\"file\":\"old.graphql\",\"line\":3,\"column\":3,\"span\":{\"start\":24,\"end\":30}},\"new\":{\"file\":\"new.graphql\",\"line\":1,\"column\":6,\"span\":{\"start\":5,\"end\":10}},\"witness\":\"{ b }\"}],\"operations\":{\"documents\":3,\"invalidBefore\":1,\"broken\":[\"a.graphql\"]}}",
        ),
    ];
    for (form, wanted) in rows {
        assert_eq!(rt; shown_in(&rt, form).as_str(), wanted);
    }
}
