ghost use Rattle.graphql_answers.specs.Frontend.Schemas.{IsUsable};

use graphql_answers::frontend::{
    Reports, SchemaReading, SourceText, read_schema, validate_documents,
};
use graphql_documents::documents::Schema;
use graphql_nodes::FileId;
use graphql_parser::Bounds;
use graphql_schema_building::BUILT_IN_DEFINITIONS;
use graphql_shown_reports::shown_reports;
use std::alloc::Global;
use std::fmt::Write;
use std::process::Abort;

const SCHEMA: &str = "type Query { a(i: I): Int b: B } type B { c: Int } input I { x: Int y: Int }";

/// Two texts that are one document, with what is reported: the file, the byte and the rule.
const TEXTS: &[(&str, &str, &str)] = &[
    ("{ a", "fragment", "1:3 Syntax\n2:8 Syntax\n"),
    ("{ b { ...F } }", "fragment F on B { c }", ""),
    (
        "{ b { ...F } }",
        "fragment F on B { d }",
        "2:18 UndefinedField\n",
    ),
    (
        "{ a }",
        "{ b { c } }",
        "1:0 AmbiguousAnonymousOperation\n2:0 AmbiguousAnonymousOperation\n",
    ),
];

/// The texts as sources: the second is none if it is empty. The schema is file 9, these are files 1 and 2.
pub(crate) fn sources<'a>(
    rt: &impl Abort,
    alloc: Global,
    first: &'a str,
    second: &'a str,
) -> Vec<SourceText<'a>> {
    let mut sources = Vec::new(alloc);
    sources
        .push(SourceText {
            file_id: FileId(1),
            text: first,
        })
        .expect(rt, "memory for a source");
    if !second.is_empty() {
        sources
            .push(SourceText {
                file_id: FileId(2),
                text: second,
            })
            .expect(rt, "memory for a source");
    }
    sources
}

/// The texts of a schema that is written in one file.
pub(crate) fn texts_of_schema(file_id: FileId, text: &str) -> [SourceText<'_>; 2] {
    let built_in = SourceText {
        file_id: FileId::BUILT_IN,
        text: BUILT_IN_DEFINITIONS,
    };
    [built_in, SourceText { file_id, text }]
}

/// What is reported of the texts of the schema, or else of those of the document.
pub(crate) fn reported(
    rt: &impl Abort,
    alloc: Global,
    schema: &str,
    sources: &[SourceText<'_>],
    bounds: Bounds,
) -> String {
    let schema = texts_of_schema(FileId(9), schema);
    match read_schema(alloc, &schema, bounds).expect(rt, "memory for a schema") {
        SchemaReading::Accepted(schema) => reported_against(rt, alloc, &schema, sources, bounds),
        SchemaReading::Rejected(reports) => lines(rt, alloc, &reports, &schema),
        SchemaReading::LacksIntrospection => panic!(rt; "no introspection"),
    }
}

fn reported_against(
    rt: &impl Abort,
    alloc: Global,
    schema: &Schema,
    sources: &[SourceText<'_>],
    bounds: Bounds,
) -> String
    requires { IsUsable schema.now }
{
    match validate_documents(alloc, schema, sources, bounds).expect(rt, "memory for reports") {
        Some(reports) => lines(rt, alloc, &reports, sources),
        None => String::new(alloc),
    }
}

/// A line for each report.
pub(crate) fn lines(
    rt: &impl Abort,
    alloc: Global,
    reports: &Reports,
    sources: &[SourceText<'_>],
) -> String {
    let shown = shown_reports(alloc, reports, sources, Bounds::DEFAULT, 100).expect(
        rt,
        "memory for messages",
    );
    let mut lines = String::new(alloc);
    for report in &shown {
        if let Some(span) = report.location {
            let file = span.file_id.0;
            write!(&mut lines, "{file}:{} ", span.start).expect(rt, "memory for a line");
        }
        lines.push_str(report.rule).expect(rt, "memory for a line");
        if let Some(span) = report.original {
            write!(&mut lines, " {}", span.start).expect(rt, "memory for a line");
        }
        lines.push_str("\n").expect(rt, "memory for a line");
    }
    lines
}

#[test]
fn the_texts_of_a_document_are_reported_together(rt: HostRuntime) {
    let alloc = rt.alloc();
    for (first, second, expected) in TEXTS {
        let sources = sources(&rt, alloc, first, second);
        let found = reported(&rt, alloc, SCHEMA, &sources, Bounds::DEFAULT);
        assert_eq!(rt; found.as_str(), *expected, "{first} {second}");
    }
}
