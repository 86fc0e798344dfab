ghost use Rattle.graphql_answers.specs.Frontend.Schemas.{IsUsable};

use crate::documents::texts_of_schema;
use graphql_answers::frontend::{
    Reports, SchemaReading, SourceText, read_schema, validate_document,
};
use graphql_answers::{Finding, findings_of};
use graphql_documents::documents::Schema;
use graphql_nodes::{FileId, SourceSpan};
use graphql_parser::Bounds;
use std::alloc::Global;
use std::fmt::Write;
use std::process::Abort;

const SCHEMA: &str =
    "type Query { a(x: Int): Int f(l: [Int!]): Int g(p: Int!, q: Int!): Int } interface N { c: Int }";

/// Texts of a schema, which is file 9, and documents with the numbers of their files; how many findings are shown at most; and
/// what is shown: of each its place and its rule, then its notes and what helps, and last how many there are behind these.
const FOUND: &[(&str, &[(u32, &str)], usize, &str)] = &[
    // One fault that three operations reach.
    (
        SCHEMA,
        &[(
            1,
            "query A { ...F } query B { ...F } query C { ...F } fragment F on Query { a(z: 1) }",
        )],
        100,
        "1:75-79 UndefinedArgument\n 9:13-27 `Query.a` is defined here\n help: did you mean `x`?\n+0\n",
    ),
    // The front end reports the usage last.
    (
        SCHEMA,
        &[(1, "query A($v: Int) { f(l: [$v]) } query B { a(z: 1) }")],
        100,
        "1:25-27 DisallowedVariableUsage\n 1:8-15 `$v` of type `Int` is defined here\n1:44-48 UndefinedArgument\n 9:13-27 `Query.a` is defined here\n help: did you mean `x`?\n+0\n",
    ),
    // Files come in the order of their numbers.
    (
        SCHEMA,
        &[(2, "{ h }"), (1, "{ i }")],
        100,
        "1:2-3 UndefinedField\n help: did you mean `a` or `f` or `g`?\n2:2-3 UndefinedField\n help: did you mean `a` or `f` or `g`?\n+0\n",
    ),
    // A document that is reported twice.
    (
        SCHEMA,
        &[(1, "{ h }"), (1, "{ h }")],
        100,
        "1:2-3 UndefinedField\n help: did you mean `a` or `f` or `g`?\n+0\n",
    ),
    // The first of three.
    (
        SCHEMA,
        &[(1, "{ h i j }")],
        1,
        "1:2-3 UndefinedField\n help: did you mean `a` or `f` or `g`?\n+2\n",
    ),
    // None of three.
    (SCHEMA, &[(1, "{ h i j }")], 0, "+3\n"),
    // Two messages at one place.
    (
        SCHEMA,
        &[(1, "{ g }")],
        100,
        "1:2-3 RequiredArgument\n 9:48-55 `Query.g(p:)` of type `Int!` is defined here\n1:2-3 RequiredArgument\n 9:57-64 `Query.g(q:)` of type `Int!` is defined here\n+0\n",
    ),
    // A syntax error.
    (
        SCHEMA,
        &[(1, "{ a(x: 01) }")],
        100,
        "1:7-7 Syntax\n help: a number has no zeros before its first digit\n+0\n",
    ),
    // Nothing.
    (SCHEMA, &[], 100, "+0\n"),
    // A field of an interface.
    (
        "type Query implements N { b: Int } interface N { a: Int }",
        &[],
        100,
        "9:0-34 MissingInterfaceField\n 9:22-23 `N` is implemented here\n 9:49-55 `N.a` is defined here\n+0\n",
    ),
];

/// The lines of what is shown of the schema, or else of the documents, each of which has a list of reports of its own.
fn lines_of(
    rt: &impl Abort,
    alloc: Global,
    schema: &str,
    documents: &[(u32, &str)],
    most: usize,
) -> String {
    let sources = sources_of(rt, alloc, schema, documents);
    let mut reports = Vec::new(alloc);
    match read_schema(alloc, &texts_of_schema(FileId(9), schema), Bounds::DEFAULT).expect(
        rt,
        "memory for a schema",
    ) {
        SchemaReading::Accepted(schema) => {
            push_reports(rt, alloc, &schema, documents, &mut reports);
            shown_lines(rt, alloc, Some(&schema), &reports, &sources, most)
        }
        SchemaReading::Rejected(rejected) => {
            reports.push(rejected).expect(rt, "memory for reports");
            shown_lines(rt, alloc, None, &reports, &sources, most)
        }
        SchemaReading::LacksIntrospection => panic!(rt; "no introspection"),
    }
}

/// The texts of the schema, and the documents.
fn sources_of<'a>(
    rt: &impl Abort,
    alloc: Global,
    schema: &'a str,
    documents: &[(u32, &'a str)],
) -> Vec<SourceText<'a>> {
    let mut sources = Vec::new(alloc);
    for source in texts_of_schema(FileId(9), schema) {
        sources.push(source).expect(rt, "memory for texts");
    }
    for (number, text) in documents {
        sources
            .push(SourceText {
                file_id: FileId(*number),
                text: *text,
            })
            .expect(rt, "memory for texts");
    }
    sources
}

/// The lines of the findings, and how many there are behind these.
fn shown_lines(
    rt: &impl Abort,
    alloc: Global,
    schema: Option<&Schema>,
    reports: &[Reports],
    sources: &[SourceText<'_>],
    most: usize,
) -> String {
    let found = findings_of(alloc, schema, reports, sources, Bounds::DEFAULT, most).expect(
        rt,
        "memory for findings",
    );
    let mut lines = String::new(alloc);
    for finding in &found.shown {
        push_finding(rt, &mut lines, finding);
    }
    let others = found.others;
    writeln!(&mut lines, "+{others}").expect(rt, "memory for a line");
    lines
}

fn push_reports(
    rt: &impl Abort,
    alloc: Global,
    schema: &Schema,
    documents: &[(u32, &str)],
    reports: &mut Vec<Reports>,
)
    requires { IsUsable schema.now }
{
    for (number, text) in documents {
        let source = SourceText {
            file_id: FileId(*number),
            text: *text,
        };
        let found = validate_document(alloc, schema, source, Bounds::DEFAULT);
        if let Some(found) = found.expect(rt, "memory for a document") {
            reports.push(found).expect(rt, "memory for reports");
        }
    }
}

/// The lines of a finding.
fn push_finding(rt: &impl Abort, lines: &mut String, finding: &Finding<'_>) {
    push_place(rt, lines, finding.report.location);
    let rule = finding.report.rule;
    writeln!(lines, "{rule}").expect(rt, "memory for a line");
    for note in &finding.notes {
        lines.push_str(" ").expect(rt, "memory for a line");
        push_place(rt, lines, Some(note.place));
        let words = note.message.as_str();
        writeln!(lines, "{words}").expect(rt, "memory for a line");
    }
    if let Some(help) = &finding.help {
        writeln!(lines, " help: {help}").expect(rt, "memory for a line");
    }
}

fn push_place(rt: &impl Abort, lines: &mut String, place: Option<SourceSpan>) {
    if let Some(
        SourceSpan {
            file_id,
            start,
            end,
        },
    ) = place
    {
        let file = file_id.0;
        write!(lines, "{file}:{start}-{end} ").expect(rt, "memory for a line");
    }
}

#[test]
fn each_fault_is_found_once_and_in_order(rt: HostRuntime) {
    for (schema, documents, most, expected) in FOUND {
        let lines = lines_of(&rt, rt.alloc(), schema, documents, *most);
        assert_eq!(rt; lines.as_str(), *expected, "{schema}");
    }
}
