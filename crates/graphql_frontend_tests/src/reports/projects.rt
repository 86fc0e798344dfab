use crate::documents::texts_of_schema;
use graphql_answers::frontend::{FileId, Reports, SchemaReading, SourceText, read_schema};
use graphql_answers::{check_part_of_project, check_project};
use graphql_parser::Bounds;
use graphql_shown_reports::shown_reports;
use std::alloc::Global;
use std::fmt::Write;
use std::process::Abort;

const SCHEMA: &str =
    "directive @defer(label: String, if: Boolean! = true) on FRAGMENT_SPREAD | INLINE_FRAGMENT type Query { a(i: I): Int b: B d: B } type Mutation { m: Int } type B { c: Int b: B } input I { x: Int y: Int }";

/// Texts of a project, and texts that are lent to it, with what is reported: the file, the byte and the rule. The first file has number 1,
/// the first that is lent number 11.
const PROJECTS: &[(&[&str], &[&str], &str)] = &[
    (&["{ a }"], &[], ""),
    (&["{ a }", "{ a }"], &[], ""),
    // A text without a token is skipped.
    (&["{ a }", "# nothing\n", ""], &[], ""),
    (&[], &[], ""),
    // A fragment in another file, before or behind its operation, or lent.
    (&["{ b { ...F } }", "fragment F on B { c }"], &[], ""),
    (&["fragment F on B { c }", "{ b { ...F } }"], &[], ""),
    (&["{ b { ...F } }"], &["fragment F on B { c }"], ""),
    // A fragment reaches one of a third file.
    (
        &[
            "{ b { ...F } }",
            "fragment F on B { b { ...G } }",
            "fragment G on B { c }",
        ],
        &[],
        "",
    ),
    // No file has the fragment.
    (&["{ b { ...F } }"], &[], "1:6 UndefinedFragment\n"),
    // No operation reaches the fragment; one that is lent may be unused.
    (
        &["{ a }", "fragment F on B { c }"],
        &[],
        "2:0 UnusedFragment\n",
    ),
    (&["{ a }"], &["fragment F on B { c }"], ""),
    (
        &["{ a }", "fragment F on B { ...G }", "fragment G on B { c }"],
        &[],
        "2:0 UnusedFragment\n3:0 UnusedFragment\n",
    ),
    // An operation of a file that is lent reaches nothing of the project, and no rule but building is asked of it.
    (
        &["{ a }", "fragment F on B { c }"],
        &["{ b { ...F } } query ($v: Int) { a } fragment H on B { ...Z }"],
        "2:0 UnusedFragment\n",
    ),
    (&["{ a }"], &["{ z }"], "11:2 UndefinedField\n"),
    (
        &["{ a }"],
        &["fragment F on B { z }"],
        "11:18 UndefinedField\n",
    ),
    // A fault of a fragment is at the fragment, once.
    (
        &[
            "{ b { ...F } }",
            "query Q { b { ...F } }",
            "fragment F on B { b }",
        ],
        &[],
        "3:18 MissingSubselection\n",
    ),
    (
        &["{ b { ...F } }", "fragment F on B { z }"],
        &[],
        "2:18 UndefinedField\n",
    ),
    // An operation that reaches a fragment which cannot be built is not validated; another is.
    (
        &[
            "query Q($v: Int) { b { ...F } } query R($v: Int) { a }",
            "fragment F on B { z }",
        ],
        &[],
        "1:40 UnusedVariable\n2:18 UndefinedField\n",
    ),
    (
        &["{ z }", "query R($v: Int) { a }"],
        &[],
        "1:2 UndefinedField\n2:8 UnusedVariable\n",
    ),
    // Nothing is unused where a definition cannot be built.
    (
        &["{ z }", "fragment F on B { c }"],
        &[],
        "1:2 UndefinedField\n",
    ),
    // Nor where a text is no document; what it may define is not missing.
    (
        &[
            "{ b { ...F } }",
            "fragment F on B {",
            "fragment G on B { c }",
            "query R($v: Int) { a }",
        ],
        &[],
        "2:17 Syntax\n4:8 UnusedVariable\n",
    ),
    (
        &["{ b { ...F } }"],
        &["fragment F on B {"],
        "11:17 Syntax\n",
    ),
    // Names of fragments differ in all files.
    (
        &[
            "{ b { ...F } }",
            "fragment F on B { c }",
            "fragment F on B { c }",
        ],
        &[],
        "3:9 FragmentNameCollision 9\n",
    ),
    (
        &["{ b { ...F } }", "fragment F on B { c }"],
        &["fragment F on B { c }"],
        "11:9 FragmentNameCollision 9\n",
    ),
    // Names of operations differ in a file, and an operation without a name is alone in it.
    (
        &["query Q { a } query Q { a }"],
        &[],
        "1:20 OperationNameCollision 6\n",
    ),
    (&["query Q { a }", "query Q { a }"], &[], ""),
    (
        &["{ a } query Q { a }", "{ a }"],
        &[],
        "1:0 AmbiguousAnonymousOperation\n",
    ),
    // Labels differ in a file, with those of fragments that its operations reach in others.
    (
        &[
            "query Q { b { ... @defer(label: \"l\") { c } } } query R { b { ... @defer(label: \"l\") { c } } }",
        ],
        &[],
        "1:79 DuplicateDeferLabel 32\n",
    ),
    (
        &[
            "query Q { b { ... @defer(label: \"l\") { c } } }",
            "query R { b { ... @defer(label: \"l\") { c } } }",
        ],
        &[],
        "",
    ),
    (
        &[
            "query Q { b { ... @defer(label: \"l\") { c } } } query R { b { ...F } }",
            "fragment F on B { ... @defer(label: \"l\") { c } }",
        ],
        &[],
        "2:36 DuplicateDeferLabel 32\n",
    ),
    // A variable of an operation that a fragment of another file uses.
    (
        &[
            "query Q($v: I) { ...F }",
            "fragment F on Query { a(i: $v) }",
        ],
        &[],
        "",
    ),
    (
        &[
            "query Q($v: I) { ...F }",
            "query R { ...F }",
            "fragment F on Query { a(i: $v) }",
        ],
        &[],
        "3:27 UndefinedVariable\n",
    ),
    // Fields of fragments of two files that conflict.
    (
        &[
            "{ x: b { c } ...F ...G }",
            "fragment F on Query { x: b { c } }",
            "fragment G on Query { x: d { c } }",
        ],
        &[],
        "3:22 ConflictingFieldName 2\n",
    ),
    // A cycle through files. What is on a cycle is not gone into, as in one document.
    (
        &[
            "{ b { ...F } }",
            "fragment F on B { b { ...G } }",
            "fragment G on B { b { ...F } }",
        ],
        &[],
        "2:0 RecursiveFragmentDefinition\n",
    ),
    // An input field that is given again, in a fragment that no operation reaches too.
    (
        &["{ a }", "fragment F on Query { a(i: {x: 1, x: 2}) }"],
        &[],
        "2:0 UnusedFragment\n2:34 UniqueInputField 28\n",
    ),
    // Definitions of types.
    (
        &["{ a }", "type T { a: Int }"],
        &[],
        "2:0 TypeSystemDefinition\n",
    ),
];

/// The texts as sources, the first with this number.
fn sources<'a>(
    rt: &impl Abort,
    alloc: Global,
    texts: &[&'a str],
    first: u32,
) -> Vec<SourceText<'a>> {
    let mut sources = Vec::new(alloc);
    let mut number = first;
    for text in texts {
        sources
            .push(SourceText {
                file_id: FileId(number),
                text,
            })
            .expect(rt, "memory for a source");
        number = number.saturating_add(1);
    }
    sources
}

/// A line for each report, in order of their texts, each once.
fn lines(rt: &impl Abort, alloc: Global, found: &[Reports], sources: &[SourceText<'_>]) -> String {
    let mut lines = Vec::new(alloc);
    for reports in found {
        push_lines(rt, alloc, reports, sources, &mut lines);
    }
    lines.sort().expect(rt, "memory to sort");
    let mut text = String::new(alloc);
    let mut last = "";
    for line in &lines {
        if line.as_str() != last {
            text.push_str(line.as_str()).expect(rt, "memory for a line");
        }
        last = line.as_str();
    }
    text
}

fn push_lines(
    rt: &impl Abort,
    alloc: Global,
    reports: &Reports,
    sources: &[SourceText<'_>],
    lines: &mut Vec<String>,
) {
    let shown = shown_reports(alloc, reports, sources, Bounds::DEFAULT, 100).expect(
        rt,
        "memory for messages",
    );
    for report in &shown {
        let mut line = String::new(alloc);
        if let Some(span) = report.location {
            let file = span.file_id.0;
            write!(&mut line, "{file}:{} ", span.start).expect(rt, "memory for a line");
        }
        line.push_str(report.rule).expect(rt, "memory for a line");
        if let Some(span) = report.original {
            write!(&mut line, " {}", span.start).expect(rt, "memory for a line");
        }
        line.push_str("\n").expect(rt, "memory for a line");
        lines.push(line).expect(rt, "memory for a line");
    }
}

/// What is reported of the project of these texts: all of them, or some of a project of which others could not be read.
fn reported<'a>(
    rt: &impl Abort,
    alloc: Global,
    own: &[&'a str],
    lent: &[&'a str],
    is_all: bool,
) -> String {
    let schema = texts_of_schema(FileId(99), SCHEMA);
    let mut own = sources(rt, alloc, own, 1);
    let lent = sources(rt, alloc, lent, 11);
    match read_schema(alloc, &schema, Bounds::DEFAULT).expect(rt, "memory for a schema") {
        SchemaReading::Accepted(schema) => {
            let found = if is_all {
                check_project(alloc, &schema, &own, &lent, Bounds::DEFAULT)
            } else {
                check_part_of_project(alloc, &schema, &own, &lent, Bounds::DEFAULT)
            };
            own.extend_from_slice(&lent)
                .expect(rt, "memory for sources");
            lines(
                rt,
                alloc,
                &found.expect(rt, "memory for reports").lists,
                &own,
            )
        }
        _ => panic!(rt; "the schema is rejected"),
    }
}

#[test]
fn each_fault_is_at_its_file(rt: HostRuntime) {
    let alloc = rt.alloc();
    let mut wrong = String::new(alloc);
    for (own, lent, expected) in PROJECTS {
        let found = reported(&rt, alloc, own, lent, true);
        if found.as_str() != *expected {
            write!(&mut wrong, "{own:?} {lent:?}: {found}").expect(&rt, "memory for a line");
        }
    }
    assert_eq!(rt; wrong.as_str(), "");
}

#[test]
fn what_a_file_that_was_not_read_may_define_is_not_missing(rt: HostRuntime) {
    let alloc = rt.alloc();
    let spread = reported(&rt, alloc, &["{ b { ...F } }"], &[], false);
    assert_eq!(rt; spread.as_str(), "");
    let unused = reported(&rt, alloc, &["fragment F on B { c }"], &[], false);
    assert_eq!(rt; unused.as_str(), "");
    let other = reported(&rt, alloc, &["query Q($v: Int) { a }"], &[], false);
    assert_eq!(rt; other.as_str(), "1:8 UnusedVariable\n");
}
