use graphql_diagnostics::{BuildError, Details, DiagnosticList};
use graphql_documents::documents::Schema;
use graphql_notation::build::{document, schema};
use graphql_pair_merging::merging::merge_by_pairs;
use std::alloc::Global;
use std::process::Abort;

/// The schema of all documents.
const SCHEMA: &str = "
    type Query { a(n: Int): Int b: Int c: String q: Query node: Node }
    interface Node { x: Int }
    type A implements Node { x: Int y: Int z: Int }
    type B implements Node { x: Int y: Int z: String }";

/// Documents with one operation, and what is reported of it.
const DOCUMENTS: &[(&str, &str)] = &[
    ("{ a a b }", ""),
    ("{ a(n: 1) a(n: 1) }", ""),
    ("{ k: a k: b }", "names"),
    ("{ a(n: 1) a(n: 2) }", "arguments"),
    ("{ k: a k: c }", "types"),
    // more arguments, or entries, than are looked through one by one
    ("{ a(<1-12:n%: %, >) a(<7-12:n%: %, ><1-6:n%: %, >) }", ""),
    (
        "{ a(<1-12:n%: %, >) a(<7-12:n%: %, ><1-6:n%: 0, >) }",
        "arguments",
    ),
    (
        "{ a(n: {<1-12:e%: %, >}) a(n: {<7-12:e%: %, ><1-6:e%: %, >}) }",
        "",
    ),
    (
        "{ a(n: {<1-12:e%: %, >}) a(n: {<6-12:e%: %, ><1-4:e%: %, >}) }",
        "arguments",
    ),
    // below fields of one key
    ("{ q { k: a } q { k: a } }", ""),
    ("{ q { k: a } q { k: b } }", "names"),
    ("{ q { j: a } q { k: a } q { i: b } }", ""),
    ("{ q { j: a } q { k: a } q { i: b k: b } }", "names"),
    (
        "{ q { q { j: a } } q { q { k: a } } q { q { k: b } } }",
        "names",
    ),
    // fields of different objects need one shape alone
    ("{ node { ... on A { k: x } ... on B { k: y } } }", ""),
    ("{ node { ... on A { z } ... on B { z } } }", "types"),
    ("{ node { k: x ... on B { k: y } } }", "names"),
    (
        "{ node { ... on A { k: x } ... on B { k: y } ... on B { k: y } } }",
        "",
    ),
    (
        "{ node { ... on A { k: x } ... on B { k: y } ... on A { k: y } } }",
        "names",
    ),
    // through fragments, cyclic ones too
    (
        "{ ...F ...G } fragment F on Query { q { j: a } } fragment G on Query { q { k: b } }",
        "",
    ),
    (
        "{ ...F ...G } fragment F on Query { q { k: a } } fragment G on Query { q { k: b } }",
        "names",
    ),
    ("{ ...F k: a } fragment F on Query { q { ...F } k: a }", ""),
    (
        "{ ...F k: a } fragment F on Query { q { ...F k: b } k: a }",
        "names",
    ),
];

/// What the first diagnostic says.
fn told(diagnostics: &DiagnosticList) -> &'static str {
    let Some(entry) = diagnostics.iter().next() else {
        return "";
    };
    match &entry.details {
        Details::Build(BuildError::ConflictingFieldName { .. }) => "names",
        Details::Build(BuildError::ConflictingFieldArgument { .. }) => "arguments",
        Details::Build(BuildError::ConflictingFieldType { .. }) => "types",
        _ => "others",
    }
}

/// The operation of the text has this report, or none.
pub(crate) fn reports(rt: &impl Abort, alloc: Global, schema: &Schema, text: &str, expected: &str) {
    let Ok(document) = document(alloc, schema, text) else {
        panic!(rt; "no document: {text}")
    };
    let Some(operation) = &document.operations.anonymous else {
        panic!(rt; "no operation: {text}")
    };
    let mut diagnostics = DiagnosticList::new(alloc);
    merge_by_pairs(&mut diagnostics, schema, &document, &[operation]).expect(
        rt,
        "memory for pairs",
    );
    assert_eq!(rt; told(&diagnostics), expected, "{text}");
    assert_eq!(rt;
        diagnostics.len(),
        usize::from(!expected.is_empty()),
        "{text}"
    );
}

#[test]
fn operations_merge_or_have_one_report(rt: HostRuntime) {
    let alloc = rt.alloc();
    let Ok(schema) = schema(alloc, SCHEMA) else {
        panic!(rt; "no schema")
    };
    for (text, expected) in DOCUMENTS {
        reports(&rt, alloc, &schema.0, text, expected);
    }
}
