use graphql_diagnostics::{BuildError, Details, DiagnosticList};
use graphql_documents::documents::{ExecutableDocument, Schema};
use graphql_nodes::FileId;
use graphql_notation::build::{document_in_file, schema};
use graphql_validation::entry::{
    validate_executable_document, validate_executable_document_within,
};
use std::alloc::Global;
use std::process::Abort;

/// The schema of all documents.
const SCHEMA: &str = "
    type Query { a(n: Int, o: In): Int b: Int c: String q: Query node: Node }
    input In { x: Int y: In }
    interface Node { x: Int }
    type A implements Node { x: Int y: Int z: Int }
    type B implements Node { x: Int y: Int z: String }";

/// Documents, and whether their fields conflict.
const DOCUMENTS: &[(&str, bool)] = &[
    ("{ a a b }", false),
    ("{ q { k: a } q { k: a } }", false),
    ("{ node { ... on A { k: x } ... on B { k: y } } }", false),
    ("{ k: a k: b }", true),
    ("{ a(n: 1) a(n: 2) }", true),
    ("{ a(n: 1) a }", true),
    ("{ a(n: 1) a(n: 1, o: {}) }", true),
    // one value in another order, and different ones inside equal lists of names
    (
        "{ a(n: 1, o: { x: 1, y: {} }) a(o: { y: {}, x: 1 }, n: 1) }",
        false,
    ),
    (
        "{ a(n: 1, o: { x: 1, y: { x: 1 } }) a(n: 1, o: { x: 1, y: { x: 2 } }) }",
        true,
    ),
    ("{ k: a k: c }", true),
    ("{ node { ... on A { z } ... on B { z } } }", true),
    // in a fragment, and below two fields of one key
    ("{ ...F } fragment F on Query { k: a k: b }", true),
    (
        "{ q { ...F } q { k: a } } fragment F on Query { k: b }",
        true,
    ),
    // two operations, of which the second conflicts, the first, or none
    ("query One { a } query Two { k: a k: b }", true),
    ("query One { k: a k: c } query Two { a }", true),
    ("query One { a b } query Two { b q { a } }", false),
    // both reach the same fragment
    (
        "query One { ...F } query Two { q { ...F } k: c } fragment F on Query { q { k: a } k: c }",
        false,
    ),
];

/// How many conflicts of fields are in the list, and how many diagnostics.
fn conflicts(diagnostics: &DiagnosticList) -> (usize, usize) {
    let mut count: usize = 0;
    for entry in diagnostics.iter() {
        if is_conflict(&entry.details) {
            count = count.wrapping_add(1);
        }
    }
    (count, diagnostics.len())
}

fn is_conflict(details: &Details) -> bool {
    match details {
        Details::Build(BuildError::ConflictingFieldName { .. })
        | Details::Build(BuildError::ConflictingFieldArgument { .. })
        | Details::Build(BuildError::ConflictingFieldType { .. }) => true,
        _ => false,
    }
}

/// What is reported of the document within so much work, or without a bound.
fn reported(
    rt: &impl Abort,
    alloc: Global,
    schema: &Schema,
    document: &ExecutableDocument,
    work: Option<usize>,
) -> (usize, usize) {
    let mut diagnostics = DiagnosticList::new(alloc);
    let validated = match work {
        Some(work) => {
            validate_executable_document_within(&mut diagnostics, schema, document, work)
        }
        None => validate_executable_document(&mut diagnostics, schema, document),
    };
    validated.expect(rt, "memory for reports");
    conflicts(&diagnostics)
}

/// With any bound a conflict is reported where one is without a bound.
fn is_decided(rt: &impl Abort, alloc: Global, schema: &Schema, text: &str, conflicting: bool) {
    let Ok(document) = document_in_file(alloc, schema, text, FileId(1)) else {
        panic!(rt; "no document: {text}")
    };
    let (unbounded, all) = reported(rt, alloc, schema, &document, None);
    assert_eq!(rt; unbounded > 0, conflicting, "{text}");
    // nothing but conflicts is reported
    assert_eq!(rt; unbounded, all, "{text}");
    for work in 0..12 {
        let (bounded, all) = reported(rt, alloc, schema, &document, Some(work));
        assert_eq!(rt; bounded > 0, conflicting, "{work}: {text}");
        assert_eq!(rt; bounded, all, "{work}: {text}");
    }
    // pairs alone report one
    let (by_pairs, _) = reported(rt, alloc, schema, &document, Some(0));
    assert_eq!(rt; by_pairs, usize::from(conflicting), "{text}");
    // and enough work is as no bound
    let (enough, _) = reported(rt, alloc, schema, &document, Some(1000));
    assert_eq!(rt; enough, unbounded, "{text}");
}

#[test]
fn pairs_decide_what_sets_do_not(rt: HostRuntime) {
    let alloc = rt.alloc();
    let Ok(schema) = schema(alloc, SCHEMA) else {
        panic!(rt; "no schema")
    };
    for (text, conflicting) in DOCUMENTS {
        is_decided(&rt, alloc, &schema.0, text, *conflicting);
    }
}
