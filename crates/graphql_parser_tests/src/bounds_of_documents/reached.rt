use super::texts::{SCHEMA, document};
use graphql_notation::build::schema;
use graphql_reach::reached_fragments;
use std::alloc::Global;
use std::process::Abort;

/// Documents of one operation, and the fragments that it reaches.
const DOCUMENTS: &[(&str, &[&str])] = &[
    ("{ f }", &[]),
    ("{ ...A } fragment A on Query { f }", &["A"]),
    (
        "{ q { ...A } ... { ...B } ...A } fragment B on Query { f } fragment A on Query { f }",
        &["A", "B"],
    ),
    // through another fragment, and back to it
    (
        "{ ...A } fragment A on Query { q { ...B } } fragment B on Query { ...A f }",
        &["A", "B"],
    ),
    // one that is not spread, and one that is not defined
    (
        "{ ...A ...Z } fragment A on Query { f } fragment B on Query { f }",
        &["A"],
    ),
];

fn reached(rt: &impl Abort, alloc: Global, text: &str, expected: &[&str]) {
    let Ok(schema) = schema(alloc, SCHEMA) else {
        panic!(rt; "no schema")
    };
    let document = document(rt, alloc, &schema.0, text);
    let operation = document
        .operations
        .anonymous
        .as_ref()
        .expect(rt, "an operation");
    let names = reached_fragments(alloc, &document, &operation.value.selection_set).expect(
        rt,
        "memory for names",
    );
    assert_eq!(rt; names.len(), expected.len(), "{text}");
    for name in expected {
        assert!(rt;
            names.iter().any(|reached| reached.as_str() == *name),
            "{text}"
        );
    }
}

#[test]
fn an_operation_reaches_the_defined_fragments_that_it_spreads(rt: HostRuntime) {
    for (text, expected) in DOCUMENTS {
        reached(&rt, rt.alloc(), text, expected);
    }
}
