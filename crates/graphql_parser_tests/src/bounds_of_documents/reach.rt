use super::texts::{SCHEMA, document, line};
use graphql_documents::documents::Schema;
use graphql_notation::build::schema;
use graphql_reach::check_reach;
use std::alloc::Global;
use std::process::Abort;

/// Documents and bounds, and the report of each: where it is, and its message.
const DOCUMENTS: &[(&str, usize, &str)] = &[
    // one operation
    ("{ f }", 5, ""),
    (
        "{ f }",
        4,
        "0 reaches too much: 5 bytes with the operations before it, at most 4",
    ),
    // two operations
    ("query A { f } query B { q { f } }", 32, ""),
    (
        "query A { f } query B { q { f } }",
        31,
        "14 reaches too much: 32 bytes with the operations before it, at most 31",
    ),
    (
        "query A { f } query B { q { f } }",
        13,
        "14 reaches too much: 32 bytes with the operations before it, at most 13",
    ),
    (
        "query A { f } query B { q { f } }",
        12,
        "0 reaches too much: 13 bytes with the operations before it, at most 12",
    ),
    // a fragment that one operation spreads twice
    ("{ ...A q { ...A } } fragment A on Query { f }", 44, ""),
    (
        "{ ...A q { ...A } } fragment A on Query { f }",
        43,
        "0 reaches too much: 44 bytes with the operations before it, at most 43",
    ),
    // a fragment that two operations spread
    (
        "query A { ...F } query B { ...F } fragment F on Query { f }",
        82,
        "",
    ),
    (
        "query A { ...F } query B { ...F } fragment F on Query { f }",
        81,
        "17 reaches too much: 82 bytes with the operations before it, at most 81",
    ),
    (
        "query A { ...F } query B { ...F } fragment F on Query { f }",
        40,
        "0 reaches too much: 41 bytes with the operations before it, at most 40",
    ),
    // a fragment that only one of two operations spreads
    (
        "query A { f } query B { ...F } fragment F on Query { f }",
        54,
        "",
    ),
    (
        "query A { f } query B { ...F } fragment F on Query { f }",
        53,
        "14 reaches too much: 54 bytes with the operations before it, at most 53",
    ),
    // a fragment through another
    (
        "{ ...A } fragment A on Query { q { ...B } } fragment B on Query { f }",
        67,
        "",
    ),
    (
        "{ ...A } fragment A on Query { q { ...B } } fragment B on Query { f }",
        66,
        "0 reaches too much: 67 bytes with the operations before it, at most 66",
    ),
    // fragments that lead back to themselves
    (
        "{ ...A } fragment A on Query { ...B } fragment B on Query { ...A }",
        64,
        "",
    ),
    (
        "{ ...A } fragment A on Query { ...B } fragment B on Query { ...A }",
        63,
        "0 reaches too much: 64 bytes with the operations before it, at most 63",
    ),
    // a fragment that is not defined, and one that is not spread
    ("{ ...B f } fragment A on Query { f }", 10, ""),
    (
        "{ ...B f } fragment A on Query { f }",
        9,
        "0 reaches too much: 10 bytes with the operations before it, at most 9",
    ),
    ("{ f } fragment A on Query { ...A }", 5, ""),
    (
        "{ f } fragment A on Query { ...A }",
        4,
        "0 reaches too much: 5 bytes with the operations before it, at most 4",
    ),
    // the operation without a name is the first
    ("query A { f } { f }", 18, ""),
    (
        "query A { f } { f }",
        17,
        "0 reaches too much: 18 bytes with the operations before it, at most 17",
    ),
    (
        "query A { f } { f }",
        4,
        "14 reaches too much: 5 bytes with the operations before it, at most 4",
    ),
    // no operation
    ("fragment A on Query { f }", 0, ""),
];

/// Reports where the document of the text reaches more than the bound.
fn reported(rt: &impl Abort, alloc: Global, schema: &Schema, text: &str, most: usize) -> String {
    let document = document(rt, alloc, schema, text);
    let Some(report) = check_reach(alloc, &document, most).expect(rt, "memory for the check") else {
        return String::new(alloc);
    };
    let message = report.to_string(alloc).expect(rt, "memory for a message");
    line(rt, alloc, report.location, message.as_str())
}

#[test]
fn each_document_that_reaches_too_much_is_reported(rt: HostRuntime) {
    let alloc = rt.alloc();
    let Ok(schema) = schema(alloc, SCHEMA) else {
        panic!(rt; "no schema")
    };
    for (text, most, expected) in DOCUMENTS {
        let found = reported(&rt, alloc, &schema.0, text, *most);
        assert_eq!(rt; found.as_str(), *expected, "{text}");
    }
}
