use super::texts::{SCHEMA, document, line};
use graphql_documents::documents::Schema;
use graphql_nesting::{DocumentLevels, check_nesting};
use graphql_nodes::Name;
use graphql_notation::build::schema;
use std::alloc::Global;
use std::process::Abort;

/// Documents and bounds, and the report of each: where it is, and its message.
const DOCUMENTS: &[(&str, usize, &str)] = &[
    // a set, and sets of fields
    ("{ f }", 1, ""),
    ("{ f }", 0, "0 nests too deep: 1 levels, at most 0"),
    ("{ q { q { f } } }", 3, ""),
    (
        "{ q { q { f } } }",
        2,
        "0 nests too deep: 3 levels, at most 2",
    ),
    (
        "query A { f } query B { q { f } } query C { q { f } }",
        2,
        "",
    ),
    (
        "query A { f } query B { q { f } } query C { q { f } }",
        1,
        "14 nests too deep: 2 levels, at most 1",
    ),
    // inline fragments
    ("{ f ... { ... on Query { f } f } }", 3, ""),
    (
        "{ f ... { ... on Query { f } f } }",
        2,
        "0 nests too deep: 3 levels, at most 2",
    ),
    // through two fragments
    (
        "{ ...A } fragment A on Query { q { ...B } } fragment B on Query { q { f } }",
        5,
        "",
    ),
    (
        "{ ...A } fragment A on Query { q { ...B } } fragment B on Query { q { f } }",
        4,
        "0 nests too deep: 5 levels, at most 4",
    ),
    // one fragment at several levels
    (
        "{ ...A q { q { ...A } ...A } } fragment A on Query { q { f } }",
        5,
        "",
    ),
    (
        "{ ...A q { q { ...A } ...A } } fragment A on Query { q { f } }",
        4,
        "0 nests too deep: 5 levels, at most 4",
    ),
    // a fragment that is not spread, and one that is not defined
    ("{ ...B f } fragment A on Query { q { f } }", 2, ""),
    (
        "{ ...B f } fragment A on Query { q { f } }",
        1,
        "11 nests too deep: 2 levels, at most 1",
    ),
    // fragments that lead back to themselves
    (
        "{ f } fragment A on Query { ...B } fragment B on Query { q { ...A } }",
        3,
        "",
    ),
    (
        "{ f } fragment A on Query { ...B } fragment B on Query { q { ...A } }",
        2,
        "6 fragments that lead back to themselves nest too deep: 3 levels together, at most 2",
    ),
    (
        "{ f } fragment C on Query { f } fragment A on Query { q { q { ...A } } }",
        2,
        "32 fragments that lead back to themselves nest too deep: 3 levels together, at most 2",
    ),
    // what leads to them
    ("{ q { ...A } } fragment A on Query { ...A }", 2, ""),
    (
        "{ q { ...A } } fragment A on Query { ...A }",
        1,
        "0 nests too deep: 2 levels, at most 1",
    ),
    (
        "{ ...A } fragment C on Query { ...A } fragment A on Query { ...A q { f } }",
        3,
        "",
    ),
    (
        "{ ...A } fragment C on Query { ...A } fragment A on Query { ...A q { f } }",
        2,
        "9 fragments that lead back to themselves nest too deep: 3 levels together, at most 2",
    ),
    // what they lead to
    (
        "{ ...A } fragment A on Query { ...A q { ...B } } fragment B on Query { q { f } }",
        2,
        "",
    ),
    (
        "{ ...A } fragment A on Query { ...A q { ...B } } fragment B on Query { q { f } }",
        1,
        "49 nests too deep: 2 levels, at most 1",
    ),
];

/// Reports where the document of the text nests deeper than the bound.
fn reported(rt: &impl Abort, alloc: Global, schema: &Schema, text: &str, most: usize) -> String {
    let document = document(rt, alloc, schema, text);
    let Some(report) = check_nesting(alloc, &document, most).expect(rt, "memory for the check")
    else {
        return String::new(alloc);
    };
    let message = report.to_string(alloc).expect(rt, "memory for a message");
    line(rt, alloc, report.location, message.as_str())
}

#[test]
fn each_document_that_nests_too_deep_is_reported(rt: HostRuntime) {
    let alloc = rt.alloc();
    let Ok(schema) = schema(alloc, SCHEMA) else {
        panic!(rt; "no schema")
    };
    for (text, most, expected) in DOCUMENTS {
        let found = reported(&rt, alloc, &schema.0, text, *most);
        assert_eq!(rt; found.as_str(), *expected, "{text}");
    }
}

/// A document of so many fragments with so many levels each, of which each spreads the next at its deepest place, and the last
/// one that is not defined.
fn chain(rt: &impl Abort, alloc: Global, fragments: usize, levels: usize) -> String {
    let mut text = String::from_str(alloc, "{ ...F0 }").expect(rt, "memory for a text");
    for number in 0..fragments {
        let head = format!(in alloc; " fragment F{number} on Query ").expect(
            rt,
            "memory for a text",
        );
        let spread = format!(in alloc; "...F{}", number + 1).expect(rt, "memory for a text");
        let opened = "{ q ".repeat(alloc, levels).expect(rt, "memory for a text");
        let closed = "} ".repeat(alloc, levels).expect(rt, "memory for a text");
        for part in [&head, &opened, &spread, &closed] {
            text.push_str(part.as_str()).expect(rt, "memory for a text");
        }
    }
    text
}

#[test]
fn levels_of_a_chain_of_fragments_are_counted(rt: HostRuntime) {
    let alloc = rt.alloc();
    let Ok(schema) = schema(alloc, SCHEMA) else {
        panic!(rt; "no schema")
    };
    let text = chain(&rt, alloc, 99, 130);
    let found = reported(&rt, alloc, &schema.0, text.as_str(), 500);
    assert_eq!(rt;
        found.as_str(),
        "0 nests too deep: 12871 levels, at most 500"
    );
}

/// A fragment on fields of a fragment, one that leads back to itself, and one that leads to it.
const FRAGMENTS: &str = "{ f } fragment A on Query { q { ...B } } fragment B on Query { q { f } }
    fragment C on Query { q { ...C } } fragment D on Query { ...C }";

#[test]
fn levels_are_known_by_the_names_of_fragments(rt: HostRuntime) {
    let alloc = rt.alloc();
    let Ok(schema) = schema(alloc, SCHEMA) else {
        panic!(rt; "no schema")
    };
    let document = document(&rt, alloc, &schema.0, FRAGMENTS);
    let unknown = DocumentLevels::unknown(&document);
    let found = DocumentLevels::find(alloc, &document).expect(&rt, "memory for levels");
    let expected = [
        ("A", Some(4)),
        ("B", Some(2)),
        ("C", None),
        ("D", None),
        ("E", None),
    ];
    for (text, levels) in &expected {
        let text = String::from_str(alloc, text).expect(&rt, "memory for a name");
        let name = Name::new(text, None).expect(&rt, "a name");
        assert_eq!(rt; found.levels_of(&name), *levels);
        assert_eq!(rt; unknown.levels_of(&name), None);
    }
}
