use graphql_lone_fields::lone_fields::have_lone_fields;
use graphql_nodes::FileId;
use graphql_notation::build::{document_in_file, schema};
use graphql_operations::operations_of;

/// The schema of all documents.
const SCHEMA: &str = "
    type Query { a(n: Int): Int b: Int q: Query node: Node }
    interface Node { x: Int }
    type A implements Node { x: Int y: Int id: ID! ids: [ID!] z: Int zs: [Int] }
    type B implements Node { x: Int y: Int id: ID! ids: [ID!] z: Int! zs: [Int]! }";

/// Documents, how many selections the search may visit, and whether it finds that nothing has to be merged.
const DOCUMENTS: &[(&str, usize, bool)] = &[
    ("{ a b }", 100, true),
    ("{ a k: a }", 100, true),
    ("{ k: a k: b }", 100, false),
    // equal leaves
    ("{ a a }", 100, true),
    ("{ k: a k: a k: a }", 100, true),
    ("{ q { a a } }", 100, true),
    ("{ node { ... on A { id } ... on B { id } } }", 100, true),
    ("{ node { x ... on A { x } ... on B { x } } }", 100, true),
    (
        "{ node { ... on A { k: ids } ... on B { k: ids } } }",
        100,
        true,
    ),
    // of two types, of two names, with arguments, and with selections
    ("{ node { ... on A { z } ... on B { z } } }", 100, false),
    ("{ node { ... on A { zs } ... on B { zs } } }", 100, false),
    (
        "{ node { ... on A { k: id } ... on B { k: ids } } }",
        100,
        false,
    ),
    (
        "{ node { ... on A { k: x } ... on B { k: y } } }",
        100,
        false,
    ),
    ("{ a(n: 1) a(n: 1) }", 100, false),
    ("{ a a(n: 1) }", 100, false),
    ("{ a(n: 1) a }", 100, false),
    ("{ q { a } q { a } }", 100, false),
    // below fields of different keys, and below one field
    ("{ q { a } k: q { a } }", 100, true),
    ("{ q { a } q { b } }", 100, false),
    // in fragments
    ("{ a ...F } fragment F on Query { b q { a } }", 100, true),
    ("{ a ...F } fragment F on Query { a }", 100, true),
    ("{ a: b ...F } fragment F on Query { a }", 100, false),
    ("{ ...F ...F } fragment F on Query { a }", 100, true),
    ("{ node { x ... on A { y } } }", 100, true),
    // 16 fields, and more
    (
        "{ a b c: a d: a e: a f: a g: a h: a i: a j: a k: a l: a m: a n: a o: a a }",
        100,
        true,
    ),
    (
        "{ a b c: a d: a e: a f: a g: a h: a i: a j: a k: a l: a m: a n: a o: a p: a q }",
        100,
        true,
    ),
    (
        "{ a b c: a d: a e: a f: a g: a h: a i: a j: a k: a l: a m: a n: a o: a p: a a }",
        100,
        false,
    ),
    // the second operation
    ("query One { a } query Two { b }", 100, true),
    ("query One { a } query Two { k: a k: b }", 100, false),
    // no end
    (
        "{ q { ...F } } fragment F on Query { q { ...F } }",
        10_000,
        false,
    ),
    // a bound on the selections that are visited, spreads and inline fragments among them
    ("{ a b q { a } }", 4, true),
    ("{ a b q { a } }", 3, false),
    ("{ ...F ...F } fragment F on Query { a }", 3, true),
    ("{ ...F ...F } fragment F on Query { a }", 2, false),
    ("{ ... on Query { a } }", 2, true),
    ("{ ... on Query { a } }", 1, false),
];

#[test]
fn lone_fields_are_found(rt: HostRuntime) {
    let alloc = rt.alloc();
    let Ok(schema) = schema(alloc, SCHEMA) else {
        panic!(rt; "no schema")
    };
    for (text, most, lone) in DOCUMENTS {
        let Ok(document) = document_in_file(alloc, &schema.0, text, FileId(1)) else {
            panic!(rt; "no document: {text}")
        };
        let operations = operations_of(alloc, &document).expect(&rt, "memory for operations");
        let found = have_lone_fields(alloc, &document, &operations, *most);
        assert_eq!(rt; found.expect(&rt, "memory for fields"), *lone, "{text}");
    }
}
