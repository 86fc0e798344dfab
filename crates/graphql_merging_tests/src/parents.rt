use super::pairs::reports;
use graphql_notation::build::schema;

/// The schema of all documents. Under the name `D` is a second definition of `A`.
const SCHEMA: &str = "
    type Query { node: Node }
    interface Node { x(n: Int): Int node: Node }
    interface Other { x(n: Int): Int }
    type A implements Node & Other { x(n: Int): Int node: Node }
    type B implements Node & Other { x(n: Int): Int node: Node }
    type C implements Node & Other { x(n: Int): Int node: Node }
    key D type A implements Node { x(n: Int): Int }";

/// Documents with one operation, and what is reported of it.
const DOCUMENTS: &[(&str, &str)] = &[
    // on object types alone
    (
        "{ node { ... on A { k: x(n: 1) } ... on B { k: x(n: 2) } ... on C { k: x(n: 3) } } }",
        "",
    ),
    (
        "{ node { ... on A { k: x(n: 1) } ... on B { k: x(n: 2) } ... on A { k: x(n: 3) } } }",
        "arguments",
    ),
    // on an interface first, last, and between
    (
        "{ node { k: x(n: 1) ... on A { k: x(n: 1) } ... on B { k: x(n: 1) } ... on C { k: x(n: 2) } } }",
        "arguments",
    ),
    (
        "{ node { ... on A { k: x(n: 2) } ... on B { k: x(n: 1) } ... on C { k: x(n: 1) } k: x(n: 1) } }",
        "arguments",
    ),
    (
        "{ node { ... on A { k: x(n: 1) } k: x(n: 1) ... on B { k: x(n: 1) } ... on C { k: x(n: 2) } } }",
        "arguments",
    ),
    (
        "{ node { ... on A { k: x(n: 1) } k: x(n: 1) ... on B { k: x(n: 1) } ... on C { k: x(n: 1) } } }",
        "",
    ),
    // on two interfaces
    (
        "{ node { ... on A { k: x(n: 1) } ... on Other { k: x(n: 1) } k: x(n: 2) } }",
        "arguments",
    ),
    // below fields on an object type and an interface, and below those on two object types
    (
        "{ node { ... on A { node { k: x(n: 1) } } ... on B { node { j: x } } node { k: x(n: 2) } } }",
        "arguments",
    ),
    (
        "{ node { node { k: x(n: 1) } ... on A { node { j: x } } ... on B { node { k: x(n: 2) } } } }",
        "arguments",
    ),
    (
        "{ node { ... on A { node { k: x(n: 1) } } ... on B { node { k: x(n: 2) } } node { j: x } } }",
        "",
    ),
    // on two names of one object type
    (
        "{ node { ... on A { k: x(n: 1) } ... on B { k: x(n: 3) } ... on D { k: x(n: 2) } } }",
        "arguments",
    ),
    (
        "{ node { ... on D { k: x(n: 2) } ... on B { k: x(n: 3) } ... on A { k: x(n: 1) } } }",
        "arguments",
    ),
];

/// Two fields of one key need the same arguments if their parents may overlap, however many others are under the key,
/// and in whichever order they are written.
#[test]
fn fields_conflict_if_their_parents_overlap(rt: HostRuntime) {
    let alloc = rt.alloc();
    let Ok(schema) = schema(alloc, SCHEMA) else {
        panic!(rt; "no schema")
    };
    for (text, expected) in DOCUMENTS {
        reports(&rt, alloc, &schema.0, text, expected);
    }
}
