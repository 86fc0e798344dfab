use crate::{Example, Subject};

/// The examples 29 to 31.
pub const EXAMPLES: &[Example] = &[
    Example {
        id: "29a",
        schema: "schema { query: Q mutation: Q } type Q { a: Int }",
        subject: Subject::Schema,
        lines: "- the same type `Q` must not be used for multiple root operation types\n",
    },
    Example {
        id: "29b",
        schema: "schema { query: E } enum E { A }",
        subject: Subject::Schema,
        lines: "- `E` field must return an object type\n",
    },
    Example {
        id: "29c",
        schema: "type Query { f(__a: Int): Int }",
        subject: Subject::Schema,
        lines: "- an argument cannot be named `__a` as names starting with two underscores are reserved\n",
    },
    Example {
        id: "29d",
        schema: "type Query { f(a: Query): Int }",
        subject: Subject::Schema,
        lines: "- `a` field must be of an input type\n",
    },
    Example {
        id: "29e",
        schema: "type Query { f(a: Int, a: Int): Int }",
        subject: Subject::Schema,
        lines: "- the value `a` is defined multiple times\n",
    },
    Example {
        id: "29f",
        schema: "type Query { u: U } union U = Query | E enum E { A }",
        subject: Subject::Schema,
        lines: "- union member `E` must be an object type\n",
    },
    Example {
        id: "29g",
        schema: "type Query { f: X }",
        subject: Subject::Schema,
        lines: "- cannot find type `X` in this document\n",
    },
    Example {
        id: "29h",
        schema: "type Query { f: Int } scalar Date",
        subject: Subject::RetainedTypes,
        lines: "types: Int String Boolean Query Date\n",
    },
    Example {
        id: "30a",
        schema: "type Query implements P { f: Int } interface P { n: Int }",
        subject: Subject::Schema,
        lines: "- type `Query` does not satisfy interface `P`: missing field `n`\n",
    },
    Example {
        id: "30b",
        schema: "type Query implements P { n(a: Int!): Int } interface P { n: Int }",
        subject: Subject::Schema,
        lines: "- `Query.n` has extra required argument `a` not present in interface `P.n`\n",
    },
    Example {
        id: "30c",
        schema: "type Query implements P { n: Int } interface P { n(a: Int): Int }",
        subject: Subject::Schema,
        lines: "- interface field `P.n` expects argument `a` but `Query.n` does not provide it\n",
    },
    Example {
        id: "30d",
        schema: "type Query implements P { n(a: Int!): Int } interface P { n(a: Int): Int }",
        subject: Subject::Schema,
        lines: "- interface field `P.n` expects argument `a` of type `Int` but `Query.n` provides type `Int!`\n",
    },
    Example {
        id: "30e",
        schema: "type Query { p: P } interface P implements P { n: Int }",
        subject: Subject::Schema,
        lines: "- interface P cannot implement itself\n",
    },
    Example {
        id: "30f",
        schema: "type Query implements P { n: [Query!]! } interface P { n: [P] }",
        subject: Subject::Schema,
        lines: "",
    },
    Example {
        id: "31a",
        schema: "type Query { f(a: A): Int } input A { b: B! } input B { b: B! }",
        subject: Subject::Schema,
        lines: "- `B` input object cannot reference itself\n",
    },
    Example {
        id: "31b",
        schema: "type Query { f(a: A): Int } input A { a: A! = {} }",
        subject: Subject::Schema,
        lines: "- `A` input object cannot reference itself\n",
    },
    Example {
        id: "31c",
        schema: "type Query { f: Int } directive @d(a: A) on INPUT_FIELD_DEFINITION input A { x: Int @d }",
        subject: Subject::Schema,
        lines: "- `d` directive definition cannot reference itself\n",
    },
];
