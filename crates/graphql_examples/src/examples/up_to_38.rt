use crate::up_to_28::QUERY_OF_ITSELF;
use crate::{Example, Subject};

/// The examples 38.
pub const EXAMPLES: &[Example] = &[
    Example {
        id: "38a",
        schema: "schema { query: X } key X type Query { f: Int }",
        subject: Subject::Schema,
        lines: "",
    },
    Example {
        id: "38b",
        schema: "type Query { f(a: A): Int } builtin input A { a: A! }",
        subject: Subject::Schema,
        lines: "0:0-0 `A` input object cannot reference itself\n",
    },
    Example {
        id: "38c",
        schema: "type Query { f: Int } directive @d(a: A) on FIELD builtin input A { a: A }",
        subject: Subject::Schema,
        lines: "",
    },
    Example {
        id: "38d",
        schema: "without ID type Query { f: Int } scalar ID",
        subject: Subject::RetainedTypes,
        lines: "types: Int String Boolean Query ID\n",
    },
    Example {
        id: "38e",
        schema: "key Float builtin type Object { a: Int } type Query { f: Int }",
        subject: Subject::RetainedTypes,
        lines: "types: Int String Boolean Query\n",
    },
    Example {
        id: "38f",
        schema: "type Query { f(n: X): Int }",
        subject: Subject::Document("{ f(n: 1) }"),
        lines: "",
    },
    Example {
        id: "38g",
        schema: "type Query { f: X g: Int }",
        subject: Subject::Document("{ x: f x: g }"),
        lines: "- ConflictingFieldName\n",
    },
    Example {
        id: "38h",
        schema: "type Query { f(i: I): Int } input I { s: Int }",
        subject: Subject::Document("{ x: f(i: {s: 1, s: 2}) x: f(i: {s: 1}) }"),
        lines: "",
    },
    Example {
        id: "38i",
        schema: QUERY_OF_ITSELF,
        subject: Subject::DocumentBuiltBy {
            text: "{ ... on Int { x: a x: b } }",
            builder: "without Int type Query { a: Int } type Int { a: Int b: Int }",
        },
        lines: "- inline fragment must have a composite type in its type condition\n",
    },
    Example {
        id: "38j",
        schema: QUERY_OF_ITSELF,
        subject: Subject::DocumentBuiltBy {
            text: "{ z(n: $v) { ...G } }",
            builder: "type Query { z: Query }",
        },
        lines: "",
    },
    Example {
        id: "38k",
        schema: QUERY_OF_ITSELF,
        subject: Subject::Document("{ ...G } key G fragment F on Query { a }"),
        lines: "- fragment `F` must be used in an operation\n",
    },
    Example {
        id: "38l",
        schema: "type Query { f: Int } directive @A(a: A) on FIELD input A { x: Int }",
        subject: Subject::Schema,
        lines: "",
    },
];
