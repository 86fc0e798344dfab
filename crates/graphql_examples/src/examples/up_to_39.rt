use crate::{Example, Subject};

/// The examples 39.
pub const EXAMPLES: &[Example] = &[
    Example {
        id: "39a",
        schema: "type Query { f(n: Int = \"x\"): Int }",
        subject: Subject::Schema,
        lines: "- expected value of type Int, found a string\n",
    },
    Example {
        id: "39b",
        schema: "type Query { f(n: Int! = null): Int }",
        subject: Subject::Schema,
        lines: "- expected value of type Int!, found null\n",
    },
    Example {
        id: "39c",
        schema: "without Float type Query { f(n: Float = 1): Int }",
        subject: Subject::RetainedTypes,
        lines: "types: Int String Boolean Query Float\n",
    },
    Example {
        id: "39d",
        schema: "without Float type Query { f(n: Float = true): Int }",
        subject: Subject::Schema,
        lines: "- expected value of type Float, found a boolean\n",
    },
    Example {
        id: "39e",
        schema: "type Query { f(i: I): Int } input I { s: J = {} } input J { r: Int! }",
        subject: Subject::Schema,
        lines: "- the required field `J.r` is not provided\n",
    },
    Example {
        id: "39f",
        schema: "type Query { f: Int } directive @d(a: E = B) on FIELD enum E { A }",
        subject: Subject::Schema,
        lines: "- value `B` does not exist on `E`\n",
    },
    Example {
        id: "39g",
        schema: "type Query { f: Int } input A { a: A = {} }",
        subject: Subject::Schema,
        lines: "",
    },
    Example {
        id: "39h",
        schema: "type Query { f(n: Int = $v): Int }",
        subject: Subject::Schema,
        lines: "- variable `$v` is not defined\n",
    },
];
