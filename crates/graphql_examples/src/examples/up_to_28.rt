use crate::{Example, Subject};

/// A query below the query.
pub const QUERY_OF_ITSELF: &str = "type Query { q: Query a: Int b: Int }";

/// A field that takes a list of integers.
const LIST: &str = "type Query { f(l: [Int]): Int }";

/// The examples 27 to 28.
pub const EXAMPLES: &[Example] = &[
    Example {
        id: "27a",
        schema: QUERY_OF_ITSELF,
        subject: Subject::Document("{ a @skip(if: true) @skip(if: true) }"),
        lines: "- non-repeatable directive skip can only be used once per location\n",
    },
    Example {
        id: "27b",
        schema: QUERY_OF_ITSELF,
        subject: Subject::Document("{ a @deprecated }"),
        lines: "- deprecated directive is not supported for FIELD location\n",
    },
    Example {
        id: "27c",
        schema: QUERY_OF_ITSELF,
        subject: Subject::Document("{ a @skip }"),
        lines: "- the required argument `@skip(if:)` is not provided\n",
    },
    Example {
        id: "27d",
        schema: QUERY_OF_ITSELF,
        subject: Subject::Document("{ a @skip(if: true, x: 1) }"),
        lines: "- the argument `x` is not supported by `@skip`\n",
    },
    Example {
        id: "28a",
        schema: "type Query { q: Query a: Int b: Int } directive @onF(x: Boolean) on \
            FRAGMENT_DEFINITION",
        subject: Subject::Document(
            "query ($v: Boolean) { ...F } fragment F on Query @onF(x: $v) { a }",
        ),
        lines: "",
    },
    Example {
        id: "28b",
        schema: LIST,
        subject: Subject::Document("query ($v: Int) { f(l: [$v]) }"),
        lines: "",
    },
    Example {
        id: "28c",
        schema: LIST,
        subject: Subject::Document("query ($v: String) { f(l: [$v]) }"),
        lines: "- expected value of type Int, found a variable\n",
    },
];
