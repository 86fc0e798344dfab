use crate::examples::up_to_19::SUBSCRIPTION;
use crate::up_to_28::QUERY_OF_ITSELF;
use crate::{Example, Subject};

/// The examples 36 to 37.
pub const EXAMPLES: &[Example] = &[
    Example {
        id: "36a",
        schema: "type Query { f: Int } <1-31: directive @d%(a: Int @d%+) on ARGUMENT_DEFINITION > directive @d32(a: Int) on ARGUMENT_DEFINITION",
        subject: Subject::Schema,
        lines: "",
    },
    Example {
        id: "36b",
        schema: "type Query { f: Int } <1-32: directive @d%(a: Int @d%+) on ARGUMENT_DEFINITION > directive @d33(a: Int) on ARGUMENT_DEFINITION",
        subject: Subject::Schema,
        lines: "- `d1` contains too much nesting\n",
    },
    Example {
        id: "36c",
        schema: "type Query { f: Int } directive @d(a: Nested1) on FIELD <1-31: input Nested% { n: Nested%+ } > input Nested32 { n: Int }",
        subject: Subject::Schema,
        lines: "",
    },
    Example {
        id: "36d",
        schema: "type Query { f: Int } directive @d(a: Nested1) on FIELD <1-32: input Nested% { n: Nested%+ } > input Nested33 { n: Int }",
        subject: Subject::Schema,
        lines: "- `d` contains too much nesting\n",
    },
    Example {
        id: "37a",
        schema: QUERY_OF_ITSELF,
        subject: Subject::Document(
            "query { ...F } fragment F on Query { q { ...G } x: a } \
            fragment G on Query { q { ...F } x: b }",
        ),
        lines: "- `F` fragment cannot reference itself\n",
    },
    Example {
        id: "37b",
        schema: SUBSCRIPTION,
        subject: Subject::Document("subscription <1-500:{ ... >{ a }<1-500: }>"),
        lines: "- too much recursion\n\
            - RecursionLimitError\n\
            - too much recursion\n\
            - too much recursion\n",
    },
    Example {
        id: "37c",
        schema: SUBSCRIPTION,
        subject: Subject::Document("subscription <1-501:{ ... >{ a }<1-501: }>"),
        lines: "- too much recursion\n\
            - RecursionLimitError\n\
            - too much recursion\n\
            - too much recursion\n\
            - too much recursion\n\
            - too much recursion\n",
    },
    Example {
        id: "37d",
        schema: QUERY_OF_ITSELF,
        subject: Subject::Document(
            "query A <1-129:{ q >{ x: a x: b }<1-129: }> query B { q { x: a x: b } a }",
        ),
        lines: "- RecursionLimitError\n\
            - ConflictingFieldName\n\
            - RecursionLimitError\n",
    },
];
