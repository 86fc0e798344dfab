use super::{Example, Subject};

/// A query and a subscription.
pub const SUBSCRIPTION: &str = "type Query { a: Int } type Subscription { a: Int b: Int }";

/// A field that takes an integer and a list of them.
const NUMBERS: &str = "type Query { f(n: Int l: [Int]): Int }";

/// A field that takes an input object.
const INPUT_OBJECT: &str = "type Query { f(i: I): Int } input I { r: Int! s: Int }";

/// A field with a required argument.
const REQUIRED: &str = "type Query { f(n: Int!): Int }";

/// The examples 13 to 19.
pub const EXAMPLES: &[Example] = &[
    Example {
        id: "13a",
        schema: "type Query { f(a: A): Int } input A { b: B! } input B { a: A! }",
        subject: Subject::Schema,
        lines: "- `A` input object cannot reference itself\n\
            - `B` input object cannot reference itself\n",
    },
    Example {
        id: "13b",
        schema: "type Query { f(a: A): Int } input A { a: [A!]! }",
        subject: Subject::Schema,
        lines: "",
    },
    Example {
        id: "13c",
        schema: "type Query { f(a: A1): Int } <1-31:input A% { n: A%+! } >input A32 { n: Int }",
        subject: Subject::Schema,
        lines: "",
    },
    Example {
        id: "13d",
        schema: "type Query { f(a: A1): Int } <1-32:input A% { n: A%+! } >input A33 { n: Int }",
        subject: Subject::Schema,
        lines: "- `A1` contains too much nesting\n",
    },
    Example {
        id: "13e",
        schema: "type Query { f(a: A1): Int } <1-30:input A% { l: A%+! r: A%+! } >input A31 { l: \
            Int r: Int }",
        subject: Subject::Schema,
        lines: "",
    },
    Example {
        id: "13f",
        schema: "type Query { f(a: A1): Int } input A1 { z: A20! n: A2! } <2-32:input A% { n: \
            A%+! } >input A33 { n: Int }",
        subject: Subject::Schema,
        lines: "",
    },
    Example {
        id: "14",
        schema: "type Query { f: Int } interface A implements B { x: Int } interface B implements \
            A { x: Int }",
        subject: Subject::Schema,
        lines: "- interface `A` declares that it implements `B`, but to do so it must also implement `A`\n\
            - interface `B` declares that it implements `A`, but to do so it must also implement `B`\n",
    },
    Example {
        id: "15a",
        schema: SUBSCRIPTION,
        subject: Subject::Document("subscription { a a }"),
        lines: "- SubscriptionUsesMultipleFields\n",
    },
    Example {
        id: "15b",
        schema: SUBSCRIPTION,
        subject: Subject::Document("subscription { ...F ...F } fragment F on Subscription { a }"),
        lines: "",
    },
    Example {
        id: "16a",
        schema: "type Query { f: Int }",
        subject: Subject::RetainedTypes,
        lines: "types: Int String Boolean Query\n",
    },
    Example {
        id: "16b",
        schema: "without Float type Query { f: Float }",
        subject: Subject::RetainedTypes,
        lines: "types: String Boolean Query Float\n",
    },
    Example {
        id: "16c",
        schema: "without Float type Query { f: Float }",
        subject: Subject::TypesRetainedAgain,
        lines: "types: String Boolean Query Float\n",
    },
    Example {
        id: "17a",
        schema: NUMBERS,
        subject: Subject::Document("{ f(n: 2147483648) }"),
        lines: "- int cannot represent non 32-bit signed integer value\n",
    },
    Example {
        id: "17b",
        schema: NUMBERS,
        subject: Subject::Document("{ f(n: -2147483648) }"),
        lines: "",
    },
    Example {
        id: "17c",
        schema: NUMBERS,
        subject: Subject::Document("{ f(l: [[1]]) }"),
        lines: "- expected value of type Int, found a list\n",
    },
    Example {
        id: "17d",
        schema: NUMBERS,
        subject: Subject::Document("{ f(l: 1) }"),
        lines: "",
    },
    Example {
        id: "17e",
        schema: NUMBERS,
        subject: Subject::Document("{ f(n: \"1\") }"),
        lines: "- expected value of type Int, found a string\n",
    },
    Example {
        id: "18a",
        schema: INPUT_OBJECT,
        subject: Subject::Document("{ f(i: {t: 1}) }"),
        lines: "- field `t` does not exist on `I`\n\
            - the required field `I.r` is not provided\n",
    },
    Example {
        id: "18b",
        schema: INPUT_OBJECT,
        subject: Subject::Document("{ f(i: {r: null}) }"),
        lines: "- the required field `I.r` is not provided\n\
            - expected value of type Int!, found null\n",
    },
    Example {
        id: "18c",
        schema: INPUT_OBJECT,
        subject: Subject::Document("{ f(i: {r: 1, r: null}) }"),
        lines: "- the required field `I.r` is not provided\n",
    },
    Example {
        id: "19a",
        schema: REQUIRED,
        subject: Subject::Document("{ f(n: 1, n: 2) f(n: 1) }"),
        lines: "- the argument `n` is provided multiple times\n",
    },
    Example {
        id: "19b",
        schema: REQUIRED,
        subject: Subject::Document("{ f }"),
        lines: "- the required argument `Query.f(n:)` is not provided\n",
    },
    Example {
        id: "19c",
        schema: REQUIRED,
        subject: Subject::Document("{ f(n: null) }"),
        lines: "- expected value of type Int!, found null\n\
            - the required argument `Query.f(n:)` is not provided\n",
    },
];
