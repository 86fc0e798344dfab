use super::{Example, Subject};

/// All three roots, and `@defer`.
pub const DEFER: &str =
    "type Query { a: Int q: Query } type Mutation { a: Int } type Subscription { s: \
    Query } directive @defer(label: String, if: Boolean! = true) on FRAGMENT_SPREAD \
    | INLINE_FRAGMENT";

/// A query below the query.
const QUERY_OF_ITSELF: &str = "type Query { q: Query a: Int b: Int }";

/// The examples 20 to 26.
pub const EXAMPLES: &[Example] = &[
    Example {
        id: "20a",
        schema: "type Query { p: P } interface P { n: Int } type D implements P { n: Int a: Int \
            s: String } type C implements P { n: Int a: Int } type E { m: Int }",
        subject: Subject::Document("{ p { ... on E { m } } }"),
        lines: "- inline fragment with type condition `E` cannot be applied to `P`\n",
    },
    Example {
        id: "20b",
        schema: QUERY_OF_ITSELF,
        subject: Subject::Document("{ a } fragment F on Query { a }"),
        lines: "- fragment `F` must be used in an operation\n",
    },
    Example {
        id: "21a",
        schema: QUERY_OF_ITSELF,
        subject: Subject::Document(
            "query { ...F1 } <1-99:fragment F% on Query { ...F%+ } >fragment F100 on Query { a }",
        ),
        lines: "",
    },
    Example {
        id: "21b",
        schema: QUERY_OF_ITSELF,
        subject: Subject::Document(
            "query { ...F1 } <1-100:fragment F% on Query { ...F%+ } >fragment F101 on Query { a }",
        ),
        lines: "- `F1` contains too much nesting\n",
    },
    Example {
        id: "22a",
        schema: QUERY_OF_ITSELF,
        subject: Subject::Document("query ($b: Int, $a: Int) { a }"),
        lines: "- unused variable: `$b`\n\
            - unused variable: `$a`\n",
    },
    Example {
        id: "22b",
        schema: QUERY_OF_ITSELF,
        subject: Subject::Document("query ($a: Int, $a: Int) { a }"),
        lines: "- the variable `$a` is declared multiple times\n\
            - unused variable: `$a`\n",
    },
    Example {
        id: "23a",
        schema: QUERY_OF_ITSELF,
        subject: Subject::Document("query A { x: a x: b } query B { x: a x: b }"),
        lines: "- ConflictingFieldName\n",
    },
    Example {
        id: "23b",
        schema: "type Query { n(n: Int): Int }",
        subject: Subject::Document(
            "query A($v: Int) { ...F } query B { ...F } fragment F on Query { n(n: $v) }",
        ),
        lines: "- variable `$v` is not defined\n",
    },
    Example {
        id: "24a",
        schema: DEFER,
        subject: Subject::Document(
            "{ ... @defer(label: \"x\") { a } q { ... @defer(label: \"x\") { a } } }",
        ),
        lines: "- DuplicateDeferLabel\n",
    },
    Example {
        id: "24b",
        schema: DEFER,
        subject: Subject::Document("query ($l: String) { ... @defer(label: $l) { a } }"),
        lines: "- DeferLabelMustNotBeVariable\n",
    },
    Example {
        id: "24c",
        schema: DEFER,
        subject: Subject::Document("mutation { ... @defer { a } }"),
        lines: "- DeferOnRootMutationOrSubscriptionField\n",
    },
    Example {
        id: "24d",
        schema: DEFER,
        subject: Subject::Document("subscription { s { ... @defer { a } } }"),
        lines: "- DeferInSubscriptionMustBeConditional\n",
    },
    Example {
        id: "24e",
        schema: DEFER,
        subject: Subject::Document("subscription { s { ... @defer(if: false) { a } } }"),
        lines: "",
    },
    Example {
        id: "24f",
        schema: DEFER,
        subject: Subject::Document("subscription { s { q @skip(if: true) { ... @defer { a } } } }"),
        lines: "",
    },
    Example {
        id: "25a",
        schema: QUERY_OF_ITSELF,
        subject: Subject::Standalone("{ a @skip(if: true) }"),
        lines: "- cannot find directive `@skip` in this document\n",
    },
    Example {
        id: "25b",
        schema: "type Query { f: Int } directive @d(a: Int @d) on ARGUMENT_DEFINITION directive \
            @b(a: Int @d) on ARGUMENT_DEFINITION",
        subject: Subject::Schema,
        lines: "- `d` directive definition cannot reference itself\n",
    },
    Example {
        id: "26a",
        schema: "type Query { __a: Int }",
        subject: Subject::Schema,
        lines: "- a field cannot be named `__a` as names starting with two underscores are reserved\n",
    },
    Example {
        id: "26b",
        schema: "type Foo { a: Int }",
        subject: Subject::Schema,
        lines: "- missing query root operation type in schema definition\n",
    },
    Example {
        id: "26c",
        schema: "type Query { e: E } enum E",
        subject: Subject::Schema,
        lines: "- `E` has no enum values\n",
    },
    Example {
        id: "26d",
        schema: "type Query implements P { n: String } interface P { n: Int }",
        subject: Subject::Schema,
        lines: "- interface field `P.n` expects type `Int` but `Query.n` of type `String` is not a proper subtype\n",
    },
    Example {
        id: "26e",
        schema: "type Query { f: I } input I { a: Int }",
        subject: Subject::Schema,
        lines: "- `f` field must return an output type\n",
    },
];
