use super::{Example, Subject};

/// A field to select from, and a leaf.
const ORGANIZATIONS: &str = "type Query { id: ID organization: Org } type Org { id: ID }";

/// An interface with two objects.
const INTERFACE_AND_OBJECTS: &str =
    "type Query { p: P } interface P { n: Int } type D implements P { n: Int a: Int \
    s: String } type C implements P { n: Int a: Int }";

/// A query below the query.
const QUERY_OF_ITSELF: &str = "type Query { q: Query a: Int b: Int }";

/// The examples 1 to 12.
pub const EXAMPLES: &[Example] = &[
    Example {
        id: "1a",
        schema: ORGANIZATIONS,
        subject: Subject::FieldSet("{ id organization { id } }"),
        lines: "",
    },
    Example {
        id: "1b",
        schema: ORGANIZATIONS,
        subject: Subject::FieldSet("{ id organization }"),
        lines: "- interface, union and object types must have a subselection set\n",
    },
    Example {
        id: "1c",
        schema: ORGANIZATIONS,
        subject: Subject::FieldSet("{ id(arg: true) }"),
        lines: "- the argument `arg` is not supported by `Query.id`\n",
    },
    Example {
        id: "1d",
        schema: ORGANIZATIONS,
        subject: Subject::FieldSet("{ ...F }"),
        lines: "- cannot find fragment `F` in this document\n",
    },
    Example {
        id: "2",
        schema: QUERY_OF_ITSELF,
        subject: Subject::DocumentInFile("{ x: a x: b }"),
        lines: "1:7-11 ConflictingFieldName\n",
    },
    Example {
        id: "3a",
        schema: INTERFACE_AND_OBJECTS,
        subject: Subject::Document("{ p { ... on D { x: a } ... on C { x: n } } }"),
        lines: "",
    },
    Example {
        id: "3b",
        schema: INTERFACE_AND_OBJECTS,
        subject: Subject::Document("{ p { ... on D { x: s } ... on C { x: n } } }"),
        lines: "- ConflictingFieldType\n",
    },
    Example {
        id: "4a",
        schema: INTERFACE_AND_OBJECTS,
        subject: Subject::Document("{ p { x: n ... on D { x: a } } }"),
        lines: "- ConflictingFieldName\n",
    },
    Example {
        id: "4b",
        schema: QUERY_OF_ITSELF,
        subject: Subject::Document("{ q { x: a } q { y: a } q { y: b } }"),
        lines: "- ConflictingFieldName\n",
    },
    Example {
        id: "5",
        schema: "type Query { f(l: [Int]): Int }",
        subject: Subject::Document("{ a: f(l: [1]) a: f(l: [1, 2]) }"),
        lines: "- ConflictingFieldArgument\n",
    },
    Example {
        id: "6",
        schema: "type Query { f(n: Int!): Int }",
        subject: Subject::Document("query ($v: Int = null) { f(n: $v) }"),
        lines: "- variable `$v` of type `Int` cannot be used for argument `n` of type `Int!`\n",
    },
    Example {
        id: "7",
        schema: QUERY_OF_ITSELF,
        subject: Subject::Document("query { ...F } fragment F on Query { ...F }"),
        lines: "- `F` fragment cannot reference itself\n",
    },
    Example {
        id: "8",
        schema: QUERY_OF_ITSELF,
        subject: Subject::Document("query { q { ...F } } fragment F on Query { q { ...F } a }"),
        lines: "- `F` fragment cannot reference itself\n",
    },
    Example {
        id: "9",
        schema: QUERY_OF_ITSELF,
        subject: Subject::Document("query { ...F } fragment F on Query { q { ...F } x: a x: b }"),
        lines: "- `F` fragment cannot reference itself\n\
            - ConflictingFieldName\n",
    },
    Example {
        id: "10a",
        schema: QUERY_OF_ITSELF,
        subject: Subject::Document("<1-128:{ q >{ a }<1-128: }>"),
        lines: "",
    },
    Example {
        id: "10b",
        schema: QUERY_OF_ITSELF,
        subject: Subject::Document("<1-129:{ q >{ a }<1-129: }>"),
        lines: "- RecursionLimitError\n",
    },
    Example {
        id: "11",
        schema: QUERY_OF_ITSELF,
        subject: Subject::Document("query A <1-129:{ q >{ a }<1-129: }> query B { a }"),
        lines: "- RecursionLimitError\n\
            - RecursionLimitError\n",
    },
    Example {
        id: "12a",
        schema: QUERY_OF_ITSELF,
        subject: Subject::Standalone("<1-499:{ q >{ a }<1-499: }>"),
        lines: "",
    },
    Example {
        id: "12b",
        schema: QUERY_OF_ITSELF,
        subject: Subject::Standalone("<1-500:{ q >{ a }<1-500: }>"),
        lines: "- too much recursion\n\
            - RecursionLimitError\n\
            - too much recursion\n",
    },
];
