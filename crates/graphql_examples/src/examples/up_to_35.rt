use crate::examples::up_to_19::SUBSCRIPTION;
use crate::examples::up_to_26::DEFER;
use crate::up_to_28::QUERY_OF_ITSELF;
use crate::{Example, Subject};

/// An interface with two objects.
const INTERFACE_AND_OBJECTS: &str =
    "type Query { p: P } interface P { n: Int } type D implements P { n: Int a: Int \
    s: String } type C implements P { n: Int a: Int }";

/// The examples 32 to 35.
pub const EXAMPLES: &[Example] = &[
    Example {
        id: "32a",
        schema: QUERY_OF_ITSELF,
        subject: Subject::Document(
            "query { ...G } fragment G on Query { ...F } fragment F on Query { ...F }",
        ),
        lines: "- `F` fragment cannot reference itself\n",
    },
    Example {
        id: "32b",
        schema: QUERY_OF_ITSELF,
        subject: Subject::Standalone("{ q { ...X } }"),
        lines: "- cannot find fragment `X` in this document\n",
    },
    Example {
        id: "33a",
        schema: SUBSCRIPTION,
        subject: Subject::Document("subscription { __typename }"),
        lines: "- SubscriptionUsesIntrospection\n",
    },
    Example {
        id: "33b",
        schema: SUBSCRIPTION,
        subject: Subject::Document("subscription { a @skip(if: true) }"),
        lines: "- SubscriptionUsesConditionalSelection\n",
    },
    Example {
        id: "33c",
        schema: SUBSCRIPTION,
        subject: Subject::Document("subscription { ... on Subscription { a } b }"),
        lines: "- SubscriptionUsesMultipleFields\n",
    },
    Example {
        id: "33d",
        schema: DEFER,
        subject: Subject::Document("mutation { ...F } fragment F on Mutation { ... @defer { a } }"),
        lines: "- DeferOnRootMutationOrSubscriptionField\n",
    },
    Example {
        id: "33e",
        schema: DEFER,
        subject: Subject::Document("subscription { s { ... @defer(if: true) { a } } }"),
        lines: "- DeferInSubscriptionMustBeConditional\n",
    },
    Example {
        id: "33f",
        schema: DEFER,
        subject: Subject::Document(
            "subscription { s { ...F } } fragment F on Query { ... @defer { a } }",
        ),
        lines: "- DeferInSubscriptionMustBeConditional\n",
    },
    Example {
        id: "33g",
        schema: DEFER,
        subject: Subject::Standalone("mutation <1-499:{ ... >{ a }<1-499: }>"),
        lines: "",
    },
    Example {
        id: "33h",
        schema: DEFER,
        subject: Subject::Standalone("mutation <1-500:{ ... >{ a }<1-500: }>"),
        lines: "- too much recursion\n\
            - RecursionLimitError\n\
            - too much recursion\n",
    },
    Example {
        id: "33i",
        schema: DEFER,
        subject: Subject::Standalone("mutation <1-501:{ ... >{ a }<1-501: }>"),
        lines: "- too much recursion\n\
            - RecursionLimitError\n\
            - too much recursion\n\
            - too much recursion\n",
    },
    Example {
        id: "34a",
        schema: QUERY_OF_ITSELF,
        subject: Subject::Document("{ x: a x: b x: a }"),
        lines: "- ConflictingFieldName\n",
    },
    Example {
        id: "34b",
        schema: INTERFACE_AND_OBJECTS,
        subject: Subject::Document("{ p { ... on D { x: a } ... on C { x: a } x: n } }"),
        lines: "- ConflictingFieldName\n\
            - ConflictingFieldName\n",
    },
    Example {
        id: "34c",
        schema: QUERY_OF_ITSELF,
        subject: Subject::Document("{ q { x: a x: b } r: q { x: a x: b } }"),
        lines: "- ConflictingFieldName\n",
    },
    Example {
        id: "35",
        schema: QUERY_OF_ITSELF,
        subject: Subject::Document(
            "query <1-128:{ q >{ ...F }<1-128: }> fragment F on Query { q { ...F } a }",
        ),
        lines: "- `F` fragment cannot reference itself\n",
    },
];
