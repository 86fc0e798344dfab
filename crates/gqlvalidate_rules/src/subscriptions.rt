//! Rules of root operation types, subscriptions and `@defer`.
use crate::explanations::Explanation;
use crate::schema::SCHEMA;

/// The rules of root operation types, subscriptions and `@defer`.
pub fn subscription_rules() -> &'static [Explanation] {
    &[
        Explanation {
            rule: "UndefinedRootOperation",
            section: "3.3.1 Root Operation Types",
            asks: "The schema has a root type for the kind of the operation.",
            schema: "type Query { me: Int }",
            wrong: "mutation { rename }",
            right: "{ me }",
        },
        Explanation {
            rule: "SubscriptionUsesMultipleFields",
            section: "5.2.3.1 Single Root Field",
            asks: "A subscription has one response key at its root.",
            schema: SCHEMA,
            wrong: "subscription { userAdded { id } userRenamed { id } }",
            right: "subscription { userAdded { id name } }",
        },
        Explanation {
            rule: "SubscriptionUsesIntrospection",
            section: "5.2.3.1 Single Root Field",
            asks: "The root field of a subscription is no introspection field.",
            schema: SCHEMA,
            wrong: "subscription { __typename }",
            right: "subscription { userAdded { __typename } }",
        },
        Explanation {
            rule: "SubscriptionUsesConditionalSelection",
            section: "5.2.3.1 Single Root Field, in a later draft",
            asks: "The root of a subscription has no `@skip` and no `@include`.",
            schema: SCHEMA,
            wrong: "subscription { userAdded @skip(if: false) { id } }",
            right: "subscription { userAdded { id } }",
        },
        Explanation {
            rule: "DeferLabelMustNotBeVariable",
            section: "The proposal of `@defer`",
            asks: "The label of `@defer` is no variable.",
            schema: SCHEMA,
            wrong: "query ($label: String) { ... @defer(label: $label) { me { name } } }",
            right: "{ ... @defer(label: \"me\") { me { name } } }",
        },
        Explanation {
            rule: "DuplicateDeferLabel",
            section: "The proposal of `@defer`",
            asks: "Labels of `@defer` differ in a document.",
            schema: SCHEMA,
            wrong: "{ ... @defer(label: \"a\") { me { name } } ... @defer(label: \"a\") { me { id } } }",
            right: "{ ... @defer(label: \"a\") { me { name } } ... @defer(label: \"b\") { me { id } } }",
        },
        Explanation {
            rule: "DeferOnRootMutationOrSubscriptionField",
            section: "The proposal of `@defer`",
            asks: "The root of a mutation or a subscription has no `@defer`.",
            schema: SCHEMA,
            wrong: "mutation { ... @defer { rename(name: \"a\") { id } } }",
            right: "mutation { rename(name: \"a\") { ... @defer { id } } }",
        },
        Explanation {
            rule: "DeferInSubscriptionMustBeConditional",
            section: "The proposal of `@defer`",
            asks: "In a subscription `@defer` can be disabled: it has an `if` that is false or a variable.",
            schema: SCHEMA,
            wrong: "subscription { userAdded { ... @defer { id } } }",
            right: "subscription ($later: Boolean!) { userAdded { ... @defer(if: $later) { id } } }",
        },
    ]
}
