use super::fixtures::{reports_in_full, schema_of};
use graphql_diagnostics::DiagnosticList;
use graphql_documents::documents::ExecutableDocument;
use graphql_examples::examples::up_to_19::SUBSCRIPTION;
use graphql_nodes::FileId;
use graphql_notation::build::document_in_file;
use graphql_operations::validate_subscription;
use std::alloc::Global;
use std::process::Abort;

/// Documents of one operation, and what is reported of it as a subscription.
const SUBSCRIPTIONS: &[(&str, &str)] = &[
    ("subscription { a }", ""),
    ("{ a __typename a: a @skip(if: true) }", ""),
    (
        "subscription { a a }",
        "0-20 SubscriptionUsesMultipleFields - a a\n",
    ),
    (
        "subscription S { ... on Subscription { a } b }",
        "0-46 SubscriptionUsesMultipleFields S a b\n",
    ),
    (
        "subscription S { ...F ...F b } fragment F on Subscription { a }",
        "0-30 SubscriptionUsesMultipleFields S a b\n",
    ),
    (
        "subscription S { __typename }",
        "17-27 SubscriptionUsesIntrospection S __typename\n",
    ),
    (
        "subscription { a @skip(if: true) }",
        "17-32 SubscriptionUsesConditionalSelection -\n",
    ),
    (
        "subscription S { b __typename @include(if: true) @skip(if: true) }",
        "19-64 SubscriptionUsesIntrospection S __typename\n\
            30-48 SubscriptionUsesConditionalSelection S\n\
            0-66 SubscriptionUsesMultipleFields S b __typename\n",
    ),
];

/// What is reported of the first operation as a subscription.
fn checked(rt: &impl Abort, alloc: Global, document: &ExecutableDocument) -> DiagnosticList {
    let mut named = document.operations.named.values();
    let anonymous = document.operations.anonymous.as_ref();
    let operation = anonymous
        .or_else(|| named.next())
        .expect(rt, "an operation");
    let mut found = DiagnosticList::new(alloc);
    validate_subscription(document, operation, &mut found).expect(rt, "memory for reports");
    found
}

#[test]
fn subscriptions_are_checked_at_their_root(rt: HostRuntime) {
    let alloc = rt.alloc();
    let schema = schema_of(&rt, alloc, SUBSCRIPTION);
    for (written, expected) in SUBSCRIPTIONS {
        let document = document_in_file(alloc, &schema.0, written, FileId(1));
        let document = document.expect(&rt, "a document");
        reports_in_full(&rt, alloc, &checked(&rt, alloc, &document), expected);
    }
}
