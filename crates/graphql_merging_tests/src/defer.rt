use super::fixtures::{reports_in_full, schema_of};
use graphql_diagnostics::DiagnosticList;
use graphql_documents::documents::Schema;
use graphql_examples::examples::up_to_26::DEFER;
use graphql_nodes::FileId;
use graphql_notation::build::document_in_file;
use graphql_operations::validate_defer;
use std::alloc::Global;
use std::process::Abort;

/// Documents, and what is reported of their `@defer`.
const DOCUMENTS: &[(&str, &str)] = &[
    (
        "{ ... @defer(label: \"x\") { a } q { ... @defer(label: \"y\") { a } } ... @defer { a } }",
        "",
    ),
    (
        "subscription ($v: Boolean) { s { ... @defer(if: $v) { a } } }",
        "",
    ),
    (
        "{ ... @defer(label: \"x\") { a } q { ... @defer(label: \"x\") { a } } }",
        "53-56 DuplicateDeferLabel x 20-23\n",
    ),
    (
        "query ($l: String) { ... @defer(label: $l) { a } }",
        "39-41 DeferLabelMustNotBeVariable\n",
    ),
    (
        "mutation { ... @defer { a } }",
        "15-21 DeferOnRootMutationOrSubscriptionField mutation\n",
    ),
    (
        "subscription { ... @defer { s { a } } }",
        "19-25 DeferOnRootMutationOrSubscriptionField subscription\n\
            19-25 DeferInSubscriptionMustBeConditional\n",
    ),
    (
        "subscription { s { ... @defer(if: true) { a } } }",
        "23-39 DeferInSubscriptionMustBeConditional\n",
    ),
    (
        "mutation M { ... @defer(label: \"x\") { a } } query Q { ... @defer(label: \"x\") { a } }",
        "72-75 DuplicateDeferLabel x 31-34\n\
            17-35 DeferOnRootMutationOrSubscriptionField mutation\n",
    ),
];

/// The `@defer` of this document bring these reports.
fn brings(rt: &impl Abort, alloc: Global, schema: &Schema, written: &str, expected: &str) {
    let document = document_in_file(alloc, schema, written, FileId(1));
    let document = document.expect(rt, "a document");
    let mut found = DiagnosticList::new(alloc);
    validate_defer(&document, &mut found).expect(rt, "memory for reports");
    drop(document);
    reports_in_full(rt, alloc, &found, expected);
}

#[test]
fn labels_roots_and_conditions_of_defer_are_checked(rt: HostRuntime) {
    let alloc = rt.alloc();
    let schema = schema_of(&rt, alloc, DEFER);
    for (written, expected) in DOCUMENTS {
        brings(&rt, alloc, &schema.0, written, expected);
    }
}

/// A fragment with one label twice, and an operation with the same label below so many sets.
fn deep(rt: &impl Abort, alloc: Global, depth: usize) -> String {
    let fragment = "fragment F on Query { ... @defer(label: \"x\") { a } \
        q { ... @defer(label: \"x\") { a } } } query ";
    let mut text = String::new(alloc);
    let pieces = std::iter::once(fragment)
        .chain(std::iter::repeat_n("{ ... ", depth))
        .chain(std::iter::once("{ ... @defer(label: \"x\") { a } }"))
        .chain(std::iter::repeat_n(" }", depth));
    for piece in pieces {
        text.push_str(piece).expect(rt, "memory for a text");
    }
    text
}

/// How deep the label of an operation is, and what is reported. Operations come before fragments.
const DEPTHS: &[(usize, &str)] = &[
    (
        498,
        "40-43 DuplicateDeferLabel x 3102-3105\n\
            73-76 DuplicateDeferLabel x 3102-3105\n",
    ),
    (
        500,
        "- too much recursion\n\
            40-43 DuplicateDeferLabel x 3114-3117\n\
            73-76 DuplicateDeferLabel x 3114-3117\n",
    ),
    (
        501,
        "- too much recursion\n\
            73-76 DuplicateDeferLabel x 40-43\n",
    ),
];

#[test]
fn a_label_repeats_the_first_that_was_visited(rt: HostRuntime) {
    let alloc = rt.alloc();
    let schema = schema_of(&rt, alloc, DEFER);
    for (depth, expected) in DEPTHS {
        let written = deep(&rt, alloc, *depth);
        brings(&rt, alloc, &schema.0, written.as_str(), expected);
    }
}
