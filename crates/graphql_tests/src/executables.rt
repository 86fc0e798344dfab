use super::fixtures::reports;
use graphql_built::built_against;
use graphql_diagnostics::DiagnosticList;
use graphql_examples::examples::up_to_19::SUBSCRIPTION;
use graphql_examples::{BuiltExample, Example, Subject, Validated, build_example, find};
use graphql_validation::entry::{
    validate_executable_document, validate_field_set, validate_standalone_executable,
};
use std::alloc::Global;
use std::process::Abort;

/// The examples of field sets and of documents without locations.
const EXAMPLES: &[&str] = &[
    "1a", "1b", "1c", "1d", "3a", "3b", "4a", "4b", "5", "6", "7", "8", "9", "10a", "10b", "11",
    "12a", "12b", "15a", "15b", "17a", "17b", "17c", "17d", "17e", "18a", "18b", "18c", "19a",
    "19b", "19c", "20a", "20b", "21a", "21b", "22a", "22b", "23a", "23b", "24a", "24b", "24c",
    "24d", "24e", "24f", "25a", "27a", "27b", "27c", "27d", "28a", "28b", "28c", "32a", "32b",
    "33a", "33b", "33c", "33d", "33e", "33f", "33g", "33h", "33i", "34a", "34b", "34c", "35",
    "37a", "37b", "37c", "37d", "38f", "38g", "38h", "38i", "38j", "38k",
];

/// Validates the example by its call.
fn validate(rt: &impl Abort, found: &mut DiagnosticList, built_example: &BuiltExample) {
    let schema = &built_example.schema;
    let answer = match &built_example.validated {
        Validated::FieldSet(set) => validate_field_set(found, schema, set),
        Validated::Document(document) => validate_executable_document(found, &schema.0, document),
        Validated::Standalone(document) => validate_standalone_executable(found, document),
        Validated::Schema => panic!(rt; "a document was expected"),
    };
    answer.expect(rt, "memory for reports");
}

/// The example brings its lines.
fn gives_its_lines(rt: &impl Abort, alloc: Global, example: &Example) {
    let built_example = build_example(alloc, example).expect(rt, "an example");
    let mut found = DiagnosticList::new(alloc);
    validate(rt, &mut found, &built_example);
    drop(built_example);
    reports(rt, alloc, &found, example.lines);
}

#[test]
fn examples_give_their_lines(rt: HostRuntime) {
    for id in EXAMPLES {
        gives_its_lines(&rt, rt.alloc(), find(id).expect(&rt, "an example"));
    }
}

/// A subscription as deep as all walks go.
const DEEP_SUBSCRIPTION: Example = Example {
    id: "",
    schema: SUBSCRIPTION,
    subject: Subject::Document("subscription <1-499:{ ... >{ a }<1-499: }>"),
    lines: "",
};

#[test]
fn walks_over_subscriptions_go_into_500_sets(rt: HostRuntime) {
    gives_its_lines(&rt, rt.alloc(), &DEEP_SUBSCRIPTION);
}

/// Documents, and whether a builder could have made them with their schemas.
const BUILT: &[(&str, bool)] = &[
    ("7", true),
    ("8", true),
    ("20a", true),
    ("21a", true),
    ("38f", true),
    ("38g", false),
    ("38h", true),
    ("38i", false),
    ("38j", false),
    ("38k", false),
];

/// Whether the document of the example is built against its schema.
fn is_built(rt: &impl Abort, built_example: &BuiltExample) -> bool {
    match &built_example.validated {
        Validated::Document(document) => built_against(&built_example.schema.0, document),
        _ => panic!(rt; "a document was expected"),
    }
}

#[test]
fn documents_are_built_against_their_schemas_or_not(rt: HostRuntime) {
    for (id, expected) in BUILT {
        let built_example = build_example(rt.alloc(), find(id).expect(&rt, "an example"));
        let built_example = built_example.expect(&rt, "an example");
        let found = is_built(&rt, &built_example);
        drop(built_example);
        assert_eq!(rt; found, *expected, "{id}");
    }
}
