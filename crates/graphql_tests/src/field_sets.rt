use super::fixtures::{reports, schema_of};
use graphql_diagnostics::DiagnosticList;
use graphql_examples::{Example, Subject, find};
use graphql_notation::build::field_set;
use graphql_validation::entry::validate_field_set;
use std::alloc::Global;
use std::process::Abort;

/// The examples whose selections can be in a field set.
const FIELD_SETS: &[&str] = &[
    "1a", "1b", "1c", "17a", "17b", "17c", "17d", "17e", "18a", "18b", "18c", "19a", "19b", "19c",
];

/// The selections of the example, as a field set on `Query`, bring the example's lines.
fn gives_its_lines(rt: &impl Abort, alloc: Global, example: &Example) {
    let (Subject::FieldSet(selections) | Subject::Document(selections)) = example.subject else {
        panic!(rt; "{} has no selections", example.id);
    };
    let schema = schema_of(rt, alloc, example.schema);
    let set = field_set(alloc, &schema.0, "Query", selections).expect(rt, "a field set");
    let mut diagnostics = DiagnosticList::new(alloc);
    validate_field_set(&mut diagnostics, &schema, &set).expect(rt, "memory for reports");
    reports(rt, alloc, &diagnostics, example.lines);
}

#[test]
fn field_sets_give_their_lines(rt: HostRuntime) {
    for id in FIELD_SETS {
        gives_its_lines(&rt, rt.alloc(), find(id).expect(&rt, "an example"));
    }
}
