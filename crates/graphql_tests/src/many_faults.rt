use super::fixtures::reports_as_lines;
use graphql_diagnostics::DiagnosticList;
use graphql_examples::{BuiltExample, Example, Validated, build_example, many_faults};
use graphql_nodes::ValidationError;
use graphql_schemas::schema::validate_schema;
use graphql_validation::entry::{
    validate_executable_document, validate_field_set, validate_standalone_executable,
};
use std::alloc::Global;
use std::process::Abort;

/// Validates the example by its call.
fn validate(
    found: &mut DiagnosticList,
    built_example: &mut BuiltExample,
) -> Result<(), ValidationError> {
    let schema = &mut built_example.schema;
    match &built_example.validated {
        Validated::FieldSet(set) => validate_field_set(found, schema, set),
        Validated::Document(document) => validate_executable_document(found, &schema.0, document),
        Validated::Standalone(document) => validate_standalone_executable(found, document),
        Validated::Schema => validate_schema(found, &mut schema.0),
    }
}

/// The example brings its lines, each at its place.
fn gives_its_lines(rt: &impl Abort, alloc: Global, example: &Example) {
    let mut built_example = build_example(alloc, example).expect(rt, "an example");
    let mut found = DiagnosticList::new(alloc);
    validate(&mut found, &mut built_example).expect(rt, "memory for reports");
    drop(built_example);
    reports_as_lines(rt, alloc, &found, example.lines);
}

#[test]
fn each_of_many_faults_is_reported_in_order(rt: HostRuntime) {
    for example in many_faults::examples() {
        gives_its_lines(&rt, rt.alloc(), example);
    }
}
