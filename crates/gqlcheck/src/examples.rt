use crate::faults::Fault;
use graphql_diagnostics::DiagnosticList;
use graphql_examples::{BuiltExample, Example, Subject, Validated, build_example};
use graphql_nodes::ValidationError;
use graphql_schemas::schema::validate_schema;
use graphql_validation::entry::{
    validate_executable_document, validate_field_set, validate_standalone_executable,
};
use std::alloc::Global;

/// Builds the example. If its types are to be retained again, this retains them once.
pub fn build(alloc: Global, example: &Example) -> Result<BuiltExample, Fault> {
    let mut built_example = build_example(alloc, example)?;
    if !matches!(example.subject, Subject::TypesRetainedAgain) {
        return Ok(built_example);
    }
    let mut unseen = DiagnosticList::new(alloc);
    let retained = validate_schema(&mut unseen, &mut built_example.schema.0);
    drop(unseen);
    match retained {
        Ok(()) => Ok(built_example),
        Err(error) => {
            drop(built_example);
            Err(Fault::from(error))
        }
    }
}

/// Validates the example by the call that its subject names.
pub fn validate(
    diagnostics: &mut DiagnosticList,
    built_example: &mut BuiltExample,
) -> Result<(), ValidationError> {
    let schema = &mut built_example.schema;
    match &built_example.validated {
        Validated::FieldSet(set) => validate_field_set(diagnostics, schema, set),
        Validated::Document(document) => {
            validate_executable_document(diagnostics, &schema.0, document)
        }
        Validated::Standalone(document) => validate_standalone_executable(diagnostics, document),
        Validated::Schema => validate_schema(diagnostics, &mut schema.0),
    }
}
