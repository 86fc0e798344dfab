ghost use Rattle.std.specs.Prelude.{IsSome};
ghost use Rattle.graphql_diagnostics.specs.Diagnostics.{IsDiagnostic};
ghost use Rattle.graphql_diagnostics.specs.Reports.{Checks};
ghost use Rattle.graphql_specification.specs.SchemaDefinitions.{RootsReport, SchemaDefinitionReport, RootsHold, SchemaDefinitionHolds};

use crate::roots::{Root, validate_root};
use graphql_diagnostics::{Details, DiagnosticData, DiagnosticList};
use graphql_documents::documents::Schema;
use graphql_field_definitions::definition_directives::validate_component_directives;
use graphql_nodes::{DirectiveLocation, ValidationError};

/// Validates what a schema says of itself: that it has a query root, its roots in order, and the directives
/// on it. The only error is a failed allocation.
///
/// Specification: 3.3 Schema; 3.3.1 Root Operation Types.
pub fn validate_schema_definition(
    diagnostics: &mut DiagnosticList,
    schema: &Schema,
) -> Result<(), ValidationError>
    ensures { Checks result (SchemaDefinitionHolds schema.now schema.now.schema_definition.value.value)
        (IsDiagnostic (SchemaDefinitionReport schema.now schema.now.schema_definition)) diagnostics.old diagnostics.new }
{
    validate_query_root(diagnostics, schema)?;
    validate_root_operation_definitions(diagnostics, schema)?;
    validate_component_directives(
        diagnostics,
        schema,
        &schema.schema_definition.value.directives,
        DirectiveLocation::Schema,
    )
}

/// Reports a schema without a query root.
///
/// Specification: 3.3.1 Root Operation Types.
fn validate_query_root(
    diagnostics: &mut DiagnosticList,
    schema: &Schema,
) -> Result<(), ValidationError>
    ensures { Checks result (IsSome schema.now.schema_definition.value.value.query)
        (IsDiagnostic (SchemaDefinitionReport schema.now schema.now.schema_definition)) diagnostics.old diagnostics.new }
{
    if schema.schema_definition.value.query.is_some() {
        return Ok(());
    }
    diagnostics.push(
        schema.schema_definition.location,
        Details::Diagnostic(DiagnosticData::QueryRootOperationType),
    )
}

/// Validates the roots of a schema, in order: each is a defined object type, and none is an earlier one. The
/// only error is a failed allocation.
///
/// Specification: 3.3.1 Root Operation Types.
pub fn validate_root_operation_definitions(
    diagnostics: &mut DiagnosticList,
    schema: &Schema,
) -> Result<(), ValidationError>
    ensures { Checks result (RootsHold schema.now schema.now.schema_definition.value.value)
        (IsDiagnostic (RootsReport schema.now schema.now.schema_definition.value.value)) diagnostics.old diagnostics.new }
{
    let mut seen: Vec<Root> = Vec::new(diagnostics.allocator());
    for root in schema.iter_root_operations() {
        validate_root(diagnostics, schema, root, &seen)?;
        seen.push(root)?;
    }
    Ok(())
}
