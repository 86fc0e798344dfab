ghost use Rattle.std.specs.Prelude.{◌≢◌, [], All};
ghost use Rattle.graphql_diagnostics.specs.Diagnostics.{IsDiagnostic};
ghost use Rattle.graphql_diagnostics.specs.Reports.{Checks};
ghost use Rattle.graphql_specification.specs.Types.{EnumHolds, EnumValueHolds, EnumValueReport, TypeReport};
ghost use Rattle.graphql_documents.specs.declared.documents.schemas.ExtendedType.TheVariants as types;
ghost use Rattle.graphql_documents.specs.declared.documents.schemas.Schema.{Schema};

use crate::extensions::{enum_extensions, locations_of};
use graphql_diagnostics::{Details, DiagnosticData, DiagnosticList};
use graphql_documents::documents::{EnumType, EnumValueDefinition, Schema};
use graphql_field_definitions::definition_directives::{
    validate_component_directives, validate_definition_directives,
};
use graphql_field_definitions::names::validate_type_system_name;
use graphql_nodes::{DirectiveLocation, Node, ValidationError};

/// Validates an enum: the directives on it, its values, and that there is one. The only error is a failed
/// allocation.
///
/// Specification: 3.9 Enums.
pub fn validate_enum_definition(
    diagnostics: &mut DiagnosticList,
    schema: &Schema,
    enum_type: &Node<EnumType>,
) -> Result<(), ValidationError>
    ensures { Checks result (EnumHolds schema.now enum_type.now)
        (IsDiagnostic (TypeReport schema.now (types.Enum enum_type.now))) diagnostics.old diagnostics.new }
{
    validate_component_directives(
        diagnostics,
        schema,
        &enum_type.value.directives,
        DirectiveLocation::Enum,
    )?;
    validate_values(diagnostics, schema, enum_type)?;
    validate_is_not_empty(diagnostics, enum_type)
}

/// Validates the values of an enum, in order.
fn validate_values(
    diagnostics: &mut DiagnosticList,
    schema: &Schema,
    enum_type: &Node<EnumType>,
) -> Result<(), ValidationError>
    ensures { Checks result (All (λ entry. EnumValueHolds schema.now entry.1.node.value.value) enum_type.now.value.value.values.entries)
        (IsDiagnostic (TypeReport schema.now (types.Enum enum_type.now))) diagnostics.old diagnostics.new }
{
    for (_, enum_value) in &enum_type.value.values {
        validate_enum_value(diagnostics, schema, &enum_value.node)?;
    }
    Ok(())
}

/// Validates a value of an enum: its name, and the directives on it. The only error is a failed allocation.
///
/// Specification: 3.9 Enums.
pub fn validate_enum_value(
    diagnostics: &mut DiagnosticList,
    schema: &Schema,
    enum_value: &Node<EnumValueDefinition>,
) -> Result<(), ValidationError>
    ensures { Checks result (EnumValueHolds schema.now enum_value.now.value.value)
        (IsDiagnostic (EnumValueReport schema.now enum_value.now)) diagnostics.old diagnostics.new }
{
    validate_type_system_name(diagnostics, &enum_value.value.value, "an enum value")?;
    validate_definition_directives(
        diagnostics,
        schema,
        &enum_value.value.directives,
        DirectiveLocation::EnumValue,
    )
}

/// Reports an enum without values.
fn validate_is_not_empty(
    diagnostics: &mut DiagnosticList,
    enum_type: &Node<EnumType>,
) -> Result<(), ValidationError>
    ensures { (schema : Schema) → Checks result (enum_type.now.value.value.values.entries ≢ [])
        (IsDiagnostic (TypeReport schema (types.Enum enum_type.now))) diagnostics.old diagnostics.new }
{
    if !enum_type.value.values.is_empty() {
        return Ok(());
    }
    let alloc = diagnostics.allocator();
    let type_name = enum_type.value.name.clone()?;
    let extensions = enum_extensions(alloc, enum_type)?;
    let extensions_locations = locations_of(alloc, &extensions)?;
    diagnostics.push(
        enum_type.location,
        Details::Diagnostic(DiagnosticData::EmptyValueSet {
            type_name,
            type_location: enum_type.location,
            extensions_locations,
        }),
    )
}
