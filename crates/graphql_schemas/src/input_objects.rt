ghost use Rattle.std.specs.Prelude.{◌≡◌, ◌≢◌, [], All, IfOk, OnOk, map};
ghost use Rattle.graphql_diagnostics.specs.Diagnostics.{IsDiagnostic};
ghost use Rattle.graphql_specification.specs.InputObjectCycles.{InputObjectLimit};
ghost use Rattle.graphql_diagnostics.specs.Reports.{Checks, ChecksWithin};
ghost use Rattle.graphql_specification.specs.Types.{InputObjectHolds, TypeReport};
ghost use Rattle.graphql_specification.specs.InputValueDefinitions.{InputValueDefinitionHolds};
ghost use Rattle.graphql_specification.specs.BuiltInScalars.{types_referred_by};
ghost use Rattle.graphql_nodes.specs.declared.directive_locations.DirectiveLocation.TheVariants as at;
ghost use Rattle.graphql_documents.specs.declared.documents.schemas.ExtendedType.TheVariants as types;
ghost use Rattle.graphql_documents.specs.declared.documents.schemas.Schema.{Schema};
ghost use Rattle.graphql_field_definitions.specs.BuiltInScalarUses.{Keeps, Records};

use crate::extensions::{input_object_extensions, locations_of};
use graphql_cycles::input_object_levels::{
    InputObjectLevels, validate_input_object_cycles_by_levels,
};
use graphql_diagnostics::{Details, DiagnosticData, DiagnosticList};
use graphql_documents::documents::{Component, InputObjectType, InputValueDefinition, Schema};
use graphql_field_definitions::built_in_scalars::BuiltInScalars;
use graphql_field_definitions::definition_directives::validate_component_directives;
use graphql_field_definitions::input_values::validate_input_value_definitions;
use graphql_hash_seeds::HashSeed;
use graphql_nodes::{DirectiveLocation, Name, Node, ValidationError};
use indexmap::IndexMap;
use std::alloc::Global;

/// Validates an input object: the directives on it, that no chain of required fields leads back to it, its
/// fields, and that there is one. Where such a chain goes through more than 32 input objects before it is
/// known, that is reported instead. Types that it refers to are recorded. The only error is a failed
/// allocation.
///
/// Specification: 3.10 Input Objects.
pub fn validate_input_object_definition(
    diagnostics: &mut DiagnosticList,
    schema: &Schema,
    built_in_scalars: &mut BuiltInScalars,
    input_object: &Node<InputObjectType>,
) -> Result<(), ValidationError>
    ensures checks { ChecksWithin result (InputObjectHolds schema.now input_object.now)
        (IsDiagnostic (TypeReport schema.now (types.InputObject input_object.now)))
        (λ e. InputObjectLimit schema.now input_object.now e.details e.location) diagnostics.old diagnostics.new }
    ensures records { OnOk result (Records built_in_scalars.old built_in_scalars.new (types_referred_by (types.InputObject input_object.now))) }
    ensures keeps { Keeps built_in_scalars.old built_in_scalars.new }
{
    let levels = InputObjectLevels::unknown(diagnostics.allocator(), schema);
    validate_input_object_by_levels(diagnostics, &levels, built_in_scalars, input_object)
}

/// Validates an input object in the schema of the levels: the directives on it, that no chain of required
/// fields leads back to it, its fields, and that there is one. Reports what
/// `validate_input_object_definition` reports, but searches no chain if the level of the input object is
/// known. Types that it refers to are recorded. The only error is a failed allocation.
///
/// Specification: 3.10 Input Objects.
pub(crate) fn validate_input_object_by_levels(
    diagnostics: &mut DiagnosticList,
    levels: &InputObjectLevels<'_>,
    built_in_scalars: &mut BuiltInScalars,
    input_object: &Node<InputObjectType>,
) -> Result<(), ValidationError>
    ensures checks { ChecksWithin result (InputObjectHolds levels.now.schema.now input_object.now)
        (IsDiagnostic (TypeReport levels.now.schema.now (types.InputObject input_object.now)))
        (λ e. InputObjectLimit levels.now.schema.now input_object.now e.details e.location) diagnostics.old diagnostics.new }
    ensures records { OnOk result (Records built_in_scalars.old built_in_scalars.new (types_referred_by (types.InputObject input_object.now))) }
    ensures keeps { Keeps built_in_scalars.old built_in_scalars.new }
{
    validate_component_directives(
        diagnostics,
        levels.schema,
        &input_object.value.directives,
        DirectiveLocation::InputObject,
    )?;
    validate_input_object_cycles_by_levels(diagnostics, levels, input_object)?;
    validate_input_fields(diagnostics, levels.schema, built_in_scalars, input_object)?;
    validate_is_not_empty(diagnostics, input_object)
}

/// Validates the fields of an input object, in order. Types that they refer to are recorded.
fn validate_input_fields(
    diagnostics: &mut DiagnosticList,
    schema: &Schema,
    built_in_scalars: &mut BuiltInScalars,
    input_object: &Node<InputObjectType>,
) -> Result<(), ValidationError>
    ensures checks { Checks result
        (All (λ entry. InputValueDefinitionHolds schema.now at.InputFieldDefinition entry.1.node.value.value) input_object.now.value.value.fields.entries)
        (IsDiagnostic (TypeReport schema.now (types.InputObject input_object.now))) diagnostics.old diagnostics.new }
    ensures records { OnOk result (Records built_in_scalars.old built_in_scalars.new (types_referred_by (types.InputObject input_object.now))) }
    ensures keeps { Keeps built_in_scalars.old built_in_scalars.new }
{
    let fields = field_nodes(diagnostics.allocator(), &input_object.value.fields)?;
    validate_input_value_definitions(
        diagnostics,
        schema,
        built_in_scalars,
        &fields,
        DirectiveLocation::InputFieldDefinition,
        "an input object field",
    )
}

/// The fields, each as a reference, in order.
fn field_nodes(
    alloc: Global,
    fields: &IndexMap<Name, Component<InputValueDefinition>, HashSeed>,
) -> Result<Vec<&Node<InputValueDefinition>>, ValidationError>
    ensures { IfOk result (λ nodes. map (λ d. d.now) nodes.items ≡ map (λ entry. entry.1.node) fields.now.entries) }
{
    let mut nodes = Vec::new(alloc);
    for (_, field) in fields {
        nodes.push(&field.node)?;
    }
    Ok(nodes)
}

/// Reports an input object without fields.
fn validate_is_not_empty(
    diagnostics: &mut DiagnosticList,
    input_object: &Node<InputObjectType>,
) -> Result<(), ValidationError>
    ensures { (schema : Schema) → Checks result (input_object.now.value.value.fields.entries ≢ [])
        (IsDiagnostic (TypeReport schema (types.InputObject input_object.now))) diagnostics.old diagnostics.new }
{
    if !input_object.value.fields.is_empty() {
        return Ok(());
    }
    let alloc = diagnostics.allocator();
    let type_name = input_object.value.name.clone()?;
    let extensions = input_object_extensions(alloc, input_object)?;
    let extensions_locations = locations_of(alloc, &extensions)?;
    diagnostics.push(
        input_object.location,
        Details::Diagnostic(DiagnosticData::EmptyInputValueSet {
            type_name,
            type_location: input_object.location,
            extensions_locations,
        }),
    )
}
