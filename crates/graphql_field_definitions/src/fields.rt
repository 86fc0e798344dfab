ghost use Rattle.std.specs.Prelude.{◌≡◌, ◌∷◌, [], IsFalse, OnOk, Some, flat_map};
ghost use Rattle.graphql_diagnostics.specs.Diagnostics.{IsDiagnostic};
ghost use Rattle.graphql_specification.specs.FieldDefinitions.{FieldDefinitionReport, FieldDefinitionsReport, FieldTypeReport, FieldDefinitionHolds, FieldDefinitionsHold};
ghost use Rattle.graphql_diagnostics.specs.Reports.{Checks};
ghost use Rattle.graphql_specification.specs.InputValueDefinitions.{NamesType};
ghost use Rattle.graphql_documents.specs.Schemas.{is_output_type, type_definition};
ghost use Rattle.graphql_specification.specs.BuiltInScalars.{argument_types, field_types};
ghost use Rattle.graphql_documents.specs.TypeReferences.{inner_named_type};
ghost use Rattle.graphql_field_definitions.specs.BuiltInScalarUses.{Keeps, Records};
ghost use Rattle.graphql_field_definitions.specs.FieldDefinitionSteps.{TypedFieldReport, TypedFieldHolds};

use crate::built_in_scalars::BuiltInScalars;
use crate::definition_directives::validate_definition_directives;
use crate::input_values::{each_argument, validate_argument_definitions};
use crate::names::validate_type_system_name;
use crate::referred_types::report_undefined_type;
use graphql_diagnostics::{Details, DiagnosticData, DiagnosticList};
use graphql_documents::documents::{Component, ExtendedType, FieldDefinition, Schema};
use graphql_hash_seeds::HashSeed;
use graphql_nodes::{DirectiveLocation, Name, Node, ValidationError};
use indexmap::IndexMap;

/// Validates a field of an object or interface, but not its type: its name, the directives on it, and its
/// arguments. The only error is a failed allocation.
///
/// Specification: 3.6 Objects; 3.6.1 Field Arguments.
pub fn validate_field_definition(
    diagnostics: &mut DiagnosticList,
    schema: &Schema,
    built_in_scalars: &mut BuiltInScalars,
    field: &Node<FieldDefinition>,
) -> Result<(), ValidationError>
    ensures checks { Checks result (FieldDefinitionHolds schema.now field.now.value.value)
        (IsDiagnostic (FieldDefinitionReport schema.now field.now)) diagnostics.old diagnostics.new }
    ensures records { OnOk result (Records built_in_scalars.old built_in_scalars.new (argument_types field.now.value.value.arguments.items)) }
    ensures keeps { Keeps built_in_scalars.old built_in_scalars.new }
{
    let arguments = each_argument(diagnostics.allocator(), &field.value.arguments)?;
    validate_type_system_name(diagnostics, &field.value.name, "a field")?;
    validate_definition_directives(
        diagnostics,
        schema,
        &field.value.directives,
        DirectiveLocation::FieldDefinition,
    )?;
    validate_argument_definitions(
        diagnostics,
        schema,
        built_in_scalars,
        &arguments,
        DirectiveLocation::ArgumentDefinition,
    )
}

/// Validates the fields of an object or interface, each with its type, which must be a defined output type.
/// Types that they refer to are recorded. The only error is a failed allocation.
///
/// Specification: 3.6 Objects.
pub fn validate_field_definitions(
    diagnostics: &mut DiagnosticList,
    schema: &Schema,
    built_in_scalars: &mut BuiltInScalars,
    fields: &IndexMap<Name, Component<FieldDefinition>, HashSeed>,
) -> Result<(), ValidationError>
    ensures checks { Checks result (FieldDefinitionsHold schema.now fields.now.entries)
        (IsDiagnostic (FieldDefinitionsReport schema.now fields.now.entries)) diagnostics.old diagnostics.new }
    ensures records { OnOk result (Records built_in_scalars.old built_in_scalars.new (flat_map (λ entry. field_types entry.1.node.value.value) fields.now.entries)) }
    ensures keeps { Keeps built_in_scalars.old built_in_scalars.new }
{
    for (_, field) in fields {
        validate_typed_field(diagnostics, schema, built_in_scalars, &field.node)?;
    }
    Ok(())
}

/// Validates a field of an object or interface, and then its type.
fn validate_typed_field(
    diagnostics: &mut DiagnosticList,
    schema: &Schema,
    built_in_scalars: &mut BuiltInScalars,
    field: &Node<FieldDefinition>,
) -> Result<(), ValidationError>
    ensures checks { Checks result (TypedFieldHolds schema.now field.now)
        (IsDiagnostic (TypedFieldReport schema.now field.now)) diagnostics.old diagnostics.new }
    ensures records { OnOk result (Records built_in_scalars.old built_in_scalars.new (field_types field.now.value.value)) }
    ensures keeps { Keeps built_in_scalars.old built_in_scalars.new }
{
    validate_field_definition(diagnostics, schema, built_in_scalars, field)?;
    validate_output_type(diagnostics, schema, built_in_scalars, field)
}

/// Validates that the type of a field is an output type that the schema defines, or a built-in scalar.
///
/// Specification: 3.4.2 Input and Output Types.
fn validate_output_type(
    diagnostics: &mut DiagnosticList,
    schema: &Schema,
    built_in_scalars: &mut BuiltInScalars,
    field: &Node<FieldDefinition>,
) -> Result<(), ValidationError>
    ensures checks { Checks result (NamesType schema.now is_output_type (inner_named_type field.now.value.value.ty))
        (IsDiagnostic (FieldTypeReport schema.now field.now)) diagnostics.old diagnostics.new }
    ensures records { Records built_in_scalars.old built_in_scalars.new (inner_named_type field.now.value.value.ty ∷ []) }
{
    let name = field.value.ty.inner_named_type();
    let is_built_in = built_in_scalars.record_type_ref(schema, name);
    match schema.types.get(name) {
        Some(definition) if definition.is_output_type() => Ok(()),
        Some(definition) => report_no_output_type(diagnostics, definition, field),
        None if is_built_in => Ok(()),
        None => report_undefined_type(diagnostics, name),
    }
}

fn report_no_output_type(
    diagnostics: &mut DiagnosticList,
    definition: &ExtendedType,
    field: &Node<FieldDefinition>,
) -> Result<(), ValidationError>
    requires { IsFalse (is_output_type definition.now) }
    ensures { (schema : Schema) → type_definition schema (inner_named_type field.now.value.value.ty) ≡ Some definition.now →
        Checks result ⊥ (IsDiagnostic (FieldTypeReport schema field.now)) diagnostics.old diagnostics.new }
{
    let name = field.value.name.clone()?;
    diagnostics.push(
        field.location,
        Details::Diagnostic(DiagnosticData::OutputType {
            name,
            describe_type: definition.describe(),
            type_location: field.value.ty.inner_named_type().location(),
        }),
    )
}
