//! The default values of arguments and input fields.

ghost use Rattle.std.specs.Prelude.{flat_map, map};
ghost use Rattle.graphql_specification.specs.DefaultValues.{DefaultValueHolds, DefaultValuesHold, DefaultValuesReport, inputs_of_type};
ghost use Rattle.graphql_diagnostics.specs.Diagnostics.{IsDiagnostic};
ghost use Rattle.graphql_diagnostics.specs.Reports.{Checks};
ghost use Rattle.graphql_schemas.specs.DefaultValueReports.{ChecksDefaults, DefaultValueReport};

use graphql_diagnostics::DiagnosticList;
use graphql_documents::documents::{
    Component, ExtendedType, FieldDefinition, InputValueDefinition, Schema,
};
use graphql_hash_seeds::HashSeed;
use graphql_nodes::{Name, Node, ValidationError};
use graphql_values::value::value_of_correct_type;
use indexmap::IndexMap;

/// Validates the default values of a schema whose types are retained: those of the arguments of directives,
/// and then those of each type's arguments and input fields. Nothing is said of one whose type is no defined
/// input type. The only error is a failed allocation.
///
/// Specification: 3.6.1 Field Arguments; 3.10 Input Objects.
pub fn validate_default_values(
    diagnostics: &mut DiagnosticList,
    schema: &Schema,
) -> Result<(), ValidationError>
    ensures { Checks result (DefaultValuesHold schema.now) (IsDiagnostic (DefaultValuesReport schema.now)) diagnostics.old diagnostics.new }
{
    validate_directives(diagnostics, schema)?;
    validate_types(diagnostics, schema)
}

fn validate_directives(
    diagnostics: &mut DiagnosticList,
    schema: &Schema,
) -> Result<(), ValidationError>
    ensures { ChecksDefaults result schema.now (flat_map (λ entry. entry.1.value.value.arguments.items) schema.now.directive_definitions.entries) diagnostics.old diagnostics.new }
{
    for (_, definition) in &schema.directive_definitions {
        validate_arguments(diagnostics, schema, &definition.value.arguments)?;
    }
    Ok(())
}

fn validate_types(diagnostics: &mut DiagnosticList, schema: &Schema) -> Result<(), ValidationError>
    ensures { ChecksDefaults result schema.now (flat_map (λ entry. inputs_of_type entry.1) schema.now.types.entries) diagnostics.old diagnostics.new }
{
    for (_, definition) in &schema.types {
        validate_type(diagnostics, schema, definition)?;
    }
    Ok(())
}

fn validate_type(
    diagnostics: &mut DiagnosticList,
    schema: &Schema,
    definition: &ExtendedType,
) -> Result<(), ValidationError>
    ensures { ChecksDefaults result schema.now (inputs_of_type definition.now) diagnostics.old diagnostics.new }
{
    match definition {
        ExtendedType::Object(object) => {
            validate_fields(diagnostics, schema, &object.value.fields)
        }
        ExtendedType::Interface(interface) => {
            validate_fields(diagnostics, schema, &interface.value.fields)
        }
        ExtendedType::InputObject(input_object) => {
            validate_input_fields(diagnostics, schema, &input_object.value.fields)
        }
        _ => Ok(()),
    }
}

fn validate_fields(
    diagnostics: &mut DiagnosticList,
    schema: &Schema,
    fields: &IndexMap<Name, Component<FieldDefinition>, HashSeed>,
) -> Result<(), ValidationError>
    ensures { ChecksDefaults result schema.now (flat_map (λ entry. entry.1.node.value.value.arguments.items) fields.now.entries) diagnostics.old diagnostics.new }
{
    for (_, field) in fields {
        validate_arguments(diagnostics, schema, &field.node.value.arguments)?;
    }
    Ok(())
}

fn validate_arguments(
    diagnostics: &mut DiagnosticList,
    schema: &Schema,
    arguments: &[Node<InputValueDefinition>],
) -> Result<(), ValidationError>
    ensures { ChecksDefaults result schema.now arguments.now diagnostics.old diagnostics.new }
{
    for argument in arguments {
        validate_default_value(diagnostics, schema, argument)?;
    }
    Ok(())
}

fn validate_input_fields(
    diagnostics: &mut DiagnosticList,
    schema: &Schema,
    fields: &IndexMap<Name, Component<InputValueDefinition>, HashSeed>,
) -> Result<(), ValidationError>
    ensures { ChecksDefaults result schema.now (map (λ entry. entry.1.node) fields.now.entries) diagnostics.old diagnostics.new }
{
    for (_, field) in fields {
        validate_default_value(diagnostics, schema, &field.node)?;
    }
    Ok(())
}

/// Validates the default value of an argument or input field, if it has one and its type is a defined input
/// type.
fn validate_default_value(
    diagnostics: &mut DiagnosticList,
    schema: &Schema,
    definition: &Node<InputValueDefinition>,
) -> Result<(), ValidationError>
    ensures { Checks result (DefaultValueHolds schema.now definition.now.value.value) (IsDiagnostic (DefaultValueReport schema.now definition.now.value.value)) diagnostics.old diagnostics.new }
{
    let definition = &*definition.value;
    let Some(value) = &definition.default_value else {
        return Ok(());
    };
    let Some(named) = schema.types.get(definition.ty.value.inner_named_type()) else {
        return Ok(());
    };
    if !named.is_input_type() {
        return Ok(());
    }
    value_of_correct_type(diagnostics, schema, &definition.ty, value, &[])
}
