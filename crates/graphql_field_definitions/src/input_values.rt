ghost use Rattle.std.specs.Prelude.{◌≡◌, ◌∷◌, [], All, IfOk, IsFalse, OnOk, Some, map};
ghost use Rattle.graphql_diagnostics.specs.Diagnostics.{IsDiagnostic};
ghost use Rattle.graphql_specification.specs.InputValueDefinitions.{ArgumentDefinitionsReport, InputValueReport, InputValuesReport, ArgumentDefinitionsHold, InputValueDefinitionHolds, NamesType};
ghost use Rattle.graphql_diagnostics.specs.Reports.{Checks};
ghost use Rattle.graphql_documents.specs.Schemas.{is_input_type, type_definition};
ghost use Rattle.graphql_specification.specs.BuiltInScalars.{argument_types};
ghost use Rattle.graphql_documents.specs.TypeReferences.{inner_named_type};
ghost use Rattle.graphql_field_definitions.specs.BuiltInScalarUses.{Keeps, Records};
ghost use Rattle.graphql_field_definitions.specs.FieldDefinitionSteps.{InputTypeReport};

use crate::argument_repetitions::validate_distinct_arguments;
use crate::built_in_scalars::BuiltInScalars;
use crate::definition_directives::validate_definition_directives;
use crate::names::validate_type_system_name;
use crate::referred_types::report_undefined_type;
use graphql_diagnostics::{Details, DiagnosticData, DiagnosticList};
use graphql_documents::documents::{ExtendedType, InputValueDefinition, Schema};
use graphql_nodes::{DirectiveLocation, Node, ValidationError};
use std::alloc::Global;

/// Validates arguments or input fields, each by itself: its name, the directives on it, which are at this
/// location, and that its type is a defined input type. The diagnostic of a name says what has it. Types that
/// they refer to are recorded. The only error is a failed allocation.
///
/// Specification: 3.6.1 Field Arguments; 3.10 Input Objects.
pub fn validate_input_value_definitions(
    diagnostics: &mut DiagnosticList,
    schema: &Schema,
    built_in_scalars: &mut BuiltInScalars,
    input_values: &[&Node<InputValueDefinition>],
    location: DirectiveLocation,
    describe: &'static str,
) -> Result<(), ValidationError>
    ensures checks { Checks result
        (All (λ d. InputValueDefinitionHolds schema.now location d.value.value) (map (λ d. d.now) input_values.now))
        (IsDiagnostic (InputValuesReport schema.now location describe.now (map (λ d. d.now) input_values.now)))
        diagnostics.old diagnostics.new }
    ensures records { OnOk result (Records built_in_scalars.old built_in_scalars.new (argument_types (map (λ d. d.now) input_values.now))) }
    ensures keeps { Keeps built_in_scalars.old built_in_scalars.new }
{
    for input_value in input_values {
        validate_input_value(
            diagnostics,
            schema,
            built_in_scalars,
            input_value,
            location,
            describe,
        )?;
    }
    Ok(())
}

fn validate_input_value(
    diagnostics: &mut DiagnosticList,
    schema: &Schema,
    built_in_scalars: &mut BuiltInScalars,
    input_value: &Node<InputValueDefinition>,
    location: DirectiveLocation,
    describe: &'static str,
) -> Result<(), ValidationError>
    ensures checks { Checks result (InputValueDefinitionHolds schema.now location input_value.now.value.value)
        (IsDiagnostic (InputValueReport schema.now location describe.now input_value.now)) diagnostics.old diagnostics.new }
    ensures records { OnOk result (Records built_in_scalars.old built_in_scalars.new (inner_named_type input_value.now.value.value.ty.value.value ∷ [])) }
    ensures keeps { Keeps built_in_scalars.old built_in_scalars.new }
{
    validate_type_system_name(diagnostics, &input_value.value.name, describe)?;
    validate_definition_directives(diagnostics, schema, &input_value.value.directives, location)?;
    validate_input_type(diagnostics, schema, built_in_scalars, input_value)
}

/// Validates that the type of an argument or input field is an input type that the schema defines, or a
/// built-in scalar.
///
/// Specification: 3.4.2 Input and Output Types.
fn validate_input_type(
    diagnostics: &mut DiagnosticList,
    schema: &Schema,
    built_in_scalars: &mut BuiltInScalars,
    input_value: &Node<InputValueDefinition>,
) -> Result<(), ValidationError>
    ensures checks { Checks result (NamesType schema.now is_input_type (inner_named_type input_value.now.value.value.ty.value.value))
        (IsDiagnostic (InputTypeReport schema.now input_value.now)) diagnostics.old diagnostics.new }
    ensures records { Records built_in_scalars.old built_in_scalars.new (inner_named_type input_value.now.value.value.ty.value.value ∷ []) }
{
    let name = input_value.value.ty.value.inner_named_type();
    let is_built_in = built_in_scalars.record_type_ref(schema, name);
    match schema.types.get(name) {
        Some(definition) if definition.is_input_type() => Ok(()),
        Some(definition) => report_no_input_type(diagnostics, definition, input_value),
        None if is_built_in => Ok(()),
        None => report_undefined_type(diagnostics, name),
    }
}

fn report_no_input_type(
    diagnostics: &mut DiagnosticList,
    definition: &ExtendedType,
    input_value: &Node<InputValueDefinition>,
) -> Result<(), ValidationError>
    requires { IsFalse (is_input_type definition.now) }
    ensures { (schema : Schema) → type_definition schema (inner_named_type input_value.now.value.value.ty.value.value) ≡ Some definition.now →
        Checks result ⊥ (IsDiagnostic (InputTypeReport schema input_value.now)) diagnostics.old diagnostics.new }
{
    let name = input_value.value.name.clone()?;
    diagnostics.push(
        input_value.location,
        Details::Diagnostic(DiagnosticData::InputType {
            name,
            describe_type: definition.describe(),
            type_location: input_value.value.ty.location,
        }),
    )
}

/// Validates the arguments of a field or of a directive: each by itself, and then that their names are
/// distinct; the first definition of a name is reported, for each repetition. The only error is a failed
/// allocation.
///
/// Specification: 3.6.1 Field Arguments; 3.13 Directives.
pub fn validate_argument_definitions(
    diagnostics: &mut DiagnosticList,
    schema: &Schema,
    built_in_scalars: &mut BuiltInScalars,
    arguments: &[&Node<InputValueDefinition>],
    location: DirectiveLocation,
) -> Result<(), ValidationError>
    ensures checks { Checks result
        (ArgumentDefinitionsHold schema.now location (map (λ d. d.now) arguments.now))
        (IsDiagnostic (ArgumentDefinitionsReport schema.now location (map (λ d. d.now) arguments.now)))
        diagnostics.old diagnostics.new }
    ensures records { OnOk result (Records built_in_scalars.old built_in_scalars.new (argument_types (map (λ d. d.now) arguments.now))) }
    ensures keeps { Keeps built_in_scalars.old built_in_scalars.new }
{
    validate_input_value_definitions(
        diagnostics,
        schema,
        built_in_scalars,
        arguments,
        location,
        "an argument",
    )?;
    validate_distinct_arguments(diagnostics, arguments)
}

/// The arguments, each as a reference.
pub fn each_argument<'a>(
    alloc: Global,
    arguments: &'a [Node<InputValueDefinition>],
) -> Result<Vec<&'a Node<InputValueDefinition>>, ValidationError>
    ensures { IfOk result (λ each. map (λ d. d.now) each.items ≡ arguments.now) }
{
    let mut each = Vec::new(alloc);
    for argument in arguments {
        each.push(argument)?;
    }
    Ok(each)
}
