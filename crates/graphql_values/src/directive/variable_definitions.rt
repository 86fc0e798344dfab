ghost use Rattle.std.specs.Option.{option_copied};
ghost use Rattle.std.specs.Prelude.{◌≡◌, ◌∷◌, ◌++◌, [], IfOk, IsFalse, List, None, OnOk, Some, map};
ghost use Rattle.graphql_diagnostics.specs.Diagnostics.{IsDiagnostic};
ghost use Rattle.graphql_specification.specs.Directives.{ApplicationsHold};
ghost use Rattle.graphql_diagnostics.specs.Reports.{Checks};
ghost use Rattle.graphql_documents.specs.Schemas.{is_input_type, type_definition};
ghost use Rattle.graphql_documents.specs.TypeReferences.{inner_named_type};
ghost use Rattle.graphql_specification.specs.Variables.{VariablesReport, DefaultHolds, HasInputType, VariableDefinitionsHold};
ghost use Rattle.graphql_documents.specs.Definitions.{variable_named};
ghost use Rattle.graphql_nodes.specs.declared.directive_locations.DirectiveLocation.TheVariants as at;
ghost use Rattle.graphql_documents.specs.declared.documents.definitions.VariableDefinition.{VariableDefinition};
ghost use Rattle.graphql_nodes.specs.declared.nodes.Node.{Node};
ghost use Rattle.graphql_documents.specs.declared.documents.schemas.Schema.{Schema};
ghost use Rattle.graphql_variables.specs.FirstPlaces.{Remembers};
ghost use Rattle.graphql_values.specs.VariableSteps.{ChecksNext, ChecksVariable, FollowsWell, IsNewName, TypeHolds, visited_variable, variable_place_in};

use super::check_each_directive;
use crate::value::value_of_correct_type;
use graphql_diagnostics::{Details, DiagnosticData, DiagnosticList};
use graphql_documents::documents::{ExtendedType, Schema, VariableDefinition};
use graphql_nodes::{DirectiveLocation, Node, SourceSpan, ValidationError};
use graphql_variables::VariablesByName;
use graphql_variables::first_places::{FirstPlaces, first_place};

/// Validates the definitions of the variables of an operation: their directives, their types and
/// defaults where there is a schema, and that their names are distinct.
///
/// Reports come variable by variable: those of its directives, where no variables are known; that its type is
/// not defined or no input type, or what its default breaks; that it repeats a name. The only error is a
/// failed allocation.
///
/// Specification: 5.8.1 Variable Uniqueness; 5.8.2 Variables Are Input Types; 5.6 Values; 5.7
/// Directives.
pub fn validate_variable_definitions(
    diagnostics: &mut DiagnosticList,
    schema: Option<&Schema>,
    variables: &[Node<VariableDefinition>],
) -> Result<(), ValidationError>
    ensures { Checks result (VariableDefinitionsHold (option_copied schema.entry) variables.now)
        (IsDiagnostic (VariablesReport (option_copied schema.entry) variables.now)) diagnostics.old diagnostics.new }
{
    let mut seen = FirstPlaces::with_hasher(diagnostics.allocator(), diagnostics.hash_seed());
    for variable in variables {
        validate_variable_definition(diagnostics, schema, variable, &mut seen)?;
    }
    Ok(())
}

/// Validates the definition of one of the variables, behind those that were visited.
fn validate_variable_definition<'a>(
    diagnostics: &mut DiagnosticList,
    schema: Option<&Schema>,
    variable: &'a Node<VariableDefinition>,
    seen: &mut FirstPlaces<'a>,
) -> Result<(), ValidationError>
    ensures checks { (before : List (Node VariableDefinition)) → Remembers seen.old (map visited_variable before) →
        ChecksNext result (FollowsWell (option_copied schema.entry) before variable.now)
        (option_copied schema.entry) before variable.now diagnostics.old diagnostics.new }
    ensures remembers { OnOk result ((before : List (Node VariableDefinition)) → Remembers seen.old (map visited_variable before) →
        Remembers seen.new (map visited_variable (before ++ variable.now ∷ []))) }
{
    validate_variable_directives(diagnostics, schema, variable)?;
    validate_variable_type(diagnostics, schema, variable)?;
    let first = first_place(seen, &variable.value.name, variable.location)?;
    check_name(diagnostics, variable, first)
}

/// Validates the directives of a variable, where no variables are known.
fn validate_variable_directives(
    diagnostics: &mut DiagnosticList,
    schema: Option<&Schema>,
    variable: &Node<VariableDefinition>,
) -> Result<(), ValidationError>
    ensures { ChecksVariable result
        (ApplicationsHold (option_copied schema.entry) [] at.VariableDefinition variable.now.value.value.directives.items)
        (option_copied schema.entry) variable.now diagnostics.old diagnostics.new }
{
    let variables = VariablesByName::new(diagnostics.allocator(), diagnostics.hash_seed(), &[])?;
    check_each_directive(
        diagnostics,
        schema,
        &variable.value.directives,
        DirectiveLocation::VariableDefinition,
        &variables,
    )
}

/// Validates the type of a variable and its default, where there is a schema.
fn validate_variable_type(
    diagnostics: &mut DiagnosticList,
    schema: Option<&Schema>,
    variable: &Node<VariableDefinition>,
) -> Result<(), ValidationError>
    ensures { ChecksVariable result (TypeHolds (option_copied schema.entry) variable.now.value.value)
        (option_copied schema.entry) variable.now diagnostics.old diagnostics.new }
{
    match schema {
        Some(schema) => validate_type_against(diagnostics, schema, variable),
        None => Ok(()),
    }
}

/// Reports a variable whose type is not defined or no input type, or what its default breaks.
fn validate_type_against(
    diagnostics: &mut DiagnosticList,
    schema: &Schema,
    variable: &Node<VariableDefinition>,
) -> Result<(), ValidationError>
    ensures { ChecksVariable result (HasInputType schema.now variable.now.value.value × DefaultHolds schema.now variable.now.value.value)
        (Some schema.now) variable.now diagnostics.old diagnostics.new }
{
    match schema.types.get(variable.value.ty.value.inner_named_type()) {
        Some(definition) if definition.is_input_type() => {
            validate_default(diagnostics, schema, variable)
        }
        Some(definition) => report_no_input_type(diagnostics, definition, variable),
        None => report_undefined_type(diagnostics, variable),
    }
}

/// Validates the default of a variable, if it has one, where no variables are known.
fn validate_default(
    diagnostics: &mut DiagnosticList,
    schema: &Schema,
    variable: &Node<VariableDefinition>,
) -> Result<(), ValidationError>
    ensures { ChecksVariable result (DefaultHolds schema.now variable.now.value.value)
        (Some schema.now) variable.now diagnostics.old diagnostics.new }
{
    match &variable.value.default_value {
        Some(value) => value_of_correct_type(diagnostics, schema, &variable.value.ty, value, &[]),
        None => Ok(()),
    }
}

fn report_no_input_type(
    diagnostics: &mut DiagnosticList,
    definition: &ExtendedType,
    variable: &Node<VariableDefinition>,
) -> Result<(), ValidationError>
    requires { IsFalse (is_input_type definition.now) }
    ensures { (schema : Schema) → type_definition schema (inner_named_type variable.now.value.value.ty.value.value) ≡ Some definition.now →
        ChecksVariable result ⊥ (Some schema) variable.now diagnostics.old diagnostics.new }
{
    let name = variable.value.name.clone()?;
    let ty = variable.value.ty.clone()?;
    diagnostics.push(
        variable.location,
        Details::Diagnostic(DiagnosticData::VariableInputType {
            name,
            ty,
            describe_type: definition.describe(),
        }),
    )
}

fn report_undefined_type(
    diagnostics: &mut DiagnosticList,
    variable: &Node<VariableDefinition>,
) -> Result<(), ValidationError>
    ensures { (schema : Schema) → type_definition schema (inner_named_type variable.now.value.value.ty.value.value) ≡ None →
        ChecksVariable result ⊥ (Some schema) variable.now diagnostics.old diagnostics.new }
{
    let name = variable.value.ty.value.inner_named_type().clone()?;
    diagnostics.push(
        variable.location,
        Details::Diagnostic(DiagnosticData::UndefinedDefinition { name }),
    )
}

/// Reports a variable that has the name of one before it. The first of them, if there is one, is at `first`.
///
/// Specification: 5.8.1 Variable Uniqueness.
fn check_name(
    diagnostics: &mut DiagnosticList,
    variable: &Node<VariableDefinition>,
    first: Option<Option<SourceSpan>>,
) -> Result<(), ValidationError>
    ensures { (schema : _) (before : List (Node VariableDefinition)) → first ≡ variable_place_in before variable.now.value.value.name →
        ChecksNext result (IsNewName before variable.now) schema before variable.now diagnostics.old diagnostics.new }
{
    match first {
        Some(original) => report_repetition(diagnostics, variable, original),
        None => Ok(()),
    }
}

fn report_repetition(
    diagnostics: &mut DiagnosticList,
    variable: &Node<VariableDefinition>,
    original: Option<SourceSpan>,
) -> Result<(), ValidationError>
    ensures { (schema : _) (before : List (Node VariableDefinition)) (first : Node VariableDefinition) →
        variable_named variable.now.value.value.name before ≡ Some first → original ≡ first.location →
        ChecksNext result ⊥ schema before variable.now diagnostics.old diagnostics.new }
{
    let name = variable.value.name.clone()?;
    diagnostics.push(
        variable.location,
        Details::Diagnostic(DiagnosticData::UniqueVariable {
            name,
            original_definition: original,
            redefined_definition: variable.location,
        }),
    )
}
