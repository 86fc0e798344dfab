ghost use Rattle.std.specs.Prelude.{◌≡◌, ◌↔◌, IsTrue, IfOk, List};
ghost use Rattle.graphql_diagnostics.specs.Diagnostics.{IsDiagnostic};
ghost use Rattle.graphql_specification.specs.VariableUsages.{UsageReport, HasNonNullDefault, IsUsageAllowed, IsVariable, UsageHolds};
ghost use Rattle.graphql_diagnostics.specs.Reports.{Checks};
ghost use Rattle.graphql_documents.specs.TypeReferences.{is_assignable, nullable};
ghost use Rattle.graphql_documents.specs.declared.documents.definitions.VariableDefinition.{VariableDefinition};
ghost use Rattle.graphql_nodes.specs.declared.nodes.Node.{Node};

use super::by_name::VariablesByName;
use graphql_diagnostics::{Details, DiagnosticData, DiagnosticList};
use graphql_documents::documents::{
    Argument, InputValueDefinition, Type, Value, VariableDefinition,
};
use graphql_nodes::{Node, ValidationError};

/// Reports an argument that is a defined variable which is not allowed there, by the definition of the
/// argument, and answers whether nothing was reported. The only error is a failed allocation.
///
/// Specification: 5.8.5 All Variable Usages Are Allowed.
pub fn validate_variable_usage(
    diagnostics: &mut DiagnosticList,
    definition: &Node<InputValueDefinition>,
    variables: &[Node<VariableDefinition>],
    argument: &Node<Argument>,
) -> Result<bool, ValidationError>
    ensures answer { IfOk result (λ allowed. IsTrue allowed ↔ UsageHolds variables.now definition.now.value.value argument.now.value.value.value.value.value) }
    ensures checks { Checks result
        (UsageHolds variables.now definition.now.value.value argument.now.value.value.value.value.value)
        (IsDiagnostic (UsageReport variables.now definition.now argument.now)) diagnostics.old diagnostics.new }
{
    let variables = VariablesByName::new(
        diagnostics.allocator(),
        diagnostics.hash_seed(),
        variables,
    )?;
    check_variable_usage(diagnostics, definition, &variables, argument)
}

/// Reports an argument that is a defined variable which is not allowed there, by the definition of the
/// argument, and answers whether nothing was reported. The variable is found by its name. The only error is
/// a failed allocation.
///
/// Specification: 5.8.5 All Variable Usages Are Allowed.
pub fn check_variable_usage(
    diagnostics: &mut DiagnosticList,
    definition: &Node<InputValueDefinition>,
    variables: &VariablesByName,
    argument: &Node<Argument>,
) -> Result<bool, ValidationError>
    ensures answer { IfOk result (λ allowed. IsTrue allowed ↔ UsageHolds variables.now definition.now.value.value argument.now.value.value.value.value.value) }
    ensures checks { Checks result
        (UsageHolds variables.now definition.now.value.value argument.now.value.value.value.value.value)
        (IsDiagnostic (UsageReport variables.now definition.now argument.now)) diagnostics.old diagnostics.new }
{
    let Value::Variable(name) = &*argument.value.value.value else {
        return Ok(true);
    };
    match variables.find(name) {
        Some(variable) if !is_variable_usage_allowed(&variable.value, &definition.value) => {
            report_usage(diagnostics, variable, definition, argument)?;
            Ok(false)
        }
        _ => Ok(true),
    }
}

/// Whether a variable may stand for what has this definition: its type may; or the defined type is non-null,
/// one of the two has a default, which for the variable is not null, and the variable's type may be where
/// null is taken too.
///
/// Specification: 5.8.5 All Variable Usages Are Allowed.
pub fn is_variable_usage_allowed(
    variable: &VariableDefinition,
    definition: &InputValueDefinition,
) -> bool
    ensures { IsTrue result ↔ IsUsageAllowed variable.now definition.now }
{
    let variable_type = &*variable.ty.value;
    let defined_type = &*definition.ty.value;
    if defined_type.is_non_null() && !variable_type.is_non_null() {
        return (has_non_null_default(variable) || definition.default_value.is_some())
            && is_assignable_to_nullable(variable_type, defined_type);
    }
    variable_type.is_assignable_to(defined_type)
}

/// Whether the variable has a default that is not null.
fn has_non_null_default(variable: &VariableDefinition) -> bool
    ensures { IsTrue result ↔ HasNonNullDefault variable.now }
{
    match &variable.default_value {
        Some(value) => !matches!(&*value.value, Value::Null),
        None => false,
    }
}

/// Whether a value of this type may be used where the wanted type, or null, is expected.
fn is_assignable_to_nullable(ty: &Type, wanted: &Type) -> bool
    ensures { result ≡ is_assignable ty.now (nullable wanted.now) }
{
    match (ty, wanted) {
        (
            Type::Named(name) | Type::NonNullNamed(name),
            Type::Named(other) | Type::NonNullNamed(other),
        ) => name == other,
        (
            Type::List(item) | Type::NonNullList(item),
            Type::List(other) | Type::NonNullList(other),
        ) => item.is_assignable_to(other),
        _ => false,
    }
}

fn report_usage(
    diagnostics: &mut DiagnosticList,
    variable: &Node<VariableDefinition>,
    definition: &Node<InputValueDefinition>,
    argument: &Node<Argument>,
) -> Result<(), ValidationError>
    requires disallowed { ¬ IsUsageAllowed variable.now.value.value definition.now.value.value }
    ensures { (variables : List (Node VariableDefinition)) → IsVariable variables argument.now.value.value.value.value.value variable.now →
        Checks result ⊥ (IsDiagnostic (UsageReport variables definition.now argument.now)) diagnostics.old diagnostics.new }
{
    let name = variable.value.name.clone()?;
    let variable_type = (*variable.value.ty.value).clone()?;
    let argument_name = argument.value.name.clone()?;
    let argument_type = (*definition.value.ty.value).clone()?;
    diagnostics.push(
        argument.location,
        Details::Diagnostic(DiagnosticData::DisallowedVariableUsage {
            variable: name,
            variable_type,
            argument: argument_name,
            argument_type,
            variable_location: variable.location,
            argument_location: argument.location,
        }),
    )
}
