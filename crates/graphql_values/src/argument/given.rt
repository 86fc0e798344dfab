ghost use Rattle.std.specs.Prelude.{◌≡◌, All, Contains, List};
ghost use Rattle.graphql_specification.specs.Arguments.{IsDefined};
ghost use Rattle.graphql_diagnostics.specs.Diagnostics.{IsDiagnostic};
ghost use Rattle.graphql_diagnostics.specs.Reports.{Checks};
ghost use Rattle.graphql_documents.specs.declared.documents.definitions.VariableDefinition.{VariableDefinition};
ghost use Rattle.graphql_nodes.specs.declared.nodes.Node.{Node};
ghost use Rattle.graphql_documents.specs.declared.documents.schemas.Schema.{Schema};
ghost use Rattle.graphql_values.specs.GivenArguments.{GivenArgumentHolds, GivenArgumentReport};

use super::owners::GivenArguments;
use crate::value::check_value_of_type;
use graphql_diagnostics::{Details, DiagnosticData, DiagnosticList};
use graphql_documents::documents::{Argument, InputValueDefinition, Schema};
use graphql_name_tables::ByName;
use graphql_nodes::{Node, ValidationError};
use graphql_variables::{VariablesByName, check_variable_usage};

/// Reports for each argument, in order, that no definition has its name, or that it is a variable that is not
/// allowed there, or else what its value breaks. The only error is a failed allocation.
///
/// Specification: 5.4.1 Argument Names; 5.6.1 Values of Correct Type; 5.8.5 All Variable Usages Are
/// Allowed.
pub fn validate_given_arguments(
    diagnostics: &mut DiagnosticList,
    schema: &Schema,
    arguments: &GivenArguments,
    variables: &VariablesByName,
) -> Result<(), ValidationError>
    ensures { Checks result
        (All (GivenArgumentHolds schema.now variables.now arguments.now.definitions.now) arguments.now.given.now)
        (IsDiagnostic (GivenArgumentReport schema.now variables.now arguments.now)) diagnostics.old diagnostics.new }
{
    if arguments.given.is_empty() {
        return Ok(());
    }
    let definitions = ByName::new(
        diagnostics.allocator(),
        diagnostics.hash_seed(),
        arguments.definitions,
        arguments.given.len(),
    )?;
    for argument in arguments.given {
        validate_given_argument(
            diagnostics,
            schema,
            arguments,
            &definitions,
            argument,
            variables,
        )?;
    }
    Ok(())
}

/// Reports that no definition has the name of this argument, or that it is a variable that is not allowed
/// there, or else what its value breaks. `definitions` finds the definition by its name.
fn validate_given_argument(
    diagnostics: &mut DiagnosticList,
    schema: &Schema,
    arguments: &GivenArguments,
    definitions: &ByName<Node<InputValueDefinition>>,
    argument: &Node<Argument>,
    variables: &VariablesByName,
) -> Result<(), ValidationError>
    requires definitions { definitions.now ≡ arguments.now.definitions.now }
    requires given { Contains arguments.now.given.now argument.now }
    ensures { Checks result
        (GivenArgumentHolds schema.now variables.now arguments.now.definitions.now argument.now)
        (IsDiagnostic (GivenArgumentReport schema.now variables.now arguments.now)) diagnostics.old diagnostics.new }
{
    let Some(definition) = definitions.find(&argument.value.name) else {
        return report_undefined_argument(diagnostics, arguments, argument);
    };
    if check_variable_usage(diagnostics, definition, variables, argument)? {
        let ty = &definition.value.ty;
        check_value_of_type(diagnostics, schema, ty, &argument.value.value, variables)?;
    }
    Ok(())
}

fn report_undefined_argument(
    diagnostics: &mut DiagnosticList,
    arguments: &GivenArguments,
    argument: &Node<Argument>,
) -> Result<(), ValidationError>
    requires given { Contains arguments.now.given.now argument.now }
    requires undefined { ¬ IsDefined arguments.now.definitions.now argument.now }
    ensures { (schema : Schema) (variables : List (Node VariableDefinition)) →
        Checks result ⊥ (IsDiagnostic (GivenArgumentReport schema variables arguments.now)) diagnostics.old diagnostics.new }
{
    let coordinate = arguments.owner.coordinate(diagnostics.allocator())?;
    let name = argument.value.name.clone()?;
    diagnostics.push(
        argument.location,
        Details::Diagnostic(DiagnosticData::UndefinedArgument {
            name,
            coordinate,
            definition_location: arguments.definition_location,
        }),
    )
}
