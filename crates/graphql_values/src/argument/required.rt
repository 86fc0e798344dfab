ghost use Rattle.std.specs.Prelude.{◌≡◌, ◌↔◌, IsTrue, All, Contains};
ghost use Rattle.graphql_specification.specs.Arguments.{IsProvided, RequiredArgumentIsProvided};
ghost use Rattle.graphql_diagnostics.specs.Diagnostics.{IsDiagnostic};
ghost use Rattle.graphql_diagnostics.specs.Reports.{Checks};
ghost use Rattle.graphql_values.specs.GivenArguments.{MissingArgumentReport};

use super::owners::GivenArguments;
use graphql_diagnostics::{Details, DiagnosticData, DiagnosticList};
use graphql_documents::documents::{Argument, InputValueDefinition, Value};
use graphql_name_tables::ByName;
use graphql_nodes::{Name, Node, ValidationError};

/// Reports each required argument that is not given or is literally null, in order of the definitions, at the
/// field or directive. The only error is a failed allocation.
///
/// Specification: 5.4.2.1 Required Arguments.
pub fn validate_required_arguments(
    diagnostics: &mut DiagnosticList,
    arguments: &GivenArguments,
) -> Result<(), ValidationError>
    ensures { Checks result
        (All (RequiredArgumentIsProvided arguments.now.given.now) arguments.now.definitions.now)
        (IsDiagnostic (MissingArgumentReport arguments.now)) diagnostics.old diagnostics.new }
{
    if arguments.definitions.is_empty() {
        return Ok(());
    }
    let given = ByName::new(
        diagnostics.allocator(),
        diagnostics.hash_seed(),
        arguments.given,
        arguments.definitions.len(),
    )?;
    for definition in arguments.definitions {
        validate_required_argument(diagnostics, arguments, &given, definition)?;
    }
    Ok(())
}

/// Reports the required argument of this definition if it is not given or is literally null, at the field or
/// directive. `given` finds the argument by its name.
fn validate_required_argument(
    diagnostics: &mut DiagnosticList,
    arguments: &GivenArguments,
    given: &ByName<Node<Argument>>,
    definition: &Node<InputValueDefinition>,
) -> Result<(), ValidationError>
    requires given { given.now ≡ arguments.now.given.now }
    requires defined { Contains arguments.now.definitions.now definition.now }
    ensures { Checks result (RequiredArgumentIsProvided arguments.now.given.now definition.now)
        (IsDiagnostic (MissingArgumentReport arguments.now)) diagnostics.old diagnostics.new }
{
    if !definition.value.is_required() || is_given(given, &definition.value.name) {
        return Ok(());
    }
    let alloc = diagnostics.allocator();
    let coordinate = arguments
        .owner
        .argument_coordinate(alloc, &definition.value.name)?;
    let name = definition.value.name.clone()?;
    let expected_type = definition.value.ty.clone()?;
    diagnostics.push(
        arguments.location,
        Details::Diagnostic(DiagnosticData::RequiredArgument {
            name,
            coordinate,
            expected_type,
            definition_location: definition.location,
        }),
    )
}

/// Whether the first argument with this name is there and not literally null.
fn is_given(arguments: &ByName<Node<Argument>>, name: &Name) -> bool
    ensures { IsTrue result ↔ IsProvided arguments.now name.now }
{
    match arguments.find(name) {
        Some(argument) => !matches!(&*argument.value.value.value, Value::Null),
        None => false,
    }
}
