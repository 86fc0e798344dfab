ghost use Rattle.std.specs.Prelude.{◌≡◌, [], IfOk, Some, map};
ghost use Rattle.graphql_diagnostics.specs.Diagnostics.{IsDiagnostic};
ghost use Rattle.graphql_specification.specs.Directives.{DirectivesReport};
ghost use Rattle.graphql_diagnostics.specs.Reports.{Checks};
ghost use Rattle.graphql_specification.specs.InputValueDefinitions.{DirectivesHoldAt};

use graphql_diagnostics::DiagnosticList;
use graphql_documents::documents::{Component, Directive, Schema};
use graphql_nodes::{DirectiveLocation, Node, ValidationError};
use graphql_values::directive::{check_each_directive, validate_directives};
use graphql_variables::VariablesByName;
use std::alloc::Global;

/// Validates the directives on a definition, where there are no variables. The only error is a failed
/// allocation.
///
/// Specification: 5.7 Directives.
pub fn validate_definition_directives(
    diagnostics: &mut DiagnosticList,
    schema: &Schema,
    directives: &[Node<Directive>],
    location: DirectiveLocation,
) -> Result<(), ValidationError>
    ensures { Checks result (DirectivesHoldAt schema.now location directives.now)
        (IsDiagnostic (DirectivesReport (Some schema.now) [] location directives.now)) diagnostics.old diagnostics.new }
{
    let variables = VariablesByName::new(diagnostics.allocator(), diagnostics.hash_seed(), &[])?;
    check_each_directive(diagnostics, Some(schema), directives, location, &variables)
}

/// Validates the directives on a definition and on its extensions, for which no variables are defined.
/// The only error is a failed allocation.
///
/// Specification: 5.7 Directives.
pub fn validate_component_directives(
    diagnostics: &mut DiagnosticList,
    schema: &Schema,
    directives: &[Component<Directive>],
    location: DirectiveLocation,
) -> Result<(), ValidationError>
    ensures { Checks result (DirectivesHoldAt schema.now location (map (λ c. c.node) directives.now))
        (IsDiagnostic (DirectivesReport (Some schema.now) [] location (map (λ c. c.node) directives.now))) diagnostics.old diagnostics.new }
{
    let applied = each_directive(diagnostics.allocator(), directives)?;
    validate_directives(diagnostics, Some(schema), &applied, location, &[])
}

/// The directives, each as a reference.
fn each_directive<'a>(
    alloc: Global,
    directives: &'a [Component<Directive>],
) -> Result<Vec<&'a Node<Directive>>, ValidationError>
    ensures { IfOk result (λ each. map (λ d. d.now) each.items ≡ map (λ c. c.node) directives.now) }
{
    let mut each = Vec::new(alloc);
    for directive in directives {
        each.push(&directive.node)?;
    }
    Ok(each)
}
