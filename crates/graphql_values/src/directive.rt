//! Directives applied at one place, and the definitions of variables, whose parts are directives,
//! types and values.

mod applications;
mod variable_definitions;

ghost use Rattle.std.specs.Prelude.{◌≡◌, ◌∷◌, ◌++◌, [], IfOk, List, OnOk, map};
ghost use Rattle.std.specs.Option.{option_copied};
ghost use Rattle.graphql_diagnostics.specs.Diagnostics.{IsDiagnostic};
ghost use Rattle.graphql_specification.specs.Directives.{DirectivesReport, ApplicationsHold};
ghost use Rattle.graphql_diagnostics.specs.Reports.{Checks};
ghost use Rattle.graphql_documents.specs.declared.documents.directives.Directive.{Directive};
ghost use Rattle.graphql_nodes.specs.declared.nodes.Node.{Node};
ghost use Rattle.graphql_values.specs.DirectiveSteps.{ChecksNext, FollowsWell, visited_directive};
ghost use Rattle.graphql_variables.specs.FirstPlaces.{Remembers};

use crate::argument::validate_arguments;
use applications::{check_repetition, validate_application};
use graphql_diagnostics::DiagnosticList;
use graphql_documents::documents::{Directive, Schema, VariableDefinition};
use graphql_nodes::{DirectiveLocation, Node, SourceSpan, ValidationError};
use graphql_variables::VariablesByName;
use graphql_variables::first_places::{FirstPlaces, first_place};
use std::alloc::Global;
pub use variable_definitions::validate_variable_definitions;

/// Validates the directives applied at one place. Without a schema each is reported as undefined.
///
/// Reports come directive by directive: its repeated arguments; that it repeats one that is not repeatable,
/// where an unknown directive counts as repeatable; that it is not allowed there; what its arguments break;
/// the required ones that are missing. One that is not defined is reported after its repeated arguments, and
/// nothing else is said of it. The only error is a failed allocation.
///
/// Specification: 5.7 Directives; 5.4 Arguments.
pub fn validate_directives(
    diagnostics: &mut DiagnosticList,
    schema: Option<&Schema>,
    directives: &[&Node<Directive>],
    location: DirectiveLocation,
    variables: &[Node<VariableDefinition>],
) -> Result<(), ValidationError>
    ensures { Checks result
        (ApplicationsHold (option_copied schema.entry) variables.now location (map (λ d. d.now) directives.now))
        (IsDiagnostic (DirectivesReport (option_copied schema.entry) variables.now location (map (λ d. d.now) directives.now)))
        diagnostics.old diagnostics.new }
{
    let variables = VariablesByName::new(
        diagnostics.allocator(),
        diagnostics.hash_seed(),
        variables,
    )?;
    check_directives(diagnostics, schema, directives, location, &variables)
}

/// Validates the directives applied at one place, and finds each variable by its name. Without a schema each
/// directive is reported as undefined. Reports come in the order of `validate_directives`. The only error is
/// a failed allocation.
///
/// Specification: 5.7 Directives; 5.4 Arguments.
pub fn check_directives(
    diagnostics: &mut DiagnosticList,
    schema: Option<&Schema>,
    directives: &[&Node<Directive>],
    location: DirectiveLocation,
    variables: &VariablesByName,
) -> Result<(), ValidationError>
    ensures { Checks result
        (ApplicationsHold (option_copied schema.entry) variables.now location (map (λ d. d.now) directives.now))
        (IsDiagnostic (DirectivesReport (option_copied schema.entry) variables.now location (map (λ d. d.now) directives.now)))
        diagnostics.old diagnostics.new }
{
    let mut seen = FirstPlaces::with_hasher(diagnostics.allocator(), diagnostics.hash_seed());
    for directive in directives {
        validate_directive(
            diagnostics,
            schema,
            directive,
            &mut seen,
            location,
            variables,
        )?;
    }
    Ok(())
}

/// Validates the directives on an operation, a selection or a fragment, and finds each variable by its name.
/// Without a schema each directive is reported as undefined. Reports come in the order of
/// `validate_directives`. The only error is a failed allocation.
///
/// Specification: 5.7 Directives; 5.4 Arguments.
pub fn check_each_directive(
    diagnostics: &mut DiagnosticList,
    schema: Option<&Schema>,
    directives: &[Node<Directive>],
    location: DirectiveLocation,
    variables: &VariablesByName,
) -> Result<(), ValidationError>
    ensures { Checks result (ApplicationsHold (option_copied schema.entry) variables.now location directives.now)
        (IsDiagnostic (DirectivesReport (option_copied schema.entry) variables.now location directives.now))
        diagnostics.old diagnostics.new }
{
    if directives.is_empty() {
        return Ok(());
    }
    let directives = each_directive(diagnostics.allocator(), directives)?;
    check_directives(diagnostics, schema, &directives, location, variables)
}

/// The directives, each as a reference.
fn each_directive<'a>(
    alloc: Global,
    directives: &'a [Node<Directive>],
) -> Result<Vec<&'a Node<Directive>>, ValidationError>
    ensures { IfOk result (λ each. map (λ d. d.now) each.items ≡ directives.now) }
{
    let mut each = Vec::new(alloc);
    for directive in directives {
        each.push(directive)?;
    }
    Ok(each)
}

/// Validates one of the directives applied at one place, behind those that were visited.
fn validate_directive<'a>(
    diagnostics: &mut DiagnosticList,
    schema: Option<&Schema>,
    directive: &'a Node<Directive>,
    seen: &mut FirstPlaces<'a>,
    location: DirectiveLocation,
    variables: &VariablesByName,
) -> Result<(), ValidationError>
    ensures checks { (before : List (Node Directive)) → Remembers seen.old (map visited_directive before) →
        ChecksNext result (FollowsWell (option_copied schema.entry) variables.now location before directive.now)
        (option_copied schema.entry) variables.now location before directive.now diagnostics.old diagnostics.new }
    ensures remembers { OnOk result ((before : List (Node Directive)) → Remembers seen.old (map visited_directive before) →
        Remembers seen.new (map visited_directive (before ++ directive.now ∷ []))) }
{
    let name = &directive.value.name;
    let head = SourceSpan::recompose(directive.location, name.location());
    validate_arguments(diagnostics, &directive.value.arguments)?;
    let first = first_place(seen, name, head)?;
    check_repetition(diagnostics, schema, directive, first)?;
    validate_application(diagnostics, schema, directive, location, variables)
}
