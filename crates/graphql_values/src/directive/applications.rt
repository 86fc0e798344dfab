ghost use Rattle.std.specs.Option.{MatchOption, option_copied};
ghost use Rattle.std.specs.Prelude.{◌≡◌, ◌↔◌, All, Contains, IsTrue, List, None, Option, Some};
ghost use Rattle.graphql_specification.specs.Arguments.{RequiredArgumentIsProvided};
ghost use Rattle.graphql_specification.specs.Directives.{IsRepeatable};
ghost use Rattle.graphql_documents.specs.Directives.{directive_definition, directive_in};
ghost use Rattle.graphql_documents.specs.declared.documents.directives.Directive.{Directive};
ghost use Rattle.graphql_nodes.specs.declared.nodes.Node.{Node};
ghost use Rattle.graphql_documents.specs.declared.documents.schemas.Schema.{Schema};
ghost use Rattle.graphql_values.specs.DirectiveSteps.{ChecksApplication, ChecksRepetition, IsAppliedWell, directive_named, head_in, head_place};
ghost use Rattle.graphql_values.specs.GivenArguments.{GivenArgumentHolds};

use crate::argument::{GivenArguments, validate_given_arguments, validate_required_arguments};
use graphql_diagnostics::{Details, DiagnosticData, DiagnosticList};
use graphql_documents::documents::{Directive, DirectiveDefinition, Schema};
use graphql_nodes::{DirectiveLocation, Name, Node, SourceSpan, ValidationError};
use graphql_variables::VariablesByName;

/// Reports a directive that repeats one applied before it, if it is not repeatable; a directive that is
/// not defined counts as repeatable. The first application, if there is one, has its head at `first`.
///
/// Specification: 5.7.3 Directives Are Unique per Location.
pub(super) fn check_repetition(
    diagnostics: &mut DiagnosticList,
    schema: Option<&Schema>,
    directive: &Node<Directive>,
    first: Option<Option<SourceSpan>>,
) -> Result<(), ValidationError>
    ensures { (before : List (Node Directive)) → first ≡ head_in before directive.now.value.value.name →
        ChecksRepetition result (option_copied schema.entry) before directive.now diagnostics.old diagnostics.new }
{
    let Some(original) = first else {
        return Ok(());
    };
    if is_repeatable(schema, &directive.value.name) {
        return Ok(());
    }
    report_repetition(diagnostics, directive, original)
}

/// Whether the directive of this name may be applied again at one place.
fn is_repeatable(schema: Option<&Schema>, name: &Name) -> bool
    ensures { IsTrue result ↔ IsRepeatable (option_copied schema.entry) name.now }
{
    match definition_of(schema, name) {
        Some((_, definition)) => definition.value.repeatable,
        None => true,
    }
}

/// The definition of the directive of this name, with the schema that has it.
fn definition_of<'a>(
    schema: Option<&'a Schema>,
    name: &Name,
) -> Option<(&'a Schema, &'a Node<DirectiveDefinition>)>
    ensures { MatchOption result (directive_in (option_copied schema.entry) name.now ≡ None)
        (λ found. (option_copied schema.entry ≡ Some found.0.now) × (directive_definition found.0.now name.now ≡ Some found.1.now)) }
{
    let schema = schema?;
    let definition = schema.directive_definitions.get(name)?;
    Some((schema, definition))
}

/// Reports a directive that repeats another.
fn report_repetition(
    diagnostics: &mut DiagnosticList,
    directive: &Node<Directive>,
    original: Option<SourceSpan>,
) -> Result<(), ValidationError>
    ensures { (schema : Option Schema) (before : List (Node Directive)) (first : Node Directive) →
        directive_named directive.now.value.value.name before ≡ Some first → original ≡ head_place first →
        ¬ IsRepeatable schema directive.now.value.value.name →
        ChecksRepetition result schema before directive.now diagnostics.old diagnostics.new }
{
    let name = directive.value.name.clone()?;
    diagnostics.push(
        directive.location,
        Details::Diagnostic(DiagnosticData::UniqueDirective {
            name,
            original_application: original,
        }),
    )
}

/// Validates an application of a directive: that it is defined, its place, and its arguments.
///
/// Specification: 5.7.1 Directives Are Defined; 5.7.2 Directives Are in Valid Locations; 5.4
/// Arguments.
pub(super) fn validate_application(
    diagnostics: &mut DiagnosticList,
    schema: Option<&Schema>,
    directive: &Node<Directive>,
    location: DirectiveLocation,
    variables: &VariablesByName,
) -> Result<(), ValidationError>
    ensures { ChecksApplication result (IsAppliedWell (option_copied schema.entry) variables.now location directive.now.value.value)
        (option_copied schema.entry) variables.now location directive.now diagnostics.old diagnostics.new }
{
    match definition_of(schema, &directive.value.name) {
        Some((schema, definition)) => {
            validate_known(
                diagnostics,
                schema,
                definition,
                directive,
                location,
                variables,
            )
        }
        None => report_undefined(diagnostics, directive),
    }
}

/// Validates an application of a directive that has this definition: its place and its arguments.
fn validate_known(
    diagnostics: &mut DiagnosticList,
    schema: &Schema,
    definition: &Node<DirectiveDefinition>,
    directive: &Node<Directive>,
    location: DirectiveLocation,
    variables: &VariablesByName,
) -> Result<(), ValidationError>
    requires { directive_definition schema.now directive.now.value.value.name ≡ Some definition.now }
    ensures { ChecksApplication result
        (Contains definition.now.value.value.locations.items location ×
        All (GivenArgumentHolds schema.now variables.now definition.now.value.value.arguments.items) directive.now.value.value.arguments.items ×
        All (RequiredArgumentIsProvided directive.now.value.value.arguments.items) definition.now.value.value.arguments.items)
        (Some schema.now) variables.now location directive.now diagnostics.old diagnostics.new }
{
    check_location(diagnostics, definition, directive, location)?;
    let arguments = GivenArguments::of_directive(directive, definition);
    validate_given_arguments(diagnostics, schema, &arguments, variables)?;
    validate_required_arguments(diagnostics, &arguments)
}

/// Reports a directive at a place that its definition does not allow.
fn check_location(
    diagnostics: &mut DiagnosticList,
    definition: &Node<DirectiveDefinition>,
    directive: &Node<Directive>,
    location: DirectiveLocation,
) -> Result<(), ValidationError>
    ensures { (schema : Schema) (variables : _) →
        directive_definition schema directive.now.value.value.name ≡ Some definition.now →
        ChecksApplication result (Contains definition.now.value.value.locations.items location)
        (Some schema) variables location directive.now diagnostics.old diagnostics.new }
{
    if definition.value.locations.contains(&location) {
        return Ok(());
    }
    let name = directive.value.name.clone()?;
    let valid_locations = definition.value.locations.clone()?;
    diagnostics.push(
        directive.location,
        Details::Diagnostic(DiagnosticData::UnsupportedLocation {
            name,
            location,
            valid_locations,
            definition_location: definition.location,
        }),
    )
}

/// Reports a directive that is not defined.
///
/// Specification: 5.7.1 Directives Are Defined.
fn report_undefined(
    diagnostics: &mut DiagnosticList,
    directive: &Node<Directive>,
) -> Result<(), ValidationError>
    ensures { (schema : Option Schema) (variables location : _) → directive_in schema directive.now.value.value.name ≡ None →
        ChecksApplication result ⊥ schema variables location directive.now diagnostics.old diagnostics.new }
{
    let name = directive.value.name.clone()?;
    diagnostics.push(
        directive.location,
        Details::Diagnostic(DiagnosticData::UndefinedDirective { name }),
    )
}
