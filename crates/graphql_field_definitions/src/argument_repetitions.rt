ghost use Rattle.std.specs.Prelude.{◌≡◌, ◌∷◌, ◌++◌, [], List, OnOk, Some, map};
ghost use Rattle.graphql_documents.specs.Definitions.{definition_named};
ghost use Rattle.graphql_diagnostics.specs.Diagnostics.{IsDiagnostic};
ghost use Rattle.graphql_nodes.specs.Names.{AreDistinct};
ghost use Rattle.graphql_diagnostics.specs.Reports.{Checks};
ghost use Rattle.graphql_documents.specs.declared.documents.definitions.InputValueDefinition.{InputValueDefinition};
ghost use Rattle.graphql_nodes.specs.declared.nodes.Node.{Node};
ghost use Rattle.graphql_field_definitions.specs.FieldDefinitionSteps.{ChecksNextArgument, IsNewArgument, RepetitionsReport, visited_argument};
ghost use Rattle.graphql_variables.specs.FirstPlaces.{Remembers};

use graphql_diagnostics::{Details, DiagnosticData, DiagnosticList};
use graphql_documents::documents::InputValueDefinition;
use graphql_nodes::{Node, SourceSpan, ValidationError};
use graphql_variables::first_places::{FirstPlaces, first_place};

/// Validates that the names of arguments are distinct. For each that has the name of an earlier one, the
/// first of the name is reported.
///
/// Specification: 3.6.1 Field Arguments; 3.13 Directives.
pub(crate) fn validate_distinct_arguments(
    diagnostics: &mut DiagnosticList,
    arguments: &[&Node<InputValueDefinition>],
) -> Result<(), ValidationError>
    ensures { Checks result (AreDistinct (map (λ d. d.value.value.name) (map (λ d. d.now) arguments.now)))
        (IsDiagnostic (RepetitionsReport (map (λ d. d.now) arguments.now))) diagnostics.old diagnostics.new }
{
    let mut seen = FirstPlaces::with_hasher(diagnostics.allocator(), diagnostics.hash_seed());
    for argument in arguments {
        check_next_argument(diagnostics, argument, &mut seen)?;
    }
    Ok(())
}

/// Reports an argument that has the name of one that was visited.
fn check_next_argument<'a>(
    diagnostics: &mut DiagnosticList,
    argument: &'a Node<InputValueDefinition>,
    seen: &mut FirstPlaces<'a>,
) -> Result<(), ValidationError>
    ensures checks { (before : List (Node InputValueDefinition)) → Remembers seen.old (map visited_argument before) →
        ChecksNextArgument result (IsNewArgument before argument.now) before argument.now diagnostics.old diagnostics.new }
    ensures remembers { OnOk result ((before : List (Node InputValueDefinition)) → Remembers seen.old (map visited_argument before) →
        Remembers seen.new (map visited_argument (before ++ argument.now ∷ []))) }
{
    match first_place(seen, &argument.value.name, argument.location)? {
        Some(original) => report_repetition(diagnostics, argument, original),
        None => Ok(()),
    }
}

fn report_repetition(
    diagnostics: &mut DiagnosticList,
    argument: &Node<InputValueDefinition>,
    original: Option<SourceSpan>,
) -> Result<(), ValidationError>
    ensures { (before : List (Node InputValueDefinition)) (first : Node InputValueDefinition) →
        definition_named argument.now.value.value.name before ≡ Some first → original ≡ first.location →
        ChecksNextArgument result ⊥ before argument.now diagnostics.old diagnostics.new }
{
    let name = argument.value.name.clone()?;
    diagnostics.push(
        original,
        Details::Diagnostic(DiagnosticData::UniqueInputValue {
            name,
            original_definition: original,
            redefined_definition: argument.location,
        }),
    )
}
