//! Arguments against each other and against their definitions.

mod given;
mod owners;
mod required;

ghost use Rattle.std.specs.Prelude.{◌≡◌, List, MatchResult, OnOk};
ghost use Rattle.graphql_specification.specs.Arguments.{AreRepetitionReports, AreReportsOf, RepetitionReport, repetition_after, HasDistinctNames};
ghost use Rattle.graphql_diagnostics.specs.Diagnostics.{IsDiagnostic, entries};
ghost use Rattle.graphql_diagnostics.specs.Reports.{Appends, Checks};
ghost use Rattle.graphql_documents.specs.declared.documents.directives.Argument.{Argument};
ghost use Rattle.graphql_nodes.specs.declared.nodes.Node.{Node};
ghost use Rattle.graphql_values.specs.Repetitions.{argument_place_in};

pub use given::validate_given_arguments;
use graphql_diagnostics::{Details, DiagnosticData, DiagnosticList};
use graphql_documents::documents::Argument;
use graphql_nodes::{Node, SourceSpan, ValidationError};
use graphql_variables::first_places::{FirstPlaces, first_place};
pub use owners::{ArgumentOwner, GivenArguments};
pub use required::validate_required_arguments;

/// Reports each argument that repeats the name of an earlier one, in order, at the repetition and with the
/// place of the first of its name. The only error is a failed allocation.
///
/// Specification: 5.4.2 Argument Uniqueness.
pub fn validate_arguments(
    diagnostics: &mut DiagnosticList,
    arguments: &[Node<Argument>],
) -> Result<(), ValidationError>
    ensures exact { OnOk result (Appends (AreRepetitionReports arguments.now) (entries diagnostics.old) (entries diagnostics.new)) }
    ensures checks { Checks result (HasDistinctNames arguments.now) (IsDiagnostic (RepetitionReport arguments.now)) diagnostics.old diagnostics.new }
{
    if arguments.len() < 2 {
        return Ok(());
    }
    let mut seen = FirstPlaces::with_hasher(diagnostics.allocator(), diagnostics.hash_seed());
    for argument in arguments {
        let first = first_place(&mut seen, &argument.value.name, argument.location)?;
        check_repetition(diagnostics, argument, first)?;
    }
    Ok(())
}

/// Reports an argument that repeats the name of one before it. The first argument of the name, if there is
/// one, is at `first`.
fn check_repetition(
    diagnostics: &mut DiagnosticList,
    argument: &Node<Argument>,
    first: Option<Option<SourceSpan>>,
) -> Result<(), ValidationError>
    ensures { (before : List (Node Argument)) → first ≡ argument_place_in before argument.now.value.value.name →
        MatchResult result
        (λ _. Appends (AreReportsOf (repetition_after before argument.now)) (entries diagnostics.old) (entries diagnostics.new))
        (λ _. entries diagnostics.new ≡ entries diagnostics.old) }
{
    let Some(original) = first else {
        return Ok(());
    };
    let name = argument.value.name.clone()?;
    diagnostics.push(
        argument.location,
        Details::Diagnostic(DiagnosticData::UniqueArgument {
            name,
            original_definition: original,
            redefined_definition: argument.location,
        }),
    )
}
