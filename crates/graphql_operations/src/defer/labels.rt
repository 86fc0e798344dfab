ghost use Rattle.std.specs.Option.{option_copied};
ghost use Rattle.std.specs.Prelude.{◌≡◌, ◌∷◌, ◌++◌, [], Bool, suc, Contains, IfOk, List, OnOk, Some, map};
ghost use Rattle.graphql_specification.specs.Defer.{DefersIn, DefersOn, LabelsHold, DeferReport, HasLabel, DeferLimit, DefersVisited};
ghost use Rattle.graphql_documents.specs.Executables.{sets_of};
ghost use Rattle.graphql_diagnostics.specs.Diagnostics.{entries};
ghost use Rattle.graphql_diagnostics.specs.Reports.{ChecksWithin, KeepsReports};
ghost use Rattle.graphql_documents.specs.Selections.{selections_of};
ghost use Rattle.graphql_documents.specs.Walks.{walk_depth_limit};
ghost use Rattle.graphql_diagnostics.specs.declared.lists.DiagnosticEntry.{DiagnosticEntry};
ghost use Rattle.graphql_documents.specs.declared.documents.values.Value.TheVariants as literal;
ghost use Rattle.graphql_operations.specs.DeferLabels.{DeferEntryReport, LabelsSoFar, PassesLabels, PassesLabelsIn, RemembersLabels, first_place_in, has_text, label_of, label_place};

use super::written::written_defers;
use crate::fragments_used::operations_of;
use graphql_diagnostics::{BuildError, Details, DiagnosticData, DiagnosticList};
use graphql_documents::documents::{Directive, ExecutableDocument, SelectionSet, Value};
use graphql_hash_seeds::HashSeed;
use graphql_nodes::{Node, SourceSpan, ValidationError};
use graphql_variables::conditions::argument_value;
use indexmap::IndexMap;
use std::alloc::Global;

/// The place of the first label of each text that was visited.
type Labels<'doc> = IndexMap<&'doc str, Option<SourceSpan>, HashSeed>;

/// Reports the labels of `@defer` that are variables, and those that repeat the text of an earlier one,
/// each at its value. They come in order: those written in the set of each operation, the one without
/// a name first, then those in the set of each fragment, spread or not.
///
/// Where the walk over a set passes its limit, a limit without a location comes where that walk ends, and the
/// next set goes on.
pub(super) fn validate_labels(
    document: &ExecutableDocument,
    diagnostics: &mut DiagnosticList,
) -> Result<(), ValidationError>
    ensures { ChecksWithin result (LabelsHold document.now)
        (λ e. DeferReport document.now e.details e.location)
        (λ e. DeferLimit document.now e.details e.location)
        diagnostics.old diagnostics.new }
{
    let alloc = diagnostics.allocator();
    let sets = sets_of(alloc, document)?;
    let mut labels = IndexMap::with_hasher(alloc, document.hash_seed());
    for set in &sets {
        check_set(set, &mut labels, diagnostics)?;
    }
    Ok(())
}

/// The sets of the operations and of the fragments of a document, in order.
fn sets_of(
    alloc: Global,
    document: &ExecutableDocument,
) -> Result<Vec<&SelectionSet>, ValidationError>
    ensures { IfOk result (λ sets. map (λ s. s.now) sets.items ≡ sets_of document.now) }
{
    let operations = operations_of(alloc, document)?;
    let of_operations = operations
        .iter()
        .map(|operation| &operation.value.selection_set);
    let of_fragments = document
        .fragments
        .values()
        .map(|fragment| &fragment.value.selection_set);
    Ok(of_operations.chain(of_fragments).collect(alloc)?)
}

/// Checks the labels in a set.
fn check_set<'doc>(
    set: &'doc SelectionSet,
    labels: &mut Labels<'doc>,
    diagnostics: &mut DiagnosticList,
) -> Result<(), ValidationError>
    ensures { (document : ExecutableDocument) (here found : List (Node Directive)) (complete : Bool) →
        Contains (sets_of document) set.now → DefersOn (selections_of set.now) here →
        DefersVisited (suc walk_depth_limit) (selections_of set.now) found complete →
        PassesLabelsIn result document here found labels.old labels.new diagnostics.old diagnostics.new }
{
    let written = written_defers(diagnostics.allocator(), set)?;
    check_labels(&written.applications, labels, diagnostics)?;
    if written.complete {
        return Ok(());
    }
    diagnostics.push(None, Details::Diagnostic(DiagnosticData::RecursionError))
}

/// Checks the labels of these applications.
fn check_labels<'doc>(
    applications: &[&'doc Node<Directive>],
    labels: &mut Labels<'doc>,
    diagnostics: &mut DiagnosticList,
) -> Result<(), ValidationError>
    ensures { PassesLabels result (map (λ d. d.now) applications.now) labels.old labels.new diagnostics.old diagnostics.new }
{
    for application in applications {
        check_label(application, labels, diagnostics)?;
    }
    Ok(())
}

/// Checks the label of an application.
fn check_label<'doc>(
    application: &'doc Node<Directive>,
    labels: &mut Labels<'doc>,
    diagnostics: &mut DiagnosticList,
) -> Result<(), ValidationError>
    ensures { PassesLabels result (application.now ∷ []) labels.old labels.new diagnostics.old diagnostics.new }
{
    let Some(label) = argument_value(&application.value, "label") else {
        return Ok(());
    };
    match &*label.value {
        Value::Variable(_) => diagnostics.push(
            label.location,
            Details::Build(BuildError::DeferLabelMustNotBeVariable),
        ),
        Value::String(text) => check_text(text, label.location, labels, diagnostics),
        _ => Ok(()),
    }
}

/// Reports a label whose text was visited before.
fn check_text<'doc>(
    text: &'doc String,
    location: Option<SourceSpan>,
    labels: &mut Labels<'doc>,
    diagnostics: &mut DiagnosticList,
) -> Result<(), ValidationError>
    ensures { (d : Node Directive) (value : Node Value) → label_of d ≡ Some value →
        value.value.value ≡ literal.String text.now → location ≡ value.location →
        PassesLabels result (d ∷ []) labels.old labels.new diagnostics.old diagnostics.new }
{
    let Some(original_location) = first_place(labels, text.as_str(), location)? else {
        return Ok(());
    };
    let label = text.clone()?;
    diagnostics.push(
        location,
        Details::Build(BuildError::DuplicateDeferLabel {
            label,
            original_location,
        }),
    )
}

/// Answers the place of the first label of this text among those that were visited. Where the text is new,
/// there is none, and this place stands for it from then on.
fn first_place<'doc>(
    labels: &mut Labels<'doc>,
    text: &'doc str,
    location: Option<SourceSpan>,
) -> Result<Option<Option<SourceSpan>>, ValidationError>
    ensures found { IfOk result (λ first. (visited : List (Node Directive)) → RemembersLabels labels.old visited → first ≡ first_place_in visited text.now) }
    ensures remembered { OnOk result ((visited : List (Node Directive)) (d : Node Directive) → RemembersLabels labels.old visited →
        HasLabel d text.now location → RemembersLabels labels.new (visited ++ d ∷ [])) }
{
    match labels.get(&text) {
        Some(first) => Ok(Some(*first)),
        None => {
            labels.insert(text, location)?;
            Ok(None)
        }
    }
}
