ghost use Rattle.indexmap.specs.IndexMap.{values};
ghost use Rattle.std.specs.Prelude.{◌≡◌, [], ◌∷◌, All, IfOk, MatchOption, MatchResult, OnOk, map};
ghost use Rattle.graphql_documents.specs.Executables.{operations_of};
ghost use Rattle.graphql_diagnostics.specs.Diagnostics.{entries};
ghost use Rattle.graphql_specification.specs.FragmentsUsed.{AreFragmentUseReports, AreUnusedFragmentReports, FragmentUseReport, IsFragmentUsed, FragmentWalkLimit};
ghost use Rattle.graphql_diagnostics.specs.Reports.{Appends, ChecksWithin, KeepsReports};
ghost use Rattle.graphql_operations.specs.UsedFragments.{AddsSpreads, AnyPasses, IsSpreadAmong, IsSpreadByAny};
ghost use Rattle.graphql_variables.specs.Uses.{HasUsed, NamesAlso};

use graphql_diagnostics::{Details, DiagnosticData, DiagnosticList};
use graphql_documents::documents::{ExecutableDocument, Fragment, Operation, Selection};
use graphql_hash_seeds::HashSeed;
use graphql_nodes::{Name, Node, RecursionLimitError, ValidationError};
use graphql_variables::walk_selections_with_deduped_fragments;
use indexmap::IndexSet;
use std::alloc::Global;

/// Reports each fragment that is not used: no operation reaches a spread that names it. The diagnostics are
/// in order of the document, each at its fragment, with the fragment's own name. A spread in an unused
/// fragment uses nothing.
///
/// Where the walk over an operation passes its limit, a limit without a location is reported, once, and
/// nothing else. The only error is a failed allocation.
///
/// Specification: 5.5.1.4 Fragments Must Be Used.
pub fn validate_fragments_used(
    diagnostics: &mut DiagnosticList,
    document: &ExecutableDocument,
) -> Result<(), ValidationError>
    ensures checks { ChecksWithin result
        (All (λ d. IsFragmentUsed document.now d.value.value) (values document.now.fragments))
        (λ e. FragmentUseReport document.now e.details e.location)
        (λ e. FragmentWalkLimit document.now e.details e.location)
        diagnostics.old diagnostics.new }
    ensures exact { OnOk result (Appends (AreFragmentUseReports document.now) (entries diagnostics.old) (entries diagnostics.new)) }
{
    let alloc = diagnostics.allocator();
    let operations = operations_of(alloc, document)?;
    match spread_names(alloc, document, &operations)? {
        Some(used) => report_unused(diagnostics, document, &used),
        None => diagnostics.push(None, Details::RecursionLimit(RecursionLimitError)),
    }
}

/// The operations of a document: the one without a name, then the others in order. The only error is a failed
/// allocation.
pub fn operations_of(
    alloc: Global,
    document: &ExecutableDocument,
) -> Result<Vec<&Node<Operation>>, ValidationError>
    ensures { IfOk result (λ operations. map (λ o. o.now) operations.items ≡ operations_of document.now) }
{
    let anonymous = document.operations.anonymous.iter();
    let named = document.operations.named.values();
    Ok(anonymous.chain(named).collect(alloc)?)
}

/// The names that these operations reach as spreads, or none where the walk over one passes its limit.
fn spread_names<'doc>(
    alloc: Global,
    document: &'doc ExecutableDocument,
    operations: &[&'doc Node<Operation>],
) -> Result<Option<IndexSet<&'doc Name, HashSeed>>, ValidationError>
    ensures { IfOk result (λ found. MatchOption found
        (AnyPasses document.now (map (λ o. o.now) operations.now))
        (λ used. HasUsed (IsSpreadByAny document.now (map (λ o. o.now) operations.now)) used)) }
{
    let mut names = IndexSet::with_hasher(alloc, document.hash_seed());
    for operation in operations {
        if !add_reachable_spreads(alloc, document, operation, &mut names)? {
            return Ok(None);
        }
    }
    Ok(Some(names))
}

/// Adds the names that an operation reaches as spreads, and answers whether the walk came to its end.
fn add_reachable_spreads<'doc>(
    alloc: Global,
    document: &'doc ExecutableDocument,
    operation: &'doc Node<Operation>,
    names: &mut IndexSet<&'doc Name, HashSeed>,
) -> Result<bool, ValidationError>
    ensures { IfOk result (λ complete. AddsSpreads document.now operation.now names.old.keys names.new.keys complete) }
{
    let set = &operation.value.selection_set;
    let walked = walk_selections_with_deduped_fragments(alloc, document, set)?;
    add_spreads(&walked.selections, names)?;
    Ok(walked.complete)
}

/// Adds the names that spreads among these selections have.
fn add_spreads<'doc>(
    selections: &[&'doc Selection],
    names: &mut IndexSet<&'doc Name, HashSeed>,
) -> Result<(), ValidationError>
    ensures { OnOk result (NamesAlso (IsSpreadAmong (map (λ s. s.now) selections.now)) names.old.keys names.new.keys) }
{
    for selection in selections {
        if let Selection::FragmentSpread(spread) = selection {
            names.insert(&spread.value.fragment_name)?;
        }
    }
    Ok(())
}

/// Reports each fragment of the document whose own name is not among these.
fn report_unused(
    diagnostics: &mut DiagnosticList,
    document: &ExecutableDocument,
    used: &IndexSet<&Name, HashSeed>,
) -> Result<(), ValidationError>
    ensures { HasUsed (IsSpreadByAny document.now (operations_of document.now)) used.now →
        MatchResult result
        (λ _. Appends (AreUnusedFragmentReports document.now (values document.now.fragments)) (entries diagnostics.old) (entries diagnostics.new))
        (λ _. KeepsReports (λ e. FragmentUseReport document.now e.details e.location) (entries diagnostics.old) (entries diagnostics.new)) }
{
    for fragment in document.fragments.values() {
        check_use(diagnostics, fragment, used)?;
    }
    Ok(())
}

/// Reports a fragment if its own name is not among these.
fn check_use(
    diagnostics: &mut DiagnosticList,
    fragment: &Node<Fragment>,
    used: &IndexSet<&Name, HashSeed>,
) -> Result<(), ValidationError>
    ensures { (document : ExecutableDocument) → HasUsed (IsSpreadByAny document (operations_of document)) used.now →
        MatchResult result
        (λ _. Appends (AreUnusedFragmentReports document (fragment.now ∷ [])) (entries diagnostics.old) (entries diagnostics.new))
        (λ _. entries diagnostics.new ≡ entries diagnostics.old) }
{
    let name = &fragment.value.name;
    if used.contains(&name) {
        return Ok(());
    }
    let name = name.clone()?;
    diagnostics.push(
        fragment.location,
        Details::Diagnostic(DiagnosticData::UnusedFragment { name }),
    )
}
