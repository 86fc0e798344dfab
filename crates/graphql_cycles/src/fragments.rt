ghost use Rattle.std.specs.Prelude.{◌≡◌, ◌+◌, IsFalse, IsTrue, List, Option, OnOk, Some};
ghost use Rattle.graphql_diagnostics.specs.Diagnostics.{IsDiagnostic};
ghost use Rattle.graphql_specification.specs.Fragments.{FragmentHasNoCycle, HasLongSpreadPath, IsFragmentCycle, FragmentLimit, fragment_depth_limit, FragmentFormReport};
ghost use Rattle.graphql_diagnostics.specs.Reports.{ChecksWithin};
ghost use Rattle.graphql_documents.specs.Selections.{Fragments, fragments_of};
ghost use Rattle.graphql_nesting.specs.Levels.{levels_are_found};
ghost use Rattle.graphql_nesting.specs.Nesting.{Descends};
ghost use Rattle.graphql_nodes.specs.Names.{SameName};
ghost use Rattle.graphql_nodes.specs.Spans.{recompose};
ghost use Rattle.graphql_documents.specs.declared.documents.executables.FragmentSpread.{FragmentSpread};
ghost use Rattle.graphql_nodes.specs.declared.nodes.Node.{Node};
ghost use Rattle.graphql_documents.specs.declared.documents.schemas.Schema.{Schema};
ghost use Rattle.graphql_guards.specs.Guards.{path_limit, path_of};
ghost use Rattle.graphql_cycles.specs.CycleSearches.{Traces};
ghost use Rattle.graphql_cycles.specs.FragmentSearches.{BeginsAt, SearchesFor, SpreadAt, SpreadIn};

use super::steps::{mark, trace_step};
use graphql_diagnostics::{Details, DiagnosticData, DiagnosticList};
use graphql_documents::documents::{
    ExecutableDocument, Fragment, FragmentSpread, Selection, SelectionSet,
};
use graphql_guards::{CycleError, RecursionStack};
use graphql_hash_seeds::HashSeed;
use graphql_nesting::DocumentLevels;
use graphql_nodes::{Name, Node, SourceSpan, ValidationError};
use indexmap::IndexSet;
use std::alloc::Global;

/// How many names a path of fragments may hold, the first counted.
const FRAGMENT_LIMIT: usize = 100;

/// Reports a fragment that spreads itself, directly or through other fragments, with one cycle: the
/// spreads on the way, from the one that leads back to the fragment's own. A fragment that only reaches
/// the cycle of another is not reported.
///
/// Where a path of spreads from the fragment goes through more than 100 fragments before a cycle is found,
/// that is reported instead, at the head of the fragment. The only error is a failed allocation.
///
/// Specification: 5.5.2.2 Fragment Spreads Must Not Form Cycles.
pub fn validate_fragment_cycles(
    diagnostics: &mut DiagnosticList,
    document: &ExecutableDocument,
    fragment: &Node<Fragment>,
) -> Result<(), ValidationError>
    ensures { (schema : Option Schema) → ChecksWithin result (FragmentHasNoCycle (fragments_of document.now) fragment.now)
        (IsDiagnostic (FragmentFormReport schema (fragments_of document.now) fragment.now))
        (λ e. FragmentLimit (fragments_of document.now) fragment.now e.details e.location) diagnostics.old diagnostics.new }
{
    let alloc = diagnostics.allocator();
    let root = &fragment.value.name;
    let mut path = RecursionStack::with_root(alloc, root.clone()?)?.with_limit(FRAGMENT_LIMIT);
    let mut seen = IndexSet::with_hasher(alloc, document.hash_seed());
    let search = FragmentSearch {
        alloc,
        document,
        root,
    };
    let searched = search.search_set(&fragment.value.selection_set, &mut path, &mut seen);
    drop(seen);
    drop(path);
    match searched {
        Ok(()) => Ok(()),
        Err(CycleError::Recursed(trace)) => report_cycle(diagnostics, fragment, trace),
        Err(CycleError::Limit) => report_nesting(diagnostics, fragment),
        Err(CycleError::Memory) => Err(ValidationError::OutOfMemory),
    }
}

/// Whether a fragment that the document has under a name is known by its levels to lead to no cycle, and to no path of spreads
/// that goes through more than 100 fragments: `validate_fragment_cycles` reports nothing of such a fragment. It is not known
/// where the levels of the document were not found, where the fragment has another name itself, and where a way down from it goes
/// through 100 selection sets.
///
/// Specification: 5.5.2.2 Fragment Spreads Must Not Form Cycles.
pub fn is_known_without_cycle(
    document: &DocumentLevels,
    name: &Name,
    fragment: &Node<Fragment>,
) -> bool
    ensures no_cycle { IsTrue result → fragments_of document.now.document.now name.now ≡ Some fragment.now →
        FragmentHasNoCycle (fragments_of document.now.document.now) fragment.now }
    ensures no_long_path { IsTrue result → fragments_of document.now.document.now name.now ≡ Some fragment.now →
        ¬ HasLongSpreadPath (fragments_of document.now.document.now) fragment.now (fragment_depth_limit + 1) }
    ensures deep { IsFalse result → SameName name.now fragment.now.value.value.name → IsTrue (levels_are_found document.now) →
        fragments_of document.now.document.now name.now ≡ Some fragment.now →
        ∥ Descends (fragments_of document.now.document.now) fragment.now.value.value.selection_set fragment_depth_limit ∥₁ }
{
    if *name != fragment.value.name {
        return false;
    }
    match document.levels_of(name) {
        Some(levels) => levels < FRAGMENT_LIMIT,
        None => false,
    }
}

/// Reports a fragment that spreads itself.
fn report_cycle(
    diagnostics: &mut DiagnosticList,
    fragment: &Node<Fragment>,
    trace: Vec<Node<FragmentSpread>>,
) -> Result<(), ValidationError>
    ensures { (schema : Option Schema) (fragments : Fragments) (path : List (Node FragmentSpread)) →
        IsFragmentCycle fragments fragment.now path → Traces trace.items path →
        ChecksWithin result (FragmentHasNoCycle fragments fragment.now) (IsDiagnostic (FragmentFormReport schema fragments fragment.now))
        (λ e. FragmentLimit fragments fragment.now e.details e.location) diagnostics.old diagnostics.new }
{
    let head_location = head_of(fragment);
    let name = fragment.value.name.clone()?;
    diagnostics.push(
        fragment.location,
        Details::Diagnostic(DiagnosticData::RecursiveFragmentDefinition {
            name,
            head_location,
            trace,
        }),
    )
}

/// Reports a fragment from which a path goes through too many others.
fn report_nesting(
    diagnostics: &mut DiagnosticList,
    fragment: &Node<Fragment>,
) -> Result<(), ValidationError>
    ensures { (schema : Option Schema) (fragments : Fragments) → HasLongSpreadPath fragments fragment.now (fragment_depth_limit + 1) →
        ChecksWithin result (FragmentHasNoCycle fragments fragment.now) (IsDiagnostic (FragmentFormReport schema fragments fragment.now))
        (λ e. FragmentLimit fragments fragment.now e.details e.location) diagnostics.old diagnostics.new }
{
    let head_location = head_of(fragment);
    let name = fragment.value.name.clone()?;
    diagnostics.push(
        head_location,
        Details::Diagnostic(DiagnosticData::DeeplyNestedType {
            name,
            describe_type: "fragment",
        }),
    )
}

/// Where the head of a fragment is: from its start to the end of its name.
fn head_of(fragment: &Node<Fragment>) -> Option<SourceSpan>
    ensures { result ≡ recompose fragment.now.location fragment.now.value.value.name.location }
{
    SourceSpan::recompose(fragment.location, fragment.value.name.location())
}

/// What a search for a cycle goes over, and the name that it seeks.
#[derive(Drop)]
struct FragmentSearch<'doc> {
    alloc: Global,
    document: &'doc ExecutableDocument,
    root: &'doc Name,
}

impl<'doc> FragmentSearch<'doc> {
    /// Searches the fragments that are spread in a set, at any depth, but no name again that was seen.
    /// The search ends where a spread leads back to the root, or the path is full.
    #[cycle(search)]
    fn search_set(
        &self,
        set: &'doc SelectionSet,
        path: &mut RecursionStack,
        seen: &mut IndexSet<&'doc Name, HashSeed>,
    ) -> Result<(), CycleError<FragmentSpread>>
        requires { BeginsAt self.now path.old seen.old.keys }
        ensures searches { SearchesFor self.now (SpreadIn set.now) path.old seen.old.keys seen.new.keys result }
        ensures path { OnOk result (path_of path.new ≡ path_of path.old) }
        ensures limit { OnOk result (path_limit path.new ≡ path_limit path.old) }
    {
        for selection in &set.selections {
            self.search_selection(selection, path, seen)?;
        }
        Ok(())
    }

    /// Searches the fragments that are spread in a selection, at any depth, but no name again that was seen. The search ends if a
    /// spread leads back to the root, or if the path is full.
    #[cycle(search)]
    fn search_selection(
        &self,
        selection: &'doc Selection,
        path: &mut RecursionStack,
        seen: &mut IndexSet<&'doc Name, HashSeed>,
    ) -> Result<(), CycleError<FragmentSpread>>
        requires { BeginsAt self.now path.old seen.old.keys }
        ensures searches { SearchesFor self.now (SpreadAt selection.now) path.old seen.old.keys seen.new.keys result }
        ensures path { OnOk result (path_of path.new ≡ path_of path.old) }
        ensures limit { OnOk result (path_limit path.new ≡ path_limit path.old) }
    {
        match selection {
            Selection::Field(field) => self.search_set(&field.value.selection_set, path, seen),
            Selection::InlineFragment(inline) => {
                self.search_set(&inline.value.selection_set, path, seen)
            }
            Selection::FragmentSpread(spread) => self.search_spread(spread, path, seen),
        }
    }

    /// Searches the fragment that a spread names, if the name was not seen: marks the name, and searches the set of the fragment
    /// if it is defined. The search ends if a spread leads back to the root, or if the path is full.
    #[cycle(search)]
    fn search_spread(
        &self,
        spread: &'doc Node<FragmentSpread>,
        path: &mut RecursionStack,
        seen: &mut IndexSet<&'doc Name, HashSeed>,
    ) -> Result<(), CycleError<FragmentSpread>>
        requires { BeginsAt self.now path.old seen.old.keys }
        ensures searches { SearchesFor self.now (λ p. p ≡ spread.now) path.old seen.old.keys seen.new.keys result }
        ensures path { OnOk result (path_of path.new ≡ path_of path.old) }
        ensures limit { OnOk result (path_limit path.new ≡ path_limit path.old) }
    {
        let name = &spread.value.fragment_name;
        let leads_back = name == self.root;
        if leads_back {
            return Err(trace_step(CycleError::Recursed(Vec::new(self.alloc)), spread));
        }
        // Each name on the path but the root's is marked, so what is there is passed over too.
        if !mark(seen, name)? {
            return Ok(());
        }
        let Some(fragment) = self.document.fragments.get(name) else {
            return Ok(());
        };
        path.enter(name)?;
        match self.search_set(&fragment.value.selection_set, path, seen) {
            Ok(()) => {
                path.leave();
                Ok(())
            }
            Err(error) => Err(trace_step(error, spread)),
        }
    }
}
