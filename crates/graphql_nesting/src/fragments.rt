//! How many levels each fragment of a document has.

ghost use Rattle.std.specs.Prelude.{◌≡◌, ◌++◌, ◌∷◌, [], ◌<◌, All, IfOk, MatchOption, None, OnOk, length, map, slice_set};
ghost use Rattle.std.specs.List.{enumerate_from};
ghost use Rattle.graphql_documents.specs.Selections.{fragments_of};
ghost use Rattle.graphql_documents.specs.declared.documents.executables.ExecutableDocument.{ExecutableDocument};
ghost use Rattle.graphql_documents.specs.declared.documents.executables.SelectionSet.{SelectionSet};
ghost use Rattle.graphql_nesting.specs.Nesting.{HasLevels, IsEndless};
ghost use Rattle.graphql_nesting.specs.Spreads.{known_at, waiting_at, NothingKnown, PutsBehind};
ghost use Rattle.graphql_nesting.specs.Written.{AreWrittenLevels};
ghost use Rattle.graphql_nesting.specs.Search.{AreListed, AreSettled, Searches, start_of, work};

use crate::spreads::{FragmentLevels, WaitingFragment, go_on, spread_at};
use crate::written::{WrittenLevels, written_levels};
use graphql_documents::documents::{ExecutableDocument, Fragment};
use graphql_nodes::{Node, ValidationError};
use std::alloc::Global;

/// A fragment, and what is written in it.
#[derive(Drop)]
pub(crate) struct FragmentNesting<'doc> {
    pub(crate) fragment: &'doc Node<Fragment>,
    pub(crate) written: WrittenLevels,
}

/// The fragments of a document, in order, and the levels of each, as far as they are known.
#[derive(Drop)]
pub(crate) struct FragmentNestings<'doc> {
    pub(crate) fragments: Vec<FragmentNesting<'doc>>,
    pub(crate) known: Vec<FragmentLevels>,
}

/// The fragments of a document with their levels; those that are awaited at the end are endless. Each spread is gone through
/// once. Fails where an allocation does, or where a number of levels does not fit.
pub(crate) fn find_fragment_levels(
    alloc: Global,
    document: &ExecutableDocument,
) -> Result<FragmentNestings<'_>, ValidationError>
    ensures { IfOk result (AreSettled document.now) }
{
    let mut found = FragmentNestings::begin(alloc, document)?;
    let mut ready = found.all_fragments(alloc)?;
    while let Some(waiting) = ready.pop() {
        found.look_at(&mut ready, waiting)?;
    }
    Ok(found)
}

impl<'doc> FragmentNestings<'doc> {
    /// What is written in each fragment; no levels are known yet.
    fn begin(
        alloc: Global,
        document: &'doc ExecutableDocument,
    ) -> Result<FragmentNestings<'doc>, ValidationError>
        ensures listed { IfOk result (λ found. AreListed document.now found.fragments.items) }
        ensures count { IfOk result (λ found. length found.known.items ≡ length found.fragments.items) }
        ensures awaited { IfOk result (λ found. All NothingKnown found.known.items) }
    {
        let mut fragments = Vec::new(alloc);
        let mut known = Vec::new(alloc);
        for fragment in document.fragments.values() {
            let written = written_levels(alloc, document, &fragment.value.selection_set)?;
            fragments.push(FragmentNesting { fragment, written })?;
            known.push(FragmentLevels::Awaited(Vec::new(alloc)))?;
        }
        Ok(FragmentNestings { fragments, known })
    }

    /// Each fragment, before its first spread.
    fn all_fragments(&self, alloc: Global) -> Result<Vec<WaitingFragment>, ValidationError>
        ensures { IfOk result (λ all. all.items ≡ map (λ p. start_of p.0 p.1) (enumerate_from 0 self.now.fragments.items)) }
    {
        let all = self
            .fragments
            .iter()
            .enumerate()
            .map(|(fragment, nesting)| WaitingFragment {
                fragment,
                progress: nesting.written.start(),
            })
            .collect(alloc)?;
        Ok(all)
    }

    /// Goes on with a fragment: to the next one that it waits for, or to its levels, and then those that wait for it are ready.
    fn look_at(
        &mut self,
        ready: &mut Vec<WaitingFragment>,
        waiting: WaitingFragment,
    ) -> Result<(), ValidationError>
        requires { (document : ExecutableDocument) × Searches document self.old.fragments.items self.old.known.items (ready.old.items ++ waiting ∷ []) }
        ensures fragments { self.new.fragments ≡ self.old.fragments }
        ensures searches { (document : ExecutableDocument) → Searches document self.old.fragments.items self.old.known.items (ready.old.items ++ waiting ∷ []) →
            OnOk result (Searches document self.new.fragments.items self.new.known.items ready.new.items) }
        ensures less { OnOk result (work self.new.known.items ready.new.items < work self.old.known.items (ready.old.items ++ waiting ∷ [])) }
    {
        let spreads = self.fragments[waiting.fragment].written.spreads.as_slice();
        let progress = go_on(&self.known, spreads, waiting.progress)?;
        match spread_at(spreads, progress.next) {
            None => self.settle(ready, waiting.fragment, progress.levels),
            Some(spread) => {
                let fragment = waiting.fragment;
                self.wait(spread.fragment, WaitingFragment { fragment, progress })
            }
        }
    }

    /// These are the levels of a fragment: the fragments that wait for it can go on.
    fn settle(
        &mut self,
        ready: &mut Vec<WaitingFragment>,
        fragment: usize,
        levels: usize,
    ) -> Result<(), ValidationError>
        requires { fragment < length self.old.known.items }
        ensures fragments { self.new.fragments ≡ self.old.fragments }
        ensures known { OnOk result (self.new.known.items ≡ slice_set self.old.known.items fragment (FragmentLevels.Known levels)) }
        ensures ready { OnOk result (ready.new.items ≡ ready.old.items ++ waiting_at self.old.known.items fragment) }
    {
        ready.extend_from_slice(self.waiting_for(fragment))?;
        self.known[fragment] = FragmentLevels::Known(levels);
        Ok(())
    }

    /// The fragments that wait for the levels of a fragment.
    fn waiting_for(&self, fragment: usize) -> &[WaitingFragment]
        ensures { result.now ≡ waiting_at self.now.known.items fragment }
    {
        match self.known.get(fragment) {
            Some(FragmentLevels::Awaited(waiting)) => waiting,
            _ => &[],
        }
    }

    /// Lets a fragment wait for the levels of another one.
    fn wait(&mut self, fragment: usize, waiting: WaitingFragment) -> Result<(), ValidationError>
        requires within { fragment < length self.old.known.items }
        requires awaited { known_at self.old.known.items fragment ≡ None }
        ensures fragments { self.new.fragments ≡ self.old.fragments }
        ensures known { OnOk result (PutsBehind self.old.known.items self.new.known.items fragment waiting) }
    {
        match &mut self.known[fragment] {
            FragmentLevels::Known(_) => Ok(()),
            FragmentLevels::Awaited(all) => {
                all.push(waiting)?;
                Ok(())
            }
        }
    }

    /// The levels of a fragment, if they are known.
    pub(crate) fn levels_at(&self, fragment: usize) -> Option<usize>
        ensures { result ≡ known_at self.now.known.items fragment }
    {
        match self.known.get(fragment) {
            Some(FragmentLevels::Known(levels)) => Some(*levels),
            _ => None,
        }
    }

    /// The levels of a definition in which this is written; none where it is endless.
    pub(crate) fn levels_of(
        &self,
        written: &WrittenLevels,
    ) -> Result<Option<usize>, ValidationError>
        ensures { (document : ExecutableDocument) (set : SelectionSet) → AreSettled document self.now → AreWrittenLevels document set written.now →
            IfOk result (λ found. MatchOption found (IsEndless (fragments_of document) set) (HasLevels (fragments_of document) set)) }
    {
        let end = go_on(&self.known, &written.spreads, written.start())?;
        if end.next < written.spreads.len() {
            Ok(None)
        } else {
            Ok(Some(end.levels))
        }
    }
}
