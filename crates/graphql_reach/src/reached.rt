//! The fragments that a selection set reaches by spreads.

ghost use Rattle.std.specs.Prelude.{◌≡◌, IfOk, OnOk};
ghost use Rattle.graphql_documents.specs.Selections.{fragments_of};
ghost use Rattle.graphql_reach.specs.Written.{SelectionHas, SetHas};
ghost use Rattle.graphql_reach.specs.Reached.{AddsSpreads, ReachesNames, SpreadsInFragment, SpreadsName, names_at};

use graphql_documents::documents::{ExecutableDocument, Selection, SelectionSet};
use graphql_hash_seeds::HashSeed;
use graphql_nodes::{Name, ValidationError};
use indexmap::IndexSet;
use std::alloc::Global;

/// The names of the defined fragments that a set reaches by spreads, in its own selections or in those of a fragment that it
/// reaches, at any depth: each once, in the order in which they are found. The only error is a failed allocation.
///
/// Specification: 2.8 Fragments.
pub fn reached_fragments<'doc>(
    alloc: Global,
    document: &'doc ExecutableDocument,
    set: &'doc SelectionSet,
) -> Result<IndexSet<&'doc Name, HashSeed>, ValidationError>
    ensures { IfOk result (λ names. ReachesNames (fragments_of document.now) set.now (names_at names.keys)) }
{
    let mut reached = Reached {
        names: IndexSet::with_hasher(alloc, document.hash_seed()),
        pending: Vec::new(alloc),
    };
    if document.fragments.is_empty() {
        return Ok(reached.names);
    }
    reached.add_in_set(document, set)?;
    while let Some(name) = reached.pending.pop() {
        reached.add_in_fragment(document, name)?;
    }
    Ok(reached.names)
}

/// The names of the fragments that were reached, and those of them whose own spreads were not followed yet.
#[derive(Drop)]
struct Reached<'doc> {
    names: IndexSet<&'doc Name, HashSeed>,
    pending: Vec<&'doc Name>,
}

impl<'doc> Reached<'doc> {
    /// Adds what the fragment of this name spreads.
    fn add_in_fragment(
        &mut self,
        document: &'doc ExecutableDocument,
        name: &Name,
    ) -> Result<(), ValidationError>
        ensures { OnOk result (AddsSpreads document.now (SpreadsInFragment (fragments_of document.now) name.now) self.old self.new) }
    {
        match document.fragments.get(name) {
            Some(fragment) => self.add_in_set(document, &fragment.value.selection_set),
            None => Ok(()),
        }
    }

    /// Adds what the selections of a set spread, at any depth.
    #[cycle(selection)]
    fn add_in_set(
        &mut self,
        document: &'doc ExecutableDocument,
        set: &'doc SelectionSet,
    ) -> Result<(), ValidationError>
        ensures { OnOk result (AddsSpreads document.now (SetHas SpreadsName set.now) self.old self.new) }
    {
        for selection in &set.selections {
            self.add_in_selection(document, selection)?;
        }
        Ok(())
    }

    #[cycle(selection)]
    fn add_in_selection(
        &mut self,
        document: &'doc ExecutableDocument,
        selection: &'doc Selection,
    ) -> Result<(), ValidationError>
        ensures { OnOk result (AddsSpreads document.now (SelectionHas SpreadsName selection.now) self.old self.new) }
    {
        match selection {
            Selection::Field(field) => self.add_in_set(document, &field.value.selection_set),
            Selection::FragmentSpread(spread) => {
                self.add_spread(document, &spread.value.fragment_name)
            }
            Selection::InlineFragment(fragment) => {
                self.add_in_set(document, &fragment.value.selection_set)
            }
        }
    }

    /// Adds the name of a fragment, if it is defined and was not reached before.
    fn add_spread(
        &mut self,
        document: &ExecutableDocument,
        name: &'doc Name,
    ) -> Result<(), ValidationError>
        ensures { OnOk result (AddsSpreads document.now (λ spread. spread ≡ name.now) self.old self.new) }
    {
        if !document.fragments.contains_key(name) {
            return Ok(());
        }
        if self.names.insert(name)? {
            self.pending.push(name)?;
        }
        Ok(())
    }
}
