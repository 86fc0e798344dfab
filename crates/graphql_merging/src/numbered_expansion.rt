//! The fields of sets, with those of the fragments in them, and with the numbers of the contents of each.

ghost use Rattle.std.specs.Prelude.{◌≡◌, ◌≤◌, ◌+◌, ◌*◌, ◌∷◌, [], All, IfErr, IfOk, OnOk, length, map};
ghost use Rattle.graphql_contents.specs.Contents.{HasNumber};
ghost use Rattle.graphql_contents.specs.Documents.{HasFragments, IsNumberedSet, contents_in, document_in};
ghost use Rattle.graphql_specification.specs.MergedSets.{Expansion};
ghost use Rattle.graphql_nodes.specs.Names.{NameText};
ghost use Rattle.graphql_documents.specs.Selections.{fragments_of, selections_of};
ghost use Rattle.graphql_documents.specs.declared.documents.executables.Selection.TheVariants as kind;
ghost use Rattle.graphql_merging.specs.ExpansionSteps.{Expands};
ghost use Rattle.graphql_merging.specs.NumberedFields.{AreNumberedIn, listed};
ghost use Rattle.graphql_merging.specs.NumberedExpansions.{HasNumbers, expanding};
ghost use Rattle.graphql_merging.specs.Works.{IsUnbounded, Pays};
ghost use Rattle.graphql_merging.specs.declared.work.Interruption.TheVariants.{OutOfMemory};

use super::numbered_fields::NumberedField;
use super::work::{Interruption, Work};
use graphql_contents::{NumberedDocument, NumberedSet};
use graphql_documents::documents::{FragmentSpread, Selection};
use graphql_hash_seeds::HashSeed;
use graphql_nodes::{Name, NamedType, Node, ValidationError};
use graphql_steps::Steps;
use indexmap::IndexSet;
use std::alloc::Global;
use std::collections::VecDeque;
use std::sync::ledger::Ledger;

/// Lists the fields of these sets as `expand_selections` does, each with the number of its contents. Each selection of a set is
/// counted before the set is gone through. The call is interrupted if there are more of them than the work allows.
pub(crate) fn expand_sets<'n, 'doc, L: Ledger>(
    alloc: Global,
    numbered: &'n NumberedDocument<'doc>,
    work: &mut Work,
    steps: &mut Steps<L>,
    sets: Vec<NumberedSet<'n, 'doc>>,
) -> Result<Vec<NumberedField<'doc>>, Interruption>
    requires fragments { HasFragments numbered.now }
    requires sets { All (IsNumberedSet (contents_in numbered.now)) sets.items }
    ensures fields { IfOk result (λ fields. Expansion (fragments_of (document_in numbered.now)) (map (λ set. set.set.now) sets.entry.items) (listed fields.items)) }
    ensures numbers { IfOk result (λ fields. AreNumberedIn (contents_in numbered.now) fields.items) }
    ensures unbounded { IsUnbounded work.old → IsUnbounded work.new × IfErr result (λ e. e ≡ OutOfMemory) }
    // For each field that is listed there are 25 steps to spare.
    ensures spare { IfOk result (λ fields.
        Pays work.old work.new (steps.old + length sets.entry.items) (steps.new + 25 * length fields.items) 0) }
    ensures cost { Pays work.old work.new steps.old steps.new (length sets.entry.items) }
{
    let mut expansion = NumberedExpansion {
        numbered,
        fields: Vec::new(alloc),
        visited: IndexSet::with_hasher(alloc, numbered.hash_seed()),
        queue: VecDeque::from(sets),
    };
    while let Some(set) = expansion.queue.pop_front() {
        steps.take(1);
        work.count(set.set.selections.len())?;
        expansion.expand_set(set, steps)?;
    }
    Ok(expansion.fields)
}

/// What was found so far: the fields, the names of the fragments that were visited, and the sets whose fields
/// are still to be listed.
#[derive(Drop)]
struct NumberedExpansion<'n, 'doc> {
    numbered: &'n NumberedDocument<'doc>,
    fields: Vec<NumberedField<'doc>>,
    visited: IndexSet<&'doc Name, HashSeed>,
    queue: VecDeque<NumberedSet<'n, 'doc>>,
}

impl<'n, 'doc> NumberedExpansion<'n, 'doc> {
    /// Lists the fields of a set, and puts the sets of the fragments in it behind the others.
    fn expand_set<L: Ledger>(
        &mut self,
        set: NumberedSet<'n, 'doc>,
        steps: &mut Steps<L>,
    ) -> Result<(), ValidationError>
        requires fragments { HasFragments self.old.numbered.now }
        requires numbers { HasNumbers (contents_in self.old.numbered.now) self.old }
        requires set { IsNumberedSet (contents_in self.old.numbered.now) set }
        ensures document { self.new.numbered ≡ self.old.numbered }
        ensures expands { OnOk result (Expands (expanding self.old) (expanding self.new) set.entry.set.now.ty (selections_of set.entry.set.now)) }
        ensures numbers { OnOk result (HasNumbers (contents_in self.old.numbered.now) self.new) }
        ensures steps { steps.new ≤ steps.old + length (selections_of set.entry.set.now) }
    {
        for (index, selection) in set.set.selections.iter().enumerate() {
            steps.take(1);
            self.expand_selection(&set.set.ty, selection, set.contents[index])?;
        }
        Ok(())
    }

    /// Expands one selection in a set of this type, whose contents have this number: lists a field, or puts the set of a
    /// fragment after the others.
    fn expand_selection(
        &mut self,
        parent_type: &'doc NamedType,
        selection: &'doc Selection,
        content: usize,
    ) -> Result<(), ValidationError>
        requires fragments { HasFragments self.old.numbered.now }
        requires numbers { HasNumbers (contents_in self.old.numbered.now) self.old }
        requires content { HasNumber (contents_in self.old.numbered.now) selection.now content }
        ensures document { self.new.numbered ≡ self.old.numbered }
        ensures expands { OnOk result (Expands (expanding self.old) (expanding self.new) parent_type.now (selection.now ∷ [])) }
        ensures numbers { OnOk result (HasNumbers (contents_in self.old.numbered.now) self.new) }
    {
        match selection {
            Selection::Field(field) => Ok(
                self.fields.push(NumberedField {
                    parent_type,
                    content,
                    field,
                })?,
            ),
            Selection::FragmentSpread(spread) => self.expand_spread(spread),
            Selection::InlineFragment(inline) => Ok(
                self.queue.push_back(NumberedSet {
                    set: &inline.value.selection_set,
                    contents: self.numbered.nested(content),
                })?,
            ),
        }
    }

    /// Puts the set of the fragment that a spread names after the others, if it is defined and was not visited before.
    fn expand_spread(&mut self, spread: &'doc Node<FragmentSpread>) -> Result<(), ValidationError>
        requires fragments { HasFragments self.old.numbered.now }
        requires numbers { HasNumbers (contents_in self.old.numbered.now) self.old }
        ensures document { self.new.numbered ≡ self.old.numbered }
        ensures expands { OnOk result ((parent : NameText) → Expands (expanding self.old) (expanding self.new) parent (kind.FragmentSpread spread.now ∷ [])) }
        ensures numbers { OnOk result (HasNumbers (contents_in self.old.numbered.now) self.new) }
    {
        let name = &spread.value.fragment_name;
        if self.visited.insert(name)? {
            if let Some(set) = self.numbered.fragment_set(name) {
                self.queue.push_back(set)?;
            }
        }
        Ok(())
    }
}
