//! The fields of sets and of the fragments in them, within a bound on the selections that are visited.

ghost use Rattle.std.specs.Prelude.{◌≡◌, ◌+◌, ◌*◌, ◌≤◌, ◌∷◌, [], IfOk, IfSome, IsTrue, OnOk, length, map};
ghost use Rattle.graphql_specification.specs.MergedSets.{Expansion};
ghost use Rattle.graphql_nodes.specs.Names.{NameText};
ghost use Rattle.graphql_documents.specs.Selections.{selections_of};
ghost use Rattle.graphql_documents.specs.declared.documents.executables.Selection.TheVariants as kind;
ghost use Rattle.graphql_merging.specs.ExpansionSteps.{Expands, fragments_in};
ghost use Rattle.graphql_field_conflicts.specs.FieldSelections.{listed};
ghost use Rattle.graphql_lone_fields.specs.CountedExpansions.{expanding};
ghost use Rattle.graphql_lone_fields.specs.CountedSteps.{Paid};

use graphql_documents::documents::{Fragment, FragmentSpread, Selection, SelectionSet};
use graphql_field_conflicts::field_selections::FieldSelection;
use graphql_hash_seeds::HashSeed;
use graphql_nodes::{Name, NamedType, Node, ValidationError};
use graphql_steps::Steps;
use indexmap::{IndexMap, IndexSet};
use std::alloc::Global;
use std::collections::VecDeque;
use std::sync::ledger::Ledger;

/// Lists the fields of a set, and those of the fragments in it, as `expand_selections` does. Each visit of a selection, be
/// it a field, a spread or an inline fragment, is work; the answer is `None` if more is needed than is left. The only error is a
/// failed allocation.
///
/// Specification: 5.3.2 Field Selection Merging, "including visiting fragments and inline fragments".
pub(crate) fn expand_within<'doc, L: Ledger>(
    alloc: Global,
    fragments: &'doc IndexMap<Name, Node<Fragment>, HashSeed>,
    set: &'doc SelectionSet,
    left: &mut usize,
    steps: &mut Steps<L>,
) -> Result<Option<Vec<FieldSelection<'doc>>>, ValidationError>
    ensures fields { IfOk result (λ found. IfSome found (λ fields.
        Expansion (fragments_in fragments.now) (set.now ∷ []) (listed fields.items))) }
    // For each field that is listed there are nineteen steps to spare.
    ensures spare { IfOk result (λ found. IfSome found (λ fields.
        Paid left.old (steps.old + 1) left.new (steps.new + 19 * length fields.items) 0)) }
    ensures cost { Paid left.old steps.old left.new steps.new 1 }
{
    let mut expansion = CountedExpansion {
        fragments,
        fields: Vec::new(alloc),
        visited: IndexSet::with_hasher(alloc, *fragments.hasher()),
        queue: VecDeque::new(alloc),
    };
    let mut next = Some(set);
    while let Some(set) = next {
        steps.take(1);
        if !spend(left, set.selections.len()) {
            return Ok(None);
        }
        expansion.expand_set(set, steps)?;
        next = expansion.queue.pop_front();
    }
    Ok(Some(expansion.fields))
}

/// Whether so much work is left; it is spent then.
fn spend(left: &mut usize, work: usize) -> bool
    ensures spent { IsTrue result → left.new + work ≡ left.old }
    ensures within { left.new ≤ left.old }
{
    if *left < work {
        return false;
    }
    *left -= work;
    true
}

/// What was found so far: the fields, the names of the fragments that were visited, and the sets whose fields
/// are still to be listed.
#[derive(Drop)]
struct CountedExpansion<'doc> {
    fragments: &'doc IndexMap<Name, Node<Fragment>, HashSeed>,
    fields: Vec<FieldSelection<'doc>>,
    visited: IndexSet<&'doc Name, HashSeed>,
    queue: VecDeque<&'doc SelectionSet>,
}

impl<'doc> CountedExpansion<'doc> {
    /// Lists the fields of a set, and puts the sets of the fragments in it behind the others.
    fn expand_set<L: Ledger>(
        &mut self,
        set: &'doc SelectionSet,
        steps: &mut Steps<L>,
    ) -> Result<(), ValidationError>
        ensures expands { OnOk result (Expands (expanding self.old) (expanding self.new) set.now.ty (selections_of set.now)) }
        ensures steps { steps.new ≤ steps.old + length (selections_of set.now) }
    {
        for selection in &set.selections {
            steps.take(1);
            self.expand_selection(&set.ty, selection)?;
        }
        Ok(())
    }

    /// Expands one selection in a set of this type: lists a field, or puts the set of a fragment after the others.
    fn expand_selection(
        &mut self,
        parent_type: &'doc NamedType,
        selection: &'doc Selection,
    ) -> Result<(), ValidationError>
        ensures { OnOk result (Expands (expanding self.old) (expanding self.new) parent_type.now (selection.now ∷ [])) }
    {
        match selection {
            Selection::Field(field) => Ok(self.fields.push(FieldSelection { parent_type, field })?),
            Selection::FragmentSpread(spread) => self.expand_spread(spread),
            Selection::InlineFragment(inline) => {
                Ok(self.queue.push_back(&inline.value.selection_set)?)
            }
        }
    }

    /// Puts the set of the fragment that a spread names after the others, if it is defined and was not visited before.
    fn expand_spread(&mut self, spread: &'doc Node<FragmentSpread>) -> Result<(), ValidationError>
        ensures { OnOk result ((parent : NameText) → Expands (expanding self.old) (expanding self.new) parent (kind.FragmentSpread spread.now ∷ [])) }
    {
        let name = &spread.value.fragment_name;
        if self.visited.insert(name)? {
            if let Some(fragment) = self.fragments.get(name) {
                self.queue.push_back(&fragment.value.selection_set)?;
            }
        }
        Ok(())
    }
}
