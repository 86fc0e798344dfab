//! The fields of sets, with those of the fragments in them.

ghost use Rattle.std.specs.Prelude.{◌∷◌, [], IfOk, OnOk, map};
ghost use Rattle.graphql_specification.specs.MergedSets.{Expansion};
ghost use Rattle.graphql_nodes.specs.Names.{NameText};
ghost use Rattle.graphql_documents.specs.Selections.{selections_of};
ghost use Rattle.graphql_documents.specs.declared.documents.executables.Selection.TheVariants as kind;
ghost use Rattle.graphql_merging.specs.ExpansionSteps.{Expands, expanding, fragments_in};
ghost use Rattle.graphql_field_conflicts.specs.FieldSelections.{listed};

use graphql_documents::documents::{Fragment, FragmentSpread, Selection, SelectionSet};
use graphql_field_conflicts::field_selections::FieldSelection;
use graphql_hash_seeds::HashSeed;
use graphql_nodes::{Name, NamedType, Node, ValidationError};
use indexmap::{IndexMap, IndexSet};
use std::alloc::Global;
use std::collections::VecDeque;

/// Lists the fields of these sets, and those of the fragments in them, each with the type of the set in which
/// it is. The fields of one set are together, in order; the sets of its fragments come behind the sets that
/// are still to be listed. Each named fragment is visited once, and an undefined one gives nothing. The only
/// error is a failed allocation.
///
/// Specification: 5.3.2 Field Selection Merging, "including visiting fragments and inline fragments".
pub fn expand_selections<'doc>(
    alloc: Global,
    fragments: &'doc IndexMap<Name, Node<Fragment>, HashSeed>,
    sets: &[&'doc SelectionSet],
) -> Result<Vec<FieldSelection<'doc>>, ValidationError>
    ensures { IfOk result (λ fields. Expansion (fragments_in fragments.now) (map (λ set. set.now) sets.now) (listed fields.items)) }
{
    let sets: Vec<&SelectionSet> = sets.iter().copied().collect(alloc)?;
    let mut expansion = FieldExpansion {
        fragments,
        fields: Vec::new(alloc),
        visited: IndexSet::with_hasher(alloc, *fragments.hasher()),
        queue: VecDeque::from(sets),
    };
    while let Some(set) = expansion.queue.pop_front() {
        expansion.expand_set(set)?;
    }
    Ok(expansion.fields)
}

/// What was found so far: the fields, the names of the fragments that were visited, and the sets whose fields
/// are still to be listed.
#[derive(Drop)]
struct FieldExpansion<'doc> {
    fragments: &'doc IndexMap<Name, Node<Fragment>, HashSeed>,
    fields: Vec<FieldSelection<'doc>>,
    visited: IndexSet<&'doc Name, HashSeed>,
    queue: VecDeque<&'doc SelectionSet>,
}

impl<'doc> FieldExpansion<'doc> {
    /// Lists the fields of a set, and puts the sets of the fragments in it behind the others.
    fn expand_set(&mut self, set: &'doc SelectionSet) -> Result<(), ValidationError>
        ensures { OnOk result (Expands (expanding self.old) (expanding self.new) set.now.ty (selections_of set.now)) }
    {
        for selection in &set.selections {
            self.expand_selection(&set.ty, selection)?;
        }
        Ok(())
    }

    /// Expands one selection in a set of this type: lists a field, or puts the set of a fragment after the
    /// others.
    fn expand_selection(
        &mut self,
        parent_type: &'doc NamedType,
        selection: &'doc Selection,
    ) -> Result<(), ValidationError>
        ensures { OnOk result (Expands (expanding self.old) (expanding self.new) parent_type.now (selection.now ∷ [])) }
    {
        match selection {
            Selection::Field(field) => Ok(self.fields.push(FieldSelection { parent_type, field })?),
            Selection::FragmentSpread(spread) => self.expand_spread(spread),
            Selection::InlineFragment(inline) => {
                Ok(self.queue.push_back(&inline.value.selection_set)?)
            }
        }
    }

    /// Puts the set of the fragment that a spread names after the others, if it is defined and was not
    /// visited before.
    fn expand_spread(&mut self, spread: &'doc Node<FragmentSpread>) -> Result<(), ValidationError>
        ensures { OnOk result ((parent : NameText) → Expands (expanding self.old) (expanding self.new) parent (kind.FragmentSpread spread.now ∷ [])) }
    {
        let name = &spread.value.fragment_name;
        if self.visited.insert(name)? {
            if let Some(fragment) = self.fragments.get(name) {
                self.queue.push_back(&fragment.value.selection_set)?;
            }
        }
        Ok(())
    }
}
