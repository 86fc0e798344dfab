//! The sets of a document by numbers, so that a pair of sets is a pair of numbers.

ghost use Rattle.std.specs.Prelude.{◌≡◌, ◌+◌, ◌*◌, ◌≤◌, ◌++◌, ◌∷◌, [], All, IfOk, List, OnOk, Some, filter_map, length, map, slice_get, vec_len};
ghost use Rattle.graphql_documents.specs.Selections.{selections_of};
ghost use Rattle.graphql_documents.specs.declared.documents.executables.Selection.{Selection};
ghost use Rattle.graphql_merging.specs.ExpansionSteps.{fragments_in};
ghost use Rattle.graphql_pair_merging.specs.DocumentSizes.{size_of};
ghost use Rattle.graphql_pair_merging.specs.NumberedSets.{AreArgumentsNumbered, AreNumbered, Begins, Describes, HaveArgumentNumbers, operation_sets, sets_among, sets_at, written_set};
ghost use Rattle.graphql_value_numbers.specs.Numbers.{Grows};
ghost use Rattle.graphql_value_numbers.specs.Tables.{shapes_of};

use graphql_documents::documents::{Fragment, Operation, Selection, SelectionSet};
use graphql_field_conflicts::field_selections::FieldSelection;
use graphql_hash_seeds::HashSeed;
use graphql_nodes::{Name, Node, ValidationError};
use graphql_steps::Steps;
use graphql_value_numbers::ValueNumbers;
use indexmap::IndexMap;
use std::alloc::Global;
use std::sync::ledger::Ledger;

/// A field of a numbered set, the number of its own set, and that of its arguments: fields of one document have the same arguments
/// where these numbers are equal.
#[derive(Clone, Copy, Debug)]
pub(crate) struct NumberedField<'doc> {
    pub(crate) field: FieldSelection<'doc>,
    pub(crate) set: usize,
    pub(crate) arguments: usize,
}

impl<'doc> NumberedField<'doc> {
    ghost use Rattle.std.specs.Prelude.{◌↔◌, ◌≢◌, IsTrue};
    ghost use Rattle.graphql_specification.specs.Merging.{set_of};
    ghost use Rattle.graphql_pair_merging.specs.DocumentSizes.{size_of};
    ghost use Rattle.graphql_pair_merging.specs.NumberedSets.{field_of};

    /// Whether there is anything in the field's set.
    pub(crate) fn selects_something(&self) -> bool
        ensures { IsTrue result ↔ (selections_of (set_of (field_of self.now)) ≢ []) }
    {
        !self.field.field.value.selection_set.selections.is_empty()
    }
}

/// A set: its fields, and the numbers of the sets of the fragments in it.
#[derive(Debug, Drop)]
pub(crate) struct NumberedSet<'doc> {
    pub(crate) set: &'doc SelectionSet,
    pub(crate) fields: Vec<NumberedField<'doc>>,
    pub(crate) fragments: Vec<usize>,
}

/// Sets at their numbers, and the numbers of those of operations.
#[derive(Debug, Drop)]
pub(crate) struct NumberedDocument<'doc> {
    pub(crate) sets: Vec<NumberedSet<'doc>>,
    pub(crate) starts: Vec<usize>,
}

/// Numbers the sets of the fragments, in order, behind them those of the operations, and behind these all sets
/// that are written in them. The only error is a failed allocation. It takes a step for each fragment, operation, set and
/// selection.
pub(crate) fn number_sets<'doc, L: Ledger>(
    alloc: Global,
    fragments: &'doc IndexMap<Name, Node<Fragment>, HashSeed>,
    operations: &[&'doc Node<Operation>],
    steps: &mut Steps<L>,
) -> Result<NumberedDocument<'doc>, ValidationError>
    ensures sets { IfOk result (λ numbered. AreNumbered (fragments_in fragments.now) numbered.starts.items (operation_sets operations.now) numbered.sets.items) }
    ensures arguments { IfOk result (λ numbered. HaveArgumentNumbers numbered.sets.items) }
    ensures count { IfOk result (λ numbered. length numbered.sets.items ≤ size_of fragments.now (operation_sets operations.now)) }
    ensures starts { IfOk result (λ numbered. length numbered.starts.items ≤ size_of fragments.now (operation_sets operations.now)) }
    ensures cost { steps.new ≤ steps.old + 2 * size_of fragments.now (operation_sets operations.now) }
{
    let mut numbering = Numbering::begin(alloc, fragments, steps)?;
    let starts = numbering.number_operations(alloc, operations, steps)?;
    let mut numbered = Vec::new(alloc);
    while numbered.len() < numbering.sets.len() {
        steps.take(1);
        let set = numbering.sets[numbered.len()];
        let described = numbering.describe(alloc, set, steps)?;
        numbered.push(described)?;
    }
    Ok(NumberedDocument {
        sets: numbered,
        starts,
    })
}

/// The sets that have numbers: each is at its own. Beside them the numbers of values.
#[derive(Drop)]
struct Numbering<'doc> {
    fragments: &'doc IndexMap<Name, Node<Fragment>, HashSeed>,
    sets: Vec<&'doc SelectionSet>,
    values: ValueNumbers<'doc>,
}

impl<'doc> Numbering<'doc> {
    /// Numbers the sets of the fragments.
    fn begin<L: Ledger>(
        alloc: Global,
        fragments: &'doc IndexMap<Name, Node<Fragment>, HashSeed>,
        steps: &mut Steps<L>,
    ) -> Result<Numbering<'doc>, ValidationError>
        ensures fragments { IfOk result (λ numbering. numbering.fragments.now ≡ fragments.now) }
        ensures sets { IfOk result (λ numbering. sets_at numbering.sets.items ≡ sets_among fragments.now) }
        ensures cost { steps.new ≤ steps.old + length (sets_among fragments.now) }
    {
        let mut sets = Vec::new(alloc);
        for fragment in fragments.values() {
            steps.take(1);
            sets.push(&fragment.value.selection_set)?;
        }
        Ok(Numbering {
            fragments,
            sets,
            values: ValueNumbers::new(alloc, *fragments.hasher()),
        })
    }

    /// Gives the sets of these operations the next numbers, and lists the numbers.
    fn number_operations<L: Ledger>(
        &mut self,
        alloc: Global,
        operations: &[&'doc Node<Operation>],
        steps: &mut Steps<L>,
    ) -> Result<Vec<usize>, ValidationError>
        ensures fragments { self.new.fragments ≡ self.old.fragments }
        ensures sets { OnOk result (sets_at self.new.sets.items ≡ sets_at self.old.sets.items ++ operation_sets operations.now) }
        ensures numbers { IfOk result (λ numbers. map (slice_get (sets_at self.new.sets.items)) numbers.items ≡ map Some (operation_sets operations.now)) }
        ensures values { self.new.values ≡ self.old.values }
        ensures cost { steps.new ≤ steps.old + length operations.now }
    {
        let mut numbers = Vec::new(alloc);
        for operation in operations {
            steps.take(1);
            let number = self.number(&operation.value.selection_set)?;
            numbers.push(number)?;
        }
        Ok(numbers)
    }

    /// Lists what is in a set, and numbers the sets that are written in it.
    fn describe<L: Ledger>(
        &mut self,
        alloc: Global,
        set: &'doc SelectionSet,
        steps: &mut Steps<L>,
    ) -> Result<NumberedSet<'doc>, ValidationError>
        requires { Begins self.old.fragments.now (sets_at self.old.sets.items) }
        ensures fragments { self.new.fragments ≡ self.old.fragments }
        ensures set { IfOk result (λ described. described.set ≡ set.entry) }
        ensures sets { OnOk result (sets_at self.new.sets.items ≡
            sets_at self.old.sets.items ++ filter_map written_set (selections_of set.now)) }
        ensures described { IfOk result (Describes (fragments_in self.old.fragments.now) (sets_at self.new.sets.items) set.now.ty (selections_of set.now)) }
        ensures grows { Grows (shapes_of self.old.values) (shapes_of self.new.values) }
        ensures arguments { IfOk result (λ described. AreArgumentsNumbered (shapes_of self.new.values) described.fields.items) }
        ensures cost { steps.new ≤ steps.old + length (selections_of set.now) }
    {
        let mut described = NumberedSet {
            set,
            fields: Vec::new(alloc),
            fragments: Vec::new(alloc),
        };
        for selection in &set.selections {
            steps.take(1);
            self.add_selection(alloc, &mut described, selection)?;
        }
        Ok(described)
    }

    /// Lists one selection of a set, and numbers the set that is written in it, if there is one.
    fn add_selection(
        &mut self,
        alloc: Global,
        described: &mut NumberedSet<'doc>,
        selection: &'doc Selection,
    ) -> Result<(), ValidationError>
        requires { Begins self.old.fragments.now (sets_at self.old.sets.items) }
        ensures fragments { self.new.fragments ≡ self.old.fragments }
        ensures set { described.new.set ≡ described.old.set }
        ensures sets { OnOk result (sets_at self.new.sets.items ≡
            sets_at self.old.sets.items ++ filter_map written_set (selection.now ∷ [])) }
        ensures described { (done : List Selection) →
            Describes (fragments_in self.old.fragments.now) (sets_at self.old.sets.items) described.old.set.now.ty done described.old →
            OnOk result (Describes (fragments_in self.old.fragments.now) (sets_at self.new.sets.items) described.old.set.now.ty (done ++ selection.now ∷ []) described.new) }
        ensures grows { Grows (shapes_of self.old.values) (shapes_of self.new.values) }
        ensures arguments { AreArgumentsNumbered (shapes_of self.old.values) described.old.fields.items →
            OnOk result (AreArgumentsNumbered (shapes_of self.new.values) described.new.fields.items) }
    {
        match selection {
            Selection::Field(field) => {
                let parent_type = &described.set.ty;
                let set = self.number(&field.value.selection_set)?;
                let arguments = self.values.number_arguments(alloc, &field.value.arguments)?;
                let field = FieldSelection { parent_type, field };
                described.fields.push(NumberedField {
                    field,
                    set,
                    arguments,
                })?;
            }
            Selection::InlineFragment(inline) => {
                let number = self.number(&inline.value.selection_set)?;
                described.fragments.push(number)?;
            }
            Selection::FragmentSpread(spread) => {
                if let Some(number) = self.fragments.get_index_of(&spread.value.fragment_name) {
                    described.fragments.push(number)?;
                }
            }
        }
        Ok(())
    }

    /// Gives a set the next number.
    fn number(&mut self, set: &'doc SelectionSet) -> Result<usize, ValidationError>
        ensures fragments { self.new.fragments ≡ self.old.fragments }
        ensures sets { OnOk result (sets_at self.new.sets.items ≡ sets_at self.old.sets.items ++ set.now ∷ []) }
        ensures number { IfOk result (λ number. number ≡ length (sets_at self.old.sets.items)) }
        ensures values { self.new.values ≡ self.old.values }
    {
        let number = self.sets.len();
        self.sets.push(set)?;
        Ok(number)
    }
}
