//! Whether nothing has to be merged in operations.

ghost use Rattle.std.specs.Prelude.{◌≡◌, ◌+◌, ◌*◌, ◌<◌, ◌≤◌, ◌∷◌, [], All, IfOk, IsTrue, length};
ghost use Rattle.graphql_documents.specs.Selections.{fragments_of};
ghost use Rattle.graphql_specification.specs.Merging.{set_of};
ghost use Rattle.graphql_field_conflicts.specs.FieldSelections.{listed, selection_of};
ghost use Rattle.graphql_lone_fields.specs.CountedSteps.{Paid};
ghost use Rattle.graphql_lone_fields.specs.LoneFields.{HasLoneFields, HasLoneFieldsWithin};

use crate::counted_expansion::expand_within;
use crate::keys::have_lone_keys;
use graphql_documents::documents::{ExecutableDocument, Operation, SelectionSet};
use graphql_field_conflicts::field_selections::FieldSelection;
use graphql_nodes::{Node, ValidationError};
use graphql_steps::Steps;
use std::alloc::Global;
use std::marker::Brand;
use std::sync::ledger::{Blank, Ledger};

/// How many sets may be below one another.
const LEVELS: usize = 100;

/// Whether it is found that in none of these operations fields have to be merged: each response key of an operation's set, and
/// of the set of each field on the way down, is that of one field, or of equal leaves (`AreEqualLeaves`: fields of one name and
/// one type, without arguments and selections). Then all fields can merge (`lone_fields_can_merge`).
///
/// In a set of more than 16 fields, those of its fragments counted, equal leaves are not accepted. The search visits at most `most`
/// selections, counting each visit, and enters at most 100 nested sets that select something (`depth`). If an operation needs
/// more of either, the answer is no. The only error is a failed allocation. `have_lone_fields_in_steps`, which this calls,
/// bounds the number of steps.
///
/// Specification: 5.3.2 Field Selection Merging.
pub fn have_lone_fields(
    alloc: Global,
    document: &ExecutableDocument,
    operations: &[&Node<Operation>],
    most: usize,
) -> Result<bool, ValidationError>
    ensures lone { IfOk result (λ lone. IsTrue lone → All (λ o. HasLoneFields (fragments_of document.now) o.now.value.value.selection_set) operations.now) }
    ensures depth { IfOk result (λ lone. IsTrue lone → All (λ o. HasLoneFieldsWithin (fragments_of document.now) 100 o.now.value.value.selection_set) operations.now) }
{
    have_lone_fields_uncounted::<Brand>(alloc, document, operations, most, Blank::new(1))
}

/// Searches with a counter that nobody reads.
fn have_lone_fields_uncounted<L: Ledger>(
    alloc: Global,
    document: &ExecutableDocument,
    operations: &[&Node<Operation>],
    most: usize,
    blank: Blank,
) -> Result<bool, ValidationError>
    requires name { blank.name ≡ L.name }
    requires parts { blank.parts ≡ L.parts }
    requires some { 0 < blank.parts }
    ensures lone { IfOk result (λ lone. IsTrue lone → All (λ o. HasLoneFields (fragments_of document.now) o.now.value.value.selection_set) operations.now) }
    ensures depth { IfOk result (λ lone. IsTrue lone → All (λ o. HasLoneFieldsWithin (fragments_of document.now) 100 o.now.value.value.selection_set) operations.now) }
{
    let mut steps = Steps::<L>::new(blank);
    have_lone_fields_in_steps(alloc, document, operations, most, &mut steps)
}

/// Does what `have_lone_fields` does, and counts its steps: at most twenty for each selection that it may visit, and three for
/// each operation. A step is a visit of a selection, of a set in the queue, of a field or of the set of a field, a comparison of
/// two fields, or the insertion of a response key. Two fields are compared by their keys, and if these are the same, also by what
/// they hold of arguments and selections, and by their names and types.
pub fn have_lone_fields_in_steps<L: Ledger>(
    alloc: Global,
    document: &ExecutableDocument,
    operations: &[&Node<Operation>],
    most: usize,
    steps: &mut Steps<L>,
) -> Result<bool, ValidationError>
    ensures lone { IfOk result (λ lone. IsTrue lone → All (λ o. HasLoneFields (fragments_of document.now) o.now.value.value.selection_set) operations.now) }
    ensures depth { IfOk result (λ lone. IsTrue lone → All (λ o. HasLoneFieldsWithin (fragments_of document.now) 100 o.now.value.value.selection_set) operations.now) }
    ensures cost { steps.new ≤ steps.old + 20 * most + 3 * length operations.now }
{
    let mut search = LoneFieldSearch {
        alloc,
        document,
        left: most,
    };
    for operation in operations {
        steps.take(1);
        if !search.has_lone_fields(&operation.value.selection_set, LEVELS, steps)? {
            return Ok(false);
        }
    }
    Ok(true)
}

/// Where lone fields are sought, and how many selections the search may still visit.
#[derive(Drop)]
struct LoneFieldSearch<'doc> {
    alloc: Global,
    document: &'doc ExecutableDocument,
    left: usize,
}

impl<'doc> LoneFieldSearch<'doc> {
    /// Whether each response key of the set, and of the sets below, is that of one field, or of equal leaves.
    #[cycle(search)]
    fn has_lone_fields<L: Ledger>(
        &mut self,
        set: &'doc SelectionSet,
        levels: usize,
        steps: &mut Steps<L>,
    ) -> Result<bool, ValidationError>
        ensures document { self.new.document ≡ self.old.document }
        ensures lone { IfOk result (λ lone. IsTrue lone → HasLoneFieldsWithin (fragments_of self.old.document.now) levels set.now) }
        ensures cost { Paid self.old.left steps.old self.new.left steps.new 2 }
    {
        steps.take(1);
        if levels == 0 {
            return Ok(false);
        }
        let fragments = &self.document.fragments;
        let Some(fields) = expand_within(self.alloc, fragments, set, &mut self.left, steps)? else {
            return Ok(false);
        };
        if !have_lone_keys(self.alloc, self.document.hash_seed(), &fields, steps)? {
            return Ok(false);
        }
        self.have_lone_fields_below(&fields, levels - 1, steps)
    }

    /// Whether, in the set of each of these fields and in the sets below, each response key is that of one field, or of equal leaves.
    #[cycle(search)]
    fn have_lone_fields_below<L: Ledger>(
        &mut self,
        fields: &[FieldSelection<'doc>],
        levels: usize,
        steps: &mut Steps<L>,
    ) -> Result<bool, ValidationError>
        ensures document { self.new.document ≡ self.old.document }
        ensures lone { IfOk result (λ lone. IsTrue lone → All (λ x. HasLoneFieldsWithin (fragments_of self.old.document.now) levels (set_of x)) (listed fields.now)) }
        ensures cost { Paid self.old.left steps.old self.new.left steps.new (3 * length fields.now) }
    {
        for field in fields {
            steps.take(1);
            if !self.has_lone_fields_below(*field, levels, steps)? {
                return Ok(false);
            }
        }
        Ok(true)
    }

    /// Whether, in the set of a field and in the sets below, each response key is that of one field, or of equal leaves. The set may
    /// be empty.
    #[cycle(search)]
    fn has_lone_fields_below<L: Ledger>(
        &mut self,
        field: FieldSelection<'doc>,
        levels: usize,
        steps: &mut Steps<L>,
    ) -> Result<bool, ValidationError>
        ensures document { self.new.document ≡ self.old.document }
        ensures lone { IfOk result (λ lone. IsTrue lone → HasLoneFieldsWithin (fragments_of self.old.document.now) levels (set_of (selection_of field.entry))) }
        ensures cost { Paid self.old.left steps.old self.new.left steps.new 2 }
    {
        let set = &field.field.value.selection_set;
        if set.selections.is_empty() {
            return Ok(true);
        }
        self.has_lone_fields(set, levels, steps)
    }
}
