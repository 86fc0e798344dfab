//! Whether each response key of fields is that of one field, or of equal leaves.

ghost use Rattle.std.specs.Prelude.{◌≡◌, ◌↔◌, ◌+◌, ◌*◌, ◌≤◌, All, AllPairs, IfOk, IsTrue, OnOk, length, map, not};
ghost use Rattle.graphql_documents.specs.TypeReferences.{same_type};
ghost use Rattle.graphql_nodes.specs.Names.{same_name, stands_on, with_name};
ghost use Rattle.graphql_specification.specs.MergedSets.{key_of};
ghost use Rattle.graphql_field_conflicts.specs.FieldSelections.{listed, selection_of};
ghost use Rattle.graphql_lone_fields.specs.LoneFields.{AreEqualLeaves, HaveOtherKeys, IsPlainLeaf, NeedNoMerging};

use graphql_documents::documents::{Field, Type};
use graphql_field_conflicts::field_selections::FieldSelection;
use graphql_hash_seeds::HashSeed;
use graphql_nodes::{Name, ValidationError};
use graphql_steps::Steps;
use indexmap::IndexSet;
use std::alloc::Global;
use std::sync::ledger::Ledger;

/// Up to how many fields each is compared with each, which takes no memory.
const FEW: usize = 16;

/// Whether each response key is that of one of the fields, or of equal leaves. Of more than 16 fields equal leaves are not sought:
/// the answer is then no where two have one key. The only error is a failed allocation.
#[tactic(auto, using(crate::proofs::KeyLemmas::different_is_lone))]
pub(crate) fn have_lone_keys<L: Ledger>(
    alloc: Global,
    hash_seed: HashSeed,
    fields: &[FieldSelection<'_>],
    steps: &mut Steps<L>,
) -> Result<bool, ValidationError>
    ensures lone { IfOk result (λ lone. IsTrue lone → AllPairs NeedNoMerging (listed fields.now)) }
    ensures steps { steps.new ≤ steps.old + 16 * length fields.now }
{
    if fields.len() <= FEW {
        Ok(few_have_lone_keys(fields, steps))
    } else {
        many_have_different_keys(alloc, hash_seed, fields, steps)
    }
}

/// Whether each response key is that of one of a few fields, or of equal leaves. Compares each with each, which takes no memory.
fn few_have_lone_keys<L: Ledger>(fields: &[FieldSelection<'_>], steps: &mut Steps<L>) -> bool
    requires { length fields.now ≤ 16 }
    ensures lone { IsTrue result → AllPairs NeedNoMerging (listed fields.now) }
    ensures steps { steps.new ≤ steps.old + 16 * length fields.now }
{
    let Some((first, rest)) = fields.split_first() else {
        return true;
    };
    steps.take(rest.len());
    has_lone_key(first, rest) && few_have_lone_keys(rest, steps)
}

/// Whether each of the others has another response key than a field, or is an equal leaf.
fn has_lone_key(field: &FieldSelection<'_>, others: &[FieldSelection<'_>]) -> bool
    ensures { IsTrue result → All (NeedNoMerging (selection_of field.now)) (listed others.now) }
{
    let key = field.field.value.response_key();
    for other in others {
        if has_key(other, key) && !are_equal_leaves(field, other) {
            return false;
        }
    }
    true
}

/// Whether two fields are leaves of one name and one type, without arguments.
fn are_equal_leaves(field: &FieldSelection<'_>, other: &FieldSelection<'_>) -> bool
    ensures { IsTrue result ↔ AreEqualLeaves (selection_of field.now) (selection_of other.now) }
{
    let first = &*field.field.value;
    let second = &*other.field.value;
    is_plain_leaf(first)
        && is_plain_leaf(second)
        && first.name == second.name
        && is_same_type(&first.definition.value.ty, &second.definition.value.ty)
}

/// Whether a field has no arguments, and selects nothing.
fn is_plain_leaf(field: &Field) -> bool
    ensures { IsTrue result ↔ IsPlainLeaf field.now }
{
    field.arguments.is_empty() && field.selection_set.selections.is_empty()
}

/// Whether two types are the same as written, wherever they stand.
fn is_same_type(ty: &Type, other: &Type) -> bool
    ensures { result ≡ same_type ty.now other.now }
{
    ty == other
}

/// Whether this is the key of a field.
fn has_key(field: &FieldSelection<'_>, key: &Name) -> bool
    ensures { result ≡ same_name key.now (key_of (selection_of field.now)) }
{
    key == field.field.value.response_key()
}

/// Whether no two of many fields have the same response key. Collects the keys in a set. The only error
/// is a failed allocation.
fn many_have_different_keys<L: Ledger>(
    alloc: Global,
    hash_seed: HashSeed,
    fields: &[FieldSelection<'_>],
    steps: &mut Steps<L>,
) -> Result<bool, ValidationError>
    ensures steps { steps.new ≤ steps.old + length fields.now }
    ensures different { IfOk result (λ different. IsTrue different → AllPairs HaveOtherKeys (listed fields.now)) }
{
    let mut keys = IndexSet::with_capacity_and_hasher(alloc, fields.len(), hash_seed)?;
    for field in fields {
        steps.take(1);
        if !add_key(&mut keys, field.field.value.response_key())? {
            return Ok(false);
        }
    }
    Ok(true)
}

/// Adds a key to those that were met, and answers whether it is new.
fn add_key<'doc>(
    keys: &mut IndexSet<&'doc Name, HashSeed>,
    key: &'doc Name,
) -> Result<bool, ValidationError>
    ensures is_new { IfOk result (λ new. new ≡ not (stands_on (map (λ b. b.now) keys.old.keys) key.now)) }
    ensures keys { OnOk result (map (λ b. b.now) keys.new.keys ≡ with_name (map (λ b. b.now) keys.old.keys) key.now) }
{
    Ok(keys.insert(key)?)
}
