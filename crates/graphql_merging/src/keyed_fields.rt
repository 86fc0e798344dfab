//! Fields by their response keys.

ghost use Rattle.std.specs.Prelude.{◌≡◌, IfOk, OnOk};
ghost use Rattle.graphql_field_conflicts.specs.FieldSelections.{listed, selection_of};
ghost use Rattle.graphql_merging.specs.Groups.{by_keys, named_fields, with_field};

use graphql_field_conflicts::field_selections::FieldSelection;
use graphql_hash_seeds::HashSeed;
use graphql_nodes::{Name, ValidationError};
use indexmap::IndexMap;
use std::alloc::Global;
use std::hash::BuildHasher;

/// The fields of a list by their response keys, these in order of first field, in a map of this seed. The only error
/// is a failed allocation.
///
/// Specification: 5.3.2 Field Selection Merging; 6.3.2 Field Collection.
pub fn fields_by_key<'doc>(
    alloc: Global,
    hash_seed: HashSeed,
    fields: &[FieldSelection<'doc>],
) -> Result<IndexMap<&'doc Name, Vec<FieldSelection<'doc>>, HashSeed>, ValidationError>
    ensures { IfOk result (λ found. named_fields found.entries ≡ by_keys (listed fields.now)) }
{
    let mut fields_by_key = IndexMap::with_capacity_and_hasher(alloc, fields.len(), hash_seed)?;
    for field in fields {
        push_under(
            &mut fields_by_key,
            alloc,
            field.field.value.response_key(),
            *field,
        )?;
    }
    Ok(fields_by_key)
}

/// Puts the field behind those under the name.
fn push_under<'name, 'doc, S: BuildHasher>(
    fields_by_name: &mut IndexMap<&'name Name, Vec<FieldSelection<'doc>>, S>,
    alloc: Global,
    name: &'name Name,
    field: FieldSelection<'doc>,
) -> Result<(), ValidationError>
    ensures { OnOk result (named_fields fields_by_name.new.entries ≡
        with_field (named_fields fields_by_name.old.entries) name.now (selection_of field.entry)) }
{
    fields_by_name
        .entry(name)?
        .or_insert(Vec::new(alloc))
        .push(field)?;
    Ok(())
}
