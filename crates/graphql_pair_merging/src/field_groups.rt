//! Fields of numbered sets by a name of theirs.

ghost use Rattle.std.specs.Prelude.{◌≡◌, ◌+◌, ◌≤◌, ◌++◌, ◌∷◌, [], IfOk, IsFalse, OnOk, if◌then◌else◌, length};
ghost use Rattle.graphql_nodes.specs.Names.{NameText, same_name};
ghost use Rattle.graphql_pair_merging.specs.FieldGroups.{AddsNamed, IsGrouped, group_under, name_by, names_in};

use super::numbered_sets::NumberedField;
use graphql_hash_seeds::HashSeed;
use graphql_nodes::{Name, ValidationError};
use graphql_steps::Steps;
use indexmap::IndexMap;
use std::alloc::Global;
use std::sync::ledger::Ledger;

/// By which name fields are grouped.
#[derive(Clone, Copy, Debug)]
pub(crate) enum GroupedBy {
    /// Their response key.
    ResponseKey,
    /// The type of the set in which they are.
    ParentType,
}

impl GroupedBy {
    /// The name of a field.
    fn name<'doc>(self, field: NumberedField<'doc>) -> &'doc Name
        ensures { result.now ≡ name_by self field.entry }
    {
        match self {
            GroupedBy::ResponseKey => field.field.field.value.response_key(),
            GroupedBy::ParentType => field.field.parent_type,
        }
    }
}

/// Fields in groups, each under the name by which it is grouped.
pub(crate) type FieldsByName<'doc> = IndexMap<&'doc Name, Vec<NumberedField<'doc>>, HashSeed>;

/// These fields by their names. The only error is a failed allocation. It takes a step for each field.
pub(crate) fn group_fields<'doc, L: Ledger>(
    alloc: Global,
    hash_seed: HashSeed,
    fields: &[NumberedField<'doc>],
    by: GroupedBy,
    steps: &mut Steps<L>,
) -> Result<FieldsByName<'doc>, ValidationError>
    ensures grouped { IfOk result (λ groups. IsGrouped by fields.now groups.entries) }
    ensures count { IfOk result (λ groups. length groups.entries ≤ length fields.now) }
    ensures cost { steps.new ≤ steps.old + length fields.now }
{
    let mut groups = IndexMap::with_hasher(alloc, hash_seed);
    for field in fields {
        steps.take(1);
        push_under(&mut groups, alloc, by.name(*field), *field)?;
    }
    Ok(groups)
}

/// The names under which there are fields. The only error is a failed allocation. It takes a step for each name.
pub(crate) fn names_of<'doc, L: Ledger>(
    alloc: Global,
    groups: &FieldsByName<'doc>,
    steps: &mut Steps<L>,
) -> Result<Vec<&'doc Name>, ValidationError>
    ensures cost { steps.new ≤ steps.old + length groups.now.entries }
    ensures names { IfOk result (λ names. names.items ≡ names_in groups.now.entries) }
{
    let mut names = Vec::new(alloc);
    for name in groups.keys() {
        steps.take(1);
        names.push(*name)?;
    }
    Ok(names)
}

/// Adds those of the other fields under whose name there are fields in the groups. The only error is a failed allocation. It takes
/// a step for each of the other fields.
pub(crate) fn add_named_in<'doc, L: Ledger>(
    fields: &mut Vec<NumberedField<'doc>>,
    groups: &FieldsByName<'doc>,
    by: GroupedBy,
    others: &[NumberedField<'doc>],
    steps: &mut Steps<L>,
) -> Result<(), ValidationError>
    ensures added { OnOk result (AddsNamed by groups.now.entries others.now fields.old.items fields.new.items) }
    ensures cost { steps.new ≤ steps.old + length others.now }
{
    for field in others {
        steps.take(1);
        if is_named_in(groups, by, *field) {
            fields.push(*field)?;
        }
    }
    Ok(())
}

/// Whether there are fields under the name of this one.
fn is_named_in(groups: &FieldsByName<'_>, by: GroupedBy, field: NumberedField<'_>) -> bool
    ensures { IsFalse result → group_under groups.now.entries (name_by by field.entry) ≡ [] }
{
    let name = by.name(field);
    groups.get(&name).is_some()
}

/// Puts a field behind those under the name.
fn push_under<'doc>(
    groups: &mut FieldsByName<'doc>,
    alloc: Global,
    name: &'doc Name,
    field: NumberedField<'doc>,
) -> Result<(), ValidationError>
    ensures count { OnOk result (length groups.new.entries ≤ length groups.old.entries + 1) }
    ensures pushed { OnOk result ((other : NameText) → group_under groups.new.entries other ≡
        (if same_name name.now other then group_under groups.old.entries other ++ field.entry ∷ [] else group_under groups.old.entries other)) }
{
    match groups.get_mut(&name) {
        Some(fields) => fields.push(field)?,
        None => {
            let mut fields = Vec::new(alloc);
            fields.push(field)?;
            groups.insert(name, fields)?;
        }
    }
    Ok(())
}
