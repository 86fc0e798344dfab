//! The deprecated elements that selections use.

ghost use Rattle.std.specs.Prelude.{◌∷◌, [], OnOk};
ghost use Rattle.graphql_deprecations.specs.InOrder.{Adds, FieldItselfUses, FieldUses, InlineFragmentUses, KnownFieldUses, SelectionsUse, SetUses};

use crate::arguments::{ArgumentOwner, add_in_arguments, add_in_directives};
use crate::elements::add_field;
use crate::reports::DeprecatedUsage;
use graphql_documents::documents::{
    Field, FieldDefinition, InlineFragment, Schema, Selection, SelectionSet,
};
use graphql_hash_seeds::HashSeed;
use graphql_nodes::{NamedType, ValidationError};

/// Adds the uses in the selections of a set, at any depth. Spreads are not followed.
#[cycle(selection)]
pub(crate) fn add_in_selection_set(
    found: &mut Vec<DeprecatedUsage>,
    schema: &Schema,
    hash_seed: HashSeed,
    set: &SelectionSet,
) -> Result<(), ValidationError>
    ensures { OnOk result (Adds (SetUses schema.now set.now) found.old.items found.new.items) }
{
    for selection in &set.selections {
        add_in_selection(found, schema, hash_seed, &set.ty, selection)?;
    }
    Ok(())
}

/// Adds the uses in a selection on this type, at any depth. Spreads are not followed.
#[cycle(selection)]
fn add_in_selection(
    found: &mut Vec<DeprecatedUsage>,
    schema: &Schema,
    hash_seed: HashSeed,
    parent: &NamedType,
    selection: &Selection,
) -> Result<(), ValidationError>
    ensures { OnOk result (Adds (SelectionsUse schema.now parent.now (selection.now ∷ [])) found.old.items found.new.items) }
{
    match selection {
        Selection::Field(field) => add_in_field(found, schema, hash_seed, parent, &field.value),
        Selection::FragmentSpread(spread) => {
            add_in_directives(found, schema, hash_seed, &spread.value.directives)
        }
        Selection::InlineFragment(fragment) => {
            add_in_inline_fragment(found, schema, hash_seed, &fragment.value)
        }
    }
}

#[cycle(selection)]
fn add_in_field(
    found: &mut Vec<DeprecatedUsage>,
    schema: &Schema,
    hash_seed: HashSeed,
    parent: &NamedType,
    field: &Field,
) -> Result<(), ValidationError>
    ensures { OnOk result (Adds (FieldUses schema.now parent.now field.now) found.old.items found.new.items) }
{
    add_field_itself(found, schema, hash_seed, parent, field)?;
    add_in_directives(found, schema, hash_seed, &field.directives)?;
    add_in_selection_set(found, schema, hash_seed, &field.selection_set)
}

#[cycle(selection)]
fn add_in_inline_fragment(
    found: &mut Vec<DeprecatedUsage>,
    schema: &Schema,
    hash_seed: HashSeed,
    fragment: &InlineFragment,
) -> Result<(), ValidationError>
    ensures { OnOk result (Adds (InlineFragmentUses schema.now fragment.now) found.old.items found.new.items) }
{
    add_in_directives(found, schema, hash_seed, &fragment.directives)?;
    add_in_selection_set(found, schema, hash_seed, &fragment.selection_set)
}

/// Adds the use of a field of this type, and those in its arguments. Nothing is added if the type has no such field.
fn add_field_itself(
    found: &mut Vec<DeprecatedUsage>,
    schema: &Schema,
    hash_seed: HashSeed,
    parent: &NamedType,
    field: &Field,
) -> Result<(), ValidationError>
    ensures { OnOk result (Adds (FieldItselfUses schema.now parent.now field.now) found.old.items found.new.items) }
{
    match schema.type_field(parent, &field.name) {
        Ok(definition) => add_known_field(
            found,
            schema,
            hash_seed,
            parent,
            field,
            &definition.node.value,
        ),
        Err(_) => Ok(()),
    }
}

fn add_known_field(
    found: &mut Vec<DeprecatedUsage>,
    schema: &Schema,
    hash_seed: HashSeed,
    parent: &NamedType,
    field: &Field,
    definition: &FieldDefinition,
) -> Result<(), ValidationError>
    ensures { OnOk result (Adds (KnownFieldUses schema.now parent.now field.now definition.now) found.old.items found.new.items) }
{
    add_field(found, parent, &field.name, &definition.directives)?;
    let owner = ArgumentOwner::Field(parent, &field.name);
    add_in_arguments(
        found,
        schema,
        hash_seed,
        owner,
        &definition.arguments,
        &field.arguments,
    )
}
