//! Enums and input objects.

ghost use Rattle.std.specs.Prelude.{All, Contains, IsFalse, IsSome, IsTrue, OnOk};
ghost use Rattle.indexmap.specs.IndexMap.{get};
ghost use Rattle.graphql_nodes.specs.Names.{same_name};
ghost use Rattle.graphql_schema_changes.specs.Keeps.{KeepsInputFields};
ghost use Rattle.graphql_change_kinds.specs.Found.{Adds, Finds};
ghost use Rattle.graphql_change_kinds.specs.Changes.{HasInput, IsEnumNamed};
ghost use Rattle.graphql_input_comparison.specs.Inputs.{FieldWasRequired, KeepsInputField, KeepsEnumValue};
ghost use Rattle.graphql_input_comparison.specs.Owners.{HasInputFields, IsNewField, field_coordinate};

use crate::inputs::{Owner, compare_inputs, push_added_input, push_removed_input};
use graphql_change_kinds::{Change, ChangeList, Places, SchemaPair};
use graphql_coordinates::TypeAttributeCoordinate;
use graphql_documents::documents::{
    Component, EnumType, EnumValueDefinition, InputObjectType, InputValueDefinition,
};
use graphql_nodes::{Name, NamedType, SourceSpan, ValidationError};

/// Finds the changes of the values of an enum. Answers whether each old value is there.
///
/// Specification: 3.9 Enums.
pub fn compare_enums(
    changes: &mut ChangeList,
    pair: SchemaPair<'_>,
    ty: &NamedType,
    around: Places,
    old: &EnumType,
    new: &EnumType,
) -> Result<(), ValidationError>
    requires was { IsEnumNamed pair.old.now ty.now old.now }
    requires is { IsEnumNamed pair.new.now ty.now new.now }
    ensures { OnOk result (Finds pair.entry.old.now pair.entry.new.now changes.old changes.new (λ merging. All (λ entry. KeepsEnumValue new.now entry.0) old.now.values.entries)) }
{
    compare_values(changes, pair, ty, around, old, new)?;
    find_added_values(changes, pair, ty, around, old, new)?;
    Ok(())
}

fn compare_values(
    changes: &mut ChangeList,
    pair: SchemaPair<'_>,
    ty: &NamedType,
    around: Places,
    old: &EnumType,
    new: &EnumType,
) -> Result<(), ValidationError>
    requires was { IsEnumNamed pair.old.now ty.now old.now }
    requires is { IsEnumNamed pair.new.now ty.now new.now }
    ensures { OnOk result (Finds pair.entry.old.now pair.entry.new.now changes.old changes.new (λ merging. All (λ entry. KeepsEnumValue new.now entry.0) old.now.values.entries)) }
{
    for (name, value) in &old.values {
        compare_value(changes, pair, ty, around, name, value, old, new)?;
    }
    Ok(())
}

fn compare_value(
    changes: &mut ChangeList,
    pair: SchemaPair<'_>,
    ty: &NamedType,
    around: Places,
    name: &Name,
    value: &Component<EnumValueDefinition>,
    old: &EnumType,
    new: &EnumType,
) -> Result<(), ValidationError>
    requires was { IsEnumNamed pair.old.now ty.now old.now }
    requires is { IsEnumNamed pair.new.now ty.now new.now }
    requires there { IsSome (get same_name old.now.values name.now) }
    ensures { OnOk result (Finds pair.entry.old.now pair.entry.new.now changes.old changes.new (λ merging. KeepsEnumValue new.now name.now)) }
{
    if new.values.contains_key(name) {
        return Ok(());
    }
    let coordinate = TypeAttributeCoordinate::new(changes.allocator(), ty, name)?;
    let places = Places {
        old: place_of_value(value),
        new: around.new,
    };
    changes.push(pair, Change::EnumValueRemoved(coordinate), places)?;
    Ok(())
}

fn find_added_values(
    changes: &mut ChangeList,
    pair: SchemaPair<'_>,
    ty: &NamedType,
    around: Places,
    old: &EnumType,
    new: &EnumType,
) -> Result<(), ValidationError>
    requires was { IsEnumNamed pair.old.now ty.now old.now }
    requires is { IsEnumNamed pair.new.now ty.now new.now }
    ensures { OnOk result (Adds pair.entry.old.now pair.entry.new.now changes.old changes.new) }
{
    for (name, value) in &new.values {
        find_added_value(changes, pair, ty, around, old, name, value, new)?;
    }
    Ok(())
}

fn find_added_value(
    changes: &mut ChangeList,
    pair: SchemaPair<'_>,
    ty: &NamedType,
    around: Places,
    old: &EnumType,
    name: &Name,
    value: &Component<EnumValueDefinition>,
    new: &EnumType,
) -> Result<(), ValidationError>
    requires was { IsEnumNamed pair.old.now ty.now old.now }
    requires is { IsEnumNamed pair.new.now ty.now new.now }
    requires there { IsSome (get same_name new.now.values name.now) }
    ensures { OnOk result (Adds pair.entry.old.now pair.entry.new.now changes.old changes.new) }
{
    if old.values.contains_key(name) {
        return Ok(());
    }
    let coordinate = TypeAttributeCoordinate::new(changes.allocator(), ty, name)?;
    let places = Places {
        old: around.old,
        new: place_of_value(value),
    };
    changes.push(pair, Change::EnumValueAdded(coordinate), places)?;
    Ok(())
}

fn place_of_value(value: &Component<EnumValueDefinition>) -> Option<SourceSpan> {
    SourceSpan::recompose(value.node.value.value.location(), value.node.location)
}

/// Finds the changes of the fields of an input object. Answers whether each object that was accepted is accepted still, as far
/// as its own fields go.
///
/// Specification: 3.10 Input Objects.
pub fn compare_input_objects(
    changes: &mut ChangeList,
    pair: SchemaPair<'_>,
    ty: &NamedType,
    around: Places,
    old: &InputObjectType,
    new: &InputObjectType,
) -> Result<(), ValidationError>
    requires was { HasInputFields pair.old.now ty.now old.now }
    requires is { HasInputFields pair.new.now ty.now new.now }
    ensures { OnOk result (Finds pair.entry.old.now pair.entry.new.now changes.old changes.new (λ merging. KeepsInputFields old.now new.now)) }
{
    compare_old_fields(changes, pair, ty, around, old, new)?;
    compare_new_fields(changes, pair, ty, around, old, new)?;
    Ok(())
}

/// Whether each old field is there and takes what it took.
fn compare_old_fields(
    changes: &mut ChangeList,
    pair: SchemaPair<'_>,
    ty: &NamedType,
    around: Places,
    old: &InputObjectType,
    new: &InputObjectType,
) -> Result<(), ValidationError>
    requires was { HasInputFields pair.old.now ty.now old.now }
    requires is { HasInputFields pair.new.now ty.now new.now }
    ensures { OnOk result (Finds pair.entry.old.now pair.entry.new.now changes.old changes.new (λ merging. All (KeepsInputField new.now) old.now.fields.entries)) }
{
    for (name, field) in &old.fields {
        compare_old_field(changes, pair, ty, around, name, field, new)?;
    }
    Ok(())
}

fn compare_old_field(
    changes: &mut ChangeList,
    pair: SchemaPair<'_>,
    ty: &NamedType,
    around: Places,
    name: &Name,
    field: &Component<InputValueDefinition>,
    new: &InputObjectType,
) -> Result<(), ValidationError>
    requires was { HasInput pair.old.now (field_coordinate ty.now name.now) field.now.node.value.value }
    requires is { HasInputFields pair.new.now ty.now new.now }
    ensures { OnOk result (Finds pair.entry.old.now pair.entry.new.now changes.old changes.new (λ merging. KeepsInputField new.now (name.now, field.now))) }
{
    let owner = Owner::InputObject(ty);
    match new.fields.get(name) {
        Some(new) => {
            compare_inputs(changes, pair, owner, name, &field.node, &new.node)?;
            Ok(())
        }
        None => {
            push_removed_input(changes, pair, owner, name, around, &field.node)?;
            Ok(())
        }
    }
}

/// Finds the fields that were not there. If no change breaks documents, each new field that is required was required before, where each
/// old field takes what it took.
fn compare_new_fields(
    changes: &mut ChangeList,
    pair: SchemaPair<'_>,
    ty: &NamedType,
    around: Places,
    old: &InputObjectType,
    new: &InputObjectType,
) -> Result<(), ValidationError>
    requires was { HasInputFields pair.old.now ty.now old.now }
    requires is { HasInputFields pair.new.now ty.now new.now }
    ensures { OnOk result (Finds pair.entry.old.now pair.entry.new.now changes.old changes.new (λ merging. All (KeepsInputField new.now) old.now.fields.entries → All (FieldWasRequired old.now) new.now.fields.entries)) }
{
    for (name, field) in &new.fields {
        compare_new_field(changes, pair, ty, around, old, new, name, field)?;
    }
    Ok(())
}

fn compare_new_field(
    changes: &mut ChangeList,
    pair: SchemaPair<'_>,
    ty: &NamedType,
    around: Places,
    old: &InputObjectType,
    new: &InputObjectType,
    name: &Name,
    field: &Component<InputValueDefinition>,
) -> Result<(), ValidationError>
    requires was { HasInputFields pair.old.now ty.now old.now }
    requires is { HasInputFields pair.new.now ty.now new.now }
    requires contained { Contains new.now.fields.entries (name.now, field.now) }
    ensures { OnOk result (Finds pair.entry.old.now pair.entry.new.now changes.old changes.new (λ merging. All (KeepsInputField new.now) old.now.fields.entries → FieldWasRequired old.now (name.now, field.now))) }
{
    if was_field_required(old, new, name, field) {
        return Ok(());
    }
    push_added_input(
        changes,
        pair,
        Owner::InputObject(ty),
        name,
        around,
        &field.node,
    )?;
    Ok(())
}

/// Whether an old field has the name, so that a field that is required now either was required, or changed, which its old field shows.
fn was_field_required(
    old: &InputObjectType,
    new: &InputObjectType,
    name: &Name,
    field: &Component<InputValueDefinition>,
) -> bool
    requires { Contains new.now.fields.entries (name.now, field.now) }
    ensures was { IsTrue result → All (KeepsInputField new.now) old.now.fields.entries → FieldWasRequired old.now (name.now, field.now) }
    ensures was_not { IsFalse result → IsNewField old.now new.now name.now field.now.node.value.value }
{
    let Some(old) = old.fields.get(name) else {
        return false;
    };
    if old.node.value.is_required() || !field.node.value.is_required() {
        return true;
    }
    match new.fields.get(name) {
        Some(new) => new.node.value.is_required(),
        None => false,
    }
}
