//! The fields of objects, interfaces and unions.

ghost use Rattle.std.specs.Prelude.{◌≡◌, ◌↔◌, All, Bool, IfOk, IsFalse, IsTrue, Ok, OnOk, Some};
ghost use Rattle.graphql_documents.specs.Schemas.{fields_of, type_definition, type_field};
ghost use Rattle.graphql_change_kinds.specs.Breaks.{breaks_selections};
ghost use Rattle.graphql_change_kinds.specs.Changes.{HasEffect};
ghost use Rattle.graphql_change_kinds.specs.Found.{Adds, Finds};
ghost use Rattle.graphql_shape_comparison.specs.Shapes.{AreMeetings};
ghost use Rattle.graphql_change_kinds.specs.Kinds.{KeepsSelections};
ghost use Rattle.graphql_shape_comparison.specs.Fields.{AreFieldsOf};
ghost use Rattle.graphql_schema_comparison.specs.Comparisons.{KeepsFieldIfAny, KeepsFieldNamed, KeepsFieldType, KeepsFieldsOf, KeepsUses};

use graphql_change_kinds::{Change, ChangeList, Places, SchemaPair, TypeEffect};
use graphql_coordinates::TypeAttributeCoordinate;
use graphql_documents::documents::{Component, ExtendedType, FieldDefinition, Type};
use graphql_input_comparison::{Owner, compare_arguments, is_same_type};
use graphql_nodes::{Name, NamedType, SourceSpan, ValidationError};
use graphql_schema_parts::{FieldMap, fields_of};
use graphql_shape_comparison::{Meetings, names_leaf_type};
use std::alloc::Global;

/// Finds the changes of the fields of a composite type of this name. If none breaks documents, each selection of a field that was valid
/// on the old type is valid on the new one, merging apart; if none breaks them by merging, that is so too.
///
/// Specification: 5.3 Fields.
pub(crate) fn compare_fields(
    changes: &mut ChangeList,
    pair: SchemaPair<'_>,
    meetings: &Meetings<'_>,
    ty: &NamedType,
    around: Places,
    old: &ExtendedType,
    new: &ExtendedType,
) -> Result<(), ValidationError>
    requires was { type_definition pair.old.now ty.now ≡ Some old.now }
    requires is { type_definition pair.new.now ty.now ≡ Some new.now }
    requires meetings_are { AreMeetings pair.old.now pair.new.now meetings.now.by_shape }
    ensures { OnOk result (Finds pair.entry.old.now pair.entry.new.now changes.old changes.new (λ merging.
        KeepsFieldsOf meetings.now.by_shape pair.entry.old.now pair.entry.new.now merging ty.now old.now)) }
{
    compare_own_fields(changes, pair, meetings, ty, around, old)?;
    find_added_fields(changes, pair, ty, around, new)?;
    let fields = &pair.old.meta_fields;
    compare_meta_field(changes, pair, meetings, ty, &fields.typename)?;
    compare_meta_field(changes, pair, meetings, ty, &fields.schema)?;
    compare_meta_field(changes, pair, meetings, ty, &fields.type_by_name)?;
    Ok(())
}

/// Finds whether each field that the old type itself defines is there and can be selected as before.
fn compare_own_fields(
    changes: &mut ChangeList,
    pair: SchemaPair<'_>,
    meetings: &Meetings<'_>,
    ty: &NamedType,
    around: Places,
    old: &ExtendedType,
) -> Result<(), ValidationError>
    requires was { type_definition pair.old.now ty.now ≡ Some old.now }
    requires meetings_are { AreMeetings pair.old.now pair.new.now meetings.now.by_shape }
    ensures { OnOk result (Finds pair.entry.old.now pair.entry.new.now changes.old changes.new (λ merging.
        All (λ entry. KeepsFieldNamed meetings.now.by_shape pair.entry.old.now pair.entry.new.now merging ty.now entry.0 entry.1) (fields_of old.now))) }
{
    match fields_of(old) {
        Some(fields) => {
            compare_listed_fields(changes, pair, meetings, ty, around, fields)?;
            Ok(())
        }
        None => Ok(()),
    }
}

fn compare_listed_fields(
    changes: &mut ChangeList,
    pair: SchemaPair<'_>,
    meetings: &Meetings<'_>,
    ty: &NamedType,
    around: Places,
    fields: &FieldMap,
) -> Result<(), ValidationError>
    requires was { AreFieldsOf pair.old.now ty.now fields.now }
    requires meetings_are { AreMeetings pair.old.now pair.new.now meetings.now.by_shape }
    ensures { OnOk result (Finds pair.entry.old.now pair.entry.new.now changes.old changes.new (λ merging.
        All (λ entry. KeepsFieldNamed meetings.now.by_shape pair.entry.old.now pair.entry.new.now merging ty.now entry.0 entry.1) fields.now.entries)) }
{
    for (name, field) in fields {
        compare_own_field(changes, pair, meetings, ty, around, name, field)?;
    }
    Ok(())
}

fn compare_own_field(
    changes: &mut ChangeList,
    pair: SchemaPair<'_>,
    meetings: &Meetings<'_>,
    ty: &NamedType,
    around: Places,
    name: &Name,
    field: &Component<FieldDefinition>,
) -> Result<(), ValidationError>
    requires was { type_field pair.old.now ty.now name.now ≡ Ok field.now }
    requires meetings_are { AreMeetings pair.old.now pair.new.now meetings.now.by_shape }
    ensures { OnOk result (Finds pair.entry.old.now pair.entry.new.now changes.old changes.new (λ merging.
        KeepsFieldNamed meetings.now.by_shape pair.entry.old.now pair.entry.new.now merging ty.now name.now field.now)) }
{
    match pair.new.type_field(ty, name) {
        Ok(new) => {
            compare_two_fields(changes, pair, meetings, ty, name, field, new)?;
            Ok(())
        }
        Err(_) => {
            let coordinate = TypeAttributeCoordinate::new(changes.allocator(), ty, name)?;
            let places = Places {
                old: place_of_field(field),
                new: around.new,
            };
            changes.push(pair, Change::FieldRemoved(coordinate), places)?;
            Ok(())
        }
    }
}

/// Finds the fields that a type did not have.
fn find_added_fields(
    changes: &mut ChangeList,
    pair: SchemaPair<'_>,
    ty: &NamedType,
    around: Places,
    new: &ExtendedType,
) -> Result<(), ValidationError>
    requires { type_definition pair.new.now ty.now ≡ Some new.now }
    ensures { OnOk result (Adds pair.entry.old.now pair.entry.new.now changes.old changes.new) }
{
    match fields_of(new) {
        Some(fields) => {
            find_added_among(changes, pair, ty, around, fields)?;
            Ok(())
        }
        None => Ok(()),
    }
}

fn find_added_among(
    changes: &mut ChangeList,
    pair: SchemaPair<'_>,
    ty: &NamedType,
    around: Places,
    fields: &FieldMap,
) -> Result<(), ValidationError>
    requires { AreFieldsOf pair.new.now ty.now fields.now }
    ensures { OnOk result (Adds pair.entry.old.now pair.entry.new.now changes.old changes.new) }
{
    for (name, field) in fields {
        find_added_field(changes, pair, ty, around, name, field)?;
    }
    Ok(())
}

fn find_added_field(
    changes: &mut ChangeList,
    pair: SchemaPair<'_>,
    ty: &NamedType,
    around: Places,
    name: &Name,
    field: &Component<FieldDefinition>,
) -> Result<(), ValidationError>
    requires { type_field pair.new.now ty.now name.now ≡ Ok field.now }
    ensures { OnOk result (Adds pair.entry.old.now pair.entry.new.now changes.old changes.new) }
{
    if pair.old.type_field(ty, name).is_ok() {
        return Ok(());
    }
    let coordinate = TypeAttributeCoordinate::new(changes.allocator(), ty, name)?;
    let places = Places {
        old: around.old,
        new: place_of_field(field),
    };
    changes.push(pair, Change::FieldAdded(coordinate), places)?;
    Ok(())
}

/// Finds whether a meta-field of both types can be selected as before. If the new type has none, it is no longer the query root, which is
/// a change of its own.
///
/// Specification: 4.1 Type Name Introspection; 4.2 Schema Introspection.
fn compare_meta_field(
    changes: &mut ChangeList,
    pair: SchemaPair<'_>,
    meetings: &Meetings<'_>,
    ty: &NamedType,
    field: &Component<FieldDefinition>,
) -> Result<(), ValidationError>
    requires { AreMeetings pair.old.now pair.new.now meetings.now.by_shape }
    ensures { OnOk result (Finds pair.entry.old.now pair.entry.new.now changes.old changes.new (λ merging.
        KeepsFieldIfAny meetings.now.by_shape pair.entry.old.now pair.entry.new.now merging ty.now field.now.node.value.value.name)) }
{
    let name = &field.node.value.name;
    let Ok(old) = pair.old.type_field(ty, name) else {
        return Ok(());
    };
    let Ok(new) = pair.new.type_field(ty, name) else {
        return Ok(());
    };
    compare_two_fields(changes, pair, meetings, ty, name, old, new)?;
    Ok(())
}

/// Finds whether the new field of a type can be selected as the old one of its name.
fn compare_two_fields(
    changes: &mut ChangeList,
    pair: SchemaPair<'_>,
    meetings: &Meetings<'_>,
    ty: &NamedType,
    name: &Name,
    old: &Component<FieldDefinition>,
    new: &Component<FieldDefinition>,
) -> Result<(), ValidationError>
    requires was { type_field pair.old.now ty.now name.now ≡ Ok old.now }
    requires is { type_field pair.new.now ty.now name.now ≡ Ok new.now }
    requires meetings_are { AreMeetings pair.old.now pair.new.now meetings.now.by_shape }
    ensures { OnOk result (Finds pair.entry.old.now pair.entry.new.now changes.old changes.new (λ merging.
        KeepsUses meetings.now.by_shape pair.entry.old.now pair.entry.new.now merging old.now.node.value.value new.now.node.value.value)) }
{
    let places = Places {
        old: place_of_field(old),
        new: place_of_field(new),
    };
    compare_field_types(changes, pair, meetings, ty, name, places, old, new)?;
    let owner = Owner::Field { ty, field: name };
    compare_arguments(
        changes,
        pair,
        owner,
        places,
        &old.node.value.arguments,
        &new.node.value.arguments,
    )?;
    Ok(())
}

/// Finds whether the same can be selected below the two fields.
fn compare_field_types(
    changes: &mut ChangeList,
    pair: SchemaPair<'_>,
    meetings: &Meetings<'_>,
    ty: &NamedType,
    name: &Name,
    places: Places,
    old: &Component<FieldDefinition>,
    new: &Component<FieldDefinition>,
) -> Result<(), ValidationError>
    requires was { type_field pair.old.now ty.now name.now ≡ Ok old.now }
    requires is { type_field pair.new.now ty.now name.now ≡ Ok new.now }
    requires meetings_are { AreMeetings pair.old.now pair.new.now meetings.now.by_shape }
    ensures { OnOk result (Finds pair.entry.old.now pair.entry.new.now changes.old changes.new (λ merging.
        KeepsFieldType meetings.now.by_shape pair.entry.old.now pair.entry.new.now merging old.now.node.value.value.ty new.now.node.value.value.ty)) }
{
    let from = &old.node.value.ty;
    let to = &new.node.value.ty;
    if is_same_type(from, to) {
        return Ok(());
    }
    let alloc = changes.allocator();
    let field = TypeAttributeCoordinate::new(alloc, ty, name)?;
    let effect = effect_of(alloc, pair, meetings, from, to)?;
    let from = from.clone()?;
    let to = to.clone()?;
    changes.push(
        pair,
        Change::FieldTypeChanged {
            field,
            from,
            to,
            effect,
        },
        places,
    )?;
    Ok(())
}

/// What the new type of a field means.
fn effect_of(
    alloc: Global,
    pair: SchemaPair<'_>,
    meetings: &Meetings<'_>,
    from: &Type,
    to: &Type,
) -> Result<TypeEffect, ValidationError>
    requires { AreMeetings pair.old.now pair.new.now meetings.now.by_shape }
    ensures keeps { IfOk result (λ effect. (merging : Bool) → IsFalse (breaks_selections merging effect) →
        KeepsFieldType meetings.now.by_shape pair.entry.old.now pair.entry.new.now merging from.now to.now) }
    ensures means { IfOk result (HasEffect pair.entry.old.now pair.entry.new.now from.now to.now) }
{
    if !keeps_selections(pair, from, to) {
        return Ok(TypeEffect::OtherSelections);
    }
    match meetings.met(alloc, pair, from, to)? {
        Some(other) => Ok(TypeEffect::MeetsOther(other)),
        None if to.is_assignable_to(from) => Ok(TypeEffect::Narrower),
        None => Ok(TypeEffect::OtherResponses),
    }
}

/// Whether nothing is selected below both types, or fields of composite types of one name.
///
/// Specification: 5.3.3 Leaf Field Selections.
fn keeps_selections(pair: SchemaPair<'_>, from: &Type, to: &Type) -> bool
    ensures { IsTrue result ↔ KeepsSelections pair.entry.old.now pair.entry.new.now from.now to.now }
{
    let old_name = from.inner_named_type();
    let new_name = to.inner_named_type();
    let was_leaf = names_leaf_type(pair.old, old_name);
    let is_leaf = names_leaf_type(pair.new, new_name);
    was_leaf == is_leaf && (is_leaf || old_name == new_name)
}

/// The place of a field, without its description.
fn place_of_field(field: &Component<FieldDefinition>) -> Option<SourceSpan> {
    SourceSpan::recompose(field.node.value.name.location(), field.node.location)
}
