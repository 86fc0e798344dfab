//! Types, two of one name at a time.

ghost use Rattle.std.specs.Prelude.{◌≡◌, All, IfOk, IsSome, IsTrue, OnOk, Some};
ghost use Rattle.graphql_documents.specs.Schemas.{type_definition};
ghost use Rattle.graphql_change_kinds.specs.Breaks.{can_become};
ghost use Rattle.graphql_change_kinds.specs.Found.{Adds, Finds};
ghost use Rattle.graphql_shape_comparison.specs.Shapes.{AreMeetings};
ghost use Rattle.graphql_change_kinds.specs.Kinds.{kind_of};
ghost use Rattle.graphql_schema_comparison.specs.Comparisons.{KeepsContents, KeepsPlace, KeepsType};

use crate::fields::compare_fields;
use graphql_change_kinds::{Change, ChangeList, Places, SchemaPair, TypeKind};
use graphql_composite_comparison::{
    compare_interfaces, compare_members, compare_subscription_root,
};
use graphql_coordinates::TypeCoordinate;
use graphql_documents::documents::ExtendedType;
use graphql_input_comparison::{compare_enums, compare_input_objects};
use graphql_nodes::{NamedType, SourceSpan, ValidationError};
use graphql_shape_comparison::Meetings;
use std::alloc::Global;

/// Finds the changes of types. If none breaks documents, what could be selected on each type and given for it still can; if none
/// breaks them by merging, all fields of one shape have one shape.
///
/// Specification: 3.4 Types.
pub(crate) fn compare_types(
    changes: &mut ChangeList,
    pair: SchemaPair<'_>,
    meetings: &Meetings<'_>,
) -> Result<(), ValidationError>
    requires { AreMeetings pair.old.now pair.new.now meetings.now.by_shape }
    ensures { OnOk result (Finds pair.entry.old.now pair.entry.new.now changes.old changes.new (λ merging.
        All (λ entry. KeepsType meetings.now.by_shape pair.entry.old.now pair.entry.new.now merging entry.0 entry.1) pair.entry.old.now.types.entries)) }
{
    compare_old_types(changes, pair, meetings)?;
    find_added_types(changes, pair)?;
    Ok(())
}

fn compare_old_types(
    changes: &mut ChangeList,
    pair: SchemaPair<'_>,
    meetings: &Meetings<'_>,
) -> Result<(), ValidationError>
    requires { AreMeetings pair.old.now pair.new.now meetings.now.by_shape }
    ensures { OnOk result (Finds pair.entry.old.now pair.entry.new.now changes.old changes.new (λ merging.
        All (λ entry. KeepsType meetings.now.by_shape pair.entry.old.now pair.entry.new.now merging entry.0 entry.1) pair.entry.old.now.types.entries)) }
{
    for (name, definition) in &pair.old.types {
        compare_old_type(changes, pair, meetings, name, definition)?;
    }
    Ok(())
}

fn compare_old_type(
    changes: &mut ChangeList,
    pair: SchemaPair<'_>,
    meetings: &Meetings<'_>,
    name: &NamedType,
    old: &ExtendedType,
) -> Result<(), ValidationError>
    requires was { type_definition pair.old.now name.now ≡ Some old.now }
    requires meetings_are { AreMeetings pair.old.now pair.new.now meetings.now.by_shape }
    ensures { OnOk result (Finds pair.entry.old.now pair.entry.new.now changes.old changes.new (λ merging. KeepsType meetings.now.by_shape pair.entry.old.now pair.entry.new.now merging name.now old.now)) }
{
    let Some(new) = pair.new.types.get(name) else {
        let ty = type_coordinate(changes.allocator(), name)?;
        let places = Places {
            old: name.location(),
            new: None,
        };
        changes.push(pair, Change::TypeRemoved(ty), places)?;
        return Ok(());
    };
    let places = Places {
        old: name.location(),
        new: place_of_name(pair, name),
    };
    compare_kinds(changes, pair, name, places, old, new)?;
    compare_contents(changes, pair, meetings, name, places, old, new)?;
    Ok(())
}

fn find_added_types(changes: &mut ChangeList, pair: SchemaPair<'_>) -> Result<(), ValidationError>
    ensures { OnOk result (Adds pair.entry.old.now pair.entry.new.now changes.old changes.new) }
{
    for (name, _definition) in &pair.new.types {
        find_added_type(changes, pair, name)?;
    }
    Ok(())
}

fn find_added_type(
    changes: &mut ChangeList,
    pair: SchemaPair<'_>,
    name: &NamedType,
) -> Result<(), ValidationError>
    requires { IsSome (type_definition pair.new.now name.now) }
    ensures { OnOk result (Adds pair.entry.old.now pair.entry.new.now changes.old changes.new) }
{
    if pair.old.types.contains_key(name) {
        return Ok(());
    }
    let ty = type_coordinate(changes.allocator(), name)?;
    let places = Places {
        old: None,
        new: name.location(),
    };
    changes.push(pair, Change::TypeAdded(ty), places)?;
    Ok(())
}

/// Finds whether a type of the new kind can be in the place of one of the old kind.
fn compare_kinds(
    changes: &mut ChangeList,
    pair: SchemaPair<'_>,
    name: &NamedType,
    places: Places,
    old: &ExtendedType,
    new: &ExtendedType,
) -> Result<(), ValidationError>
    requires was { type_definition pair.old.now name.now ≡ Some old.now }
    requires is { type_definition pair.new.now name.now ≡ Some new.now }
    ensures { OnOk result (Finds pair.entry.old.now pair.entry.new.now changes.old changes.new (λ merging. IsTrue (can_become (kind_of old.now) (kind_of new.now)))) }
{
    let from = TypeKind::of(old);
    let to = TypeKind::of(new);
    if from == to {
        return Ok(());
    }
    let ty = type_coordinate(changes.allocator(), name)?;
    changes.push(pair, Change::KindChanged { ty, from, to }, places)?;
    Ok(())
}

fn compare_contents(
    changes: &mut ChangeList,
    pair: SchemaPair<'_>,
    meetings: &Meetings<'_>,
    name: &NamedType,
    places: Places,
    old: &ExtendedType,
    new: &ExtendedType,
) -> Result<(), ValidationError>
    requires was { type_definition pair.old.now name.now ≡ Some old.now }
    requires is { type_definition pair.new.now name.now ≡ Some new.now }
    requires meetings_are { AreMeetings pair.old.now pair.new.now meetings.now.by_shape }
    ensures { OnOk result (Finds pair.entry.old.now pair.entry.new.now changes.old changes.new (λ merging.
        KeepsContents meetings.now.by_shape pair.entry.old.now pair.entry.new.now merging name.now old.now new.now)) }
{
    match (old, new) {
        (ExtendedType::Enum(old), ExtendedType::Enum(new)) => {
            compare_enums(changes, pair, name, places, &old.value, &new.value)?;
            Ok(())
        }
        (ExtendedType::InputObject(old), ExtendedType::InputObject(new)) => {
            compare_input_objects(changes, pair, name, places, &old.value, &new.value)?;
            Ok(())
        }
        _ if old.is_composite() && new.is_composite() => {
            compare_composites(changes, pair, meetings, name, places, old, new)?;
            Ok(())
        }
        _ => Ok(()),
    }
}

fn compare_composites(
    changes: &mut ChangeList,
    pair: SchemaPair<'_>,
    meetings: &Meetings<'_>,
    name: &NamedType,
    places: Places,
    old: &ExtendedType,
    new: &ExtendedType,
) -> Result<(), ValidationError>
    requires was { type_definition pair.old.now name.now ≡ Some old.now }
    requires is { type_definition pair.new.now name.now ≡ Some new.now }
    requires meetings_are { AreMeetings pair.old.now pair.new.now meetings.now.by_shape }
    ensures { OnOk result (Finds pair.entry.old.now pair.entry.new.now changes.old changes.new (λ merging.
        KeepsPlace meetings.now.by_shape pair.entry.old.now pair.entry.new.now merging name.now old.now)) }
{
    compare_fields(changes, pair, meetings, name, places, old, new)?;
    compare_interfaces(changes, pair, name, places, old, new)?;
    compare_members(changes, pair, name, places, old, new)?;
    compare_subscription_root(changes, pair, name, places, new)?;
    Ok(())
}

/// The place of the name of a type in the new schema.
fn place_of_name(pair: SchemaPair<'_>, name: &NamedType) -> Option<SourceSpan> {
    let (key, _) = pair.new.types.get_key_value(name)?;
    key.location()
}

fn type_coordinate(alloc: Global, name: &NamedType) -> Result<TypeCoordinate, ValidationError>
    ensures { IfOk result (λ c. c.ty ≡ name.now) }
{
    let ty = name.clone_in(alloc)?;
    Ok(TypeCoordinate { ty })
}
