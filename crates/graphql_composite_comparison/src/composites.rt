//! The interfaces that types list, and the members of unions.

ghost use Rattle.std.specs.Prelude.{◌≡◌, ◌↔◌, All, IsFalse, IsTrue, OnOk, Some};
ghost use Rattle.graphql_nodes.specs.Names.{NameText};
ghost use Rattle.graphql_nodes.specs.declared.operation_types.OperationType.TheVariants as operation;
ghost use Rattle.graphql_documents.specs.Schemas.{Implements, IsSubtype, NamesKind, is_object_type, type_definition};
ghost use Rattle.graphql_document_building.specs.Trees.{root_name};
ghost use Rattle.graphql_specification.specs.CollectFields.{AppliesTo};
ghost use Rattle.graphql_change_kinds.specs.Breaks.{breaks_subscriptions};
ghost use Rattle.graphql_change_kinds.specs.Changes.{GainsRoot, HasMember, IsChange, IsGain};
ghost use Rattle.graphql_change_kinds.specs.declared.changes.Change.TheVariants as change;
ghost use Rattle.graphql_change_kinds.specs.Found.{Adds, Finds};
ghost use Rattle.graphql_change_kinds.specs.Kinds.{IsObjectOf, members_of};
ghost use Rattle.graphql_composite_comparison.specs.Composites.{KeepsInterfaces, KeepsSubscriptionRootFrom};

use graphql_change_kinds::{Change, ChangeList, Gain, Places, SchemaPair};
use graphql_documents::documents::{ComponentName, ExtendedType, Schema};
use graphql_nodes::{NamedType, OperationType, SourceSpan, ValidationError};

/// Finds the changes of the interfaces that a type lists. If none breaks documents, an object is still one of those of each interface.
///
/// Specification: 3.6 Objects; 5.5.2.3 Fragment Spread Is Possible.
pub fn compare_interfaces(
    changes: &mut ChangeList,
    pair: SchemaPair<'_>,
    ty: &NamedType,
    around: Places,
    old: &ExtendedType,
    new: &ExtendedType,
) -> Result<(), ValidationError>
    requires was { type_definition pair.old.now ty.now ≡ Some old.now }
    requires is { type_definition pair.new.now ty.now ≡ Some new.now }
    ensures { OnOk result (Finds pair.entry.old.now pair.entry.new.now changes.old changes.new (λ merging. KeepsInterfaces pair.entry.new.now ty.now old.now)) }
{
    compare_old_interfaces(changes, pair, ty, around, old, new)?;
    find_added_interfaces(changes, pair, ty, around, old, new)?;
    Ok(())
}

fn compare_old_interfaces(
    changes: &mut ChangeList,
    pair: SchemaPair<'_>,
    ty: &NamedType,
    around: Places,
    old: &ExtendedType,
    new: &ExtendedType,
) -> Result<(), ValidationError>
    requires was { type_definition pair.old.now ty.now ≡ Some old.now }
    requires is { type_definition pair.new.now ty.now ≡ Some new.now }
    ensures { OnOk result (Finds pair.entry.old.now pair.entry.new.now changes.old changes.new (λ merging. KeepsInterfaces pair.entry.new.now ty.now old.now)) }
{
    let is_object = is_object_type(old);
    for listed in old.implements_interfaces() {
        compare_old_interface(changes, pair, ty, around, is_object, listed, new)?;
    }
    Ok(())
}

fn is_object_type(definition: &ExtendedType) -> bool
    ensures { result ≡ is_object_type definition.now }
{
    matches!(definition, ExtendedType::Object(_))
}

/// Finds whether the type lists the interface, and, if it was an object, is one of those of the interface.
fn compare_old_interface(
    changes: &mut ChangeList,
    pair: SchemaPair<'_>,
    ty: &NamedType,
    around: Places,
    is_object: bool,
    listed: &ComponentName,
    new: &ExtendedType,
) -> Result<(), ValidationError>
    requires was { Implements pair.old.now ty.now listed.now.name }
    requires object { IsTrue is_object → NamesKind pair.old.now is_object_type ty.now }
    requires is { type_definition pair.new.now ty.now ≡ Some new.now }
    ensures { OnOk result (Finds pair.entry.old.now pair.entry.new.now changes.old changes.new (λ merging. IsTrue is_object → IsSubtype pair.entry.new.now listed.now.name ty.now)) }
{
    if pair.new.is_subtype(&listed.name, ty) {
        compare_listing(changes, pair, ty, around, listed, new)?;
        Ok(())
    } else {
        push_removed_interface(changes, pair, ty, around, listed, is_object)?;
        Ok(())
    }
}

/// Finds whether the type no longer lists the interface, and is one of those of a union of its name.
fn compare_listing(
    changes: &mut ChangeList,
    pair: SchemaPair<'_>,
    ty: &NamedType,
    around: Places,
    listed: &ComponentName,
    new: &ExtendedType,
) -> Result<(), ValidationError>
    requires was { Implements pair.old.now ty.now listed.now.name }
    requires is { type_definition pair.new.now ty.now ≡ Some new.now }
    ensures { OnOk result (Adds pair.entry.old.now pair.entry.new.now changes.old changes.new) }
{
    if new.lists_interface(&listed.name) {
        return Ok(());
    }
    push_removed_interface(changes, pair, ty, around, listed, false)?;
    Ok(())
}

fn push_removed_interface(
    changes: &mut ChangeList,
    pair: SchemaPair<'_>,
    ty: &NamedType,
    around: Places,
    listed: &ComponentName,
    is_lost: bool,
) -> Result<(), ValidationError>
    requires was { Implements pair.old.now ty.now listed.now.name }
    requires no_longer { ¬ (Implements pair.new.now ty.now listed.now.name × IsSubtype pair.new.now listed.now.name ty.now) }
    requires lost { IsTrue is_lost → NamesKind pair.old.now is_object_type ty.now × ¬ IsSubtype pair.new.now listed.now.name ty.now }
    ensures { OnOk result (Finds pair.entry.old.now pair.entry.new.now changes.old changes.new (λ merging. IsFalse is_lost)) }
{
    let alloc = changes.allocator();
    let ty = ty.clone_in(alloc)?;
    let interface = listed.name.clone_in(alloc)?;
    let places = Places {
        old: listed.name.location(),
        new: around.new,
    };
    changes.push(
        pair,
        Change::InterfaceRemoved {
            ty,
            interface,
            is_lost,
        },
        places,
    )?;
    Ok(())
}

fn find_added_interfaces(
    changes: &mut ChangeList,
    pair: SchemaPair<'_>,
    ty: &NamedType,
    around: Places,
    old: &ExtendedType,
    new: &ExtendedType,
) -> Result<(), ValidationError>
    requires was { type_definition pair.old.now ty.now ≡ Some old.now }
    requires is { type_definition pair.new.now ty.now ≡ Some new.now }
    ensures { OnOk result (Adds pair.entry.old.now pair.entry.new.now changes.old changes.new) }
{
    for listed in new.implements_interfaces() {
        find_added_interface(changes, pair, ty, around, old, listed)?;
    }
    Ok(())
}

fn find_added_interface(
    changes: &mut ChangeList,
    pair: SchemaPair<'_>,
    ty: &NamedType,
    around: Places,
    old: &ExtendedType,
    listed: &ComponentName,
) -> Result<(), ValidationError>
    requires was { type_definition pair.old.now ty.now ≡ Some old.now }
    requires is { Implements pair.new.now ty.now listed.now.name }
    ensures { OnOk result (Adds pair.entry.old.now pair.entry.new.now changes.old changes.new) }
{
    if old.lists_interface(&listed.name) || is_gained_root(pair, &listed.name, ty) {
        return Ok(());
    }
    let places = Places {
        old: around.old,
        new: listed.name.location(),
    };
    let gain = gain_of(pair, &listed.name, ty);
    push_added_interface(changes, pair, ty, places, &listed.name, gain)?;
    Ok(())
}

fn push_added_interface(
    changes: &mut ChangeList,
    pair: SchemaPair<'_>,
    ty: &NamedType,
    places: Places,
    interface: &NamedType,
    gain: Gain,
) -> Result<(), ValidationError>
    requires { IsChange pair.old.now pair.new.now (change.InterfaceAdded ty.now interface.now gain) }
    ensures { OnOk result (Finds pair.entry.old.now pair.entry.new.now changes.old changes.new (λ merging. IsFalse (breaks_subscriptions gain))) }
{
    let alloc = changes.allocator();
    let ty = ty.clone_in(alloc)?;
    let interface = interface.clone_in(alloc)?;
    changes.push(
        pair,
        Change::InterfaceAdded {
            ty,
            interface,
            gain,
        },
        places,
    )?;
    Ok(())
}

/// Finds the changes of the members of a union. If none breaks documents, each old member is still an object of the type.
///
/// Specification: 3.8 Unions; 5.5.2.3 Fragment Spread Is Possible.
pub fn compare_members(
    changes: &mut ChangeList,
    pair: SchemaPair<'_>,
    ty: &NamedType,
    around: Places,
    old: &ExtendedType,
    new: &ExtendedType,
) -> Result<(), ValidationError>
    requires was { type_definition pair.old.now ty.now ≡ Some old.now }
    requires is { type_definition pair.new.now ty.now ≡ Some new.now }
    ensures { OnOk result (Finds pair.entry.old.now pair.entry.new.now changes.old changes.new (λ merging. All (λ member. IsObjectOf pair.entry.new.now ty.now member.name) (members_of old.now))) }
{
    compare_old_members(changes, pair, ty, around, old)?;
    find_added_members(changes, pair, ty, around, new)?;
    Ok(())
}

fn compare_old_members(
    changes: &mut ChangeList,
    pair: SchemaPair<'_>,
    ty: &NamedType,
    around: Places,
    old: &ExtendedType,
) -> Result<(), ValidationError>
    requires { type_definition pair.old.now ty.now ≡ Some old.now }
    ensures { OnOk result (Finds pair.entry.old.now pair.entry.new.now changes.old changes.new (λ merging. All (λ member. IsObjectOf pair.entry.new.now ty.now member.name) (members_of old.now))) }
{
    for member in members_of(old) {
        compare_old_member(changes, pair, ty, around, member)?;
    }
    Ok(())
}

fn compare_old_member(
    changes: &mut ChangeList,
    pair: SchemaPair<'_>,
    ty: &NamedType,
    around: Places,
    member: &ComponentName,
) -> Result<(), ValidationError>
    requires { HasMember pair.old.now ty.now member.now.name }
    ensures { OnOk result (Finds pair.entry.old.now pair.entry.new.now changes.old changes.new (λ merging. IsObjectOf pair.entry.new.now ty.now member.now.name)) }
{
    if is_object_of(pair.new, ty, &member.name) {
        return Ok(());
    }
    let alloc = changes.allocator();
    let union = ty.clone_in(alloc)?;
    let places = Places {
        old: member.name.location(),
        new: around.new,
    };
    let member = member.name.clone_in(alloc)?;
    changes.push(pair, Change::MemberRemoved { union, member }, places)?;
    Ok(())
}

/// Whether the name is that of an object of the type.
///
/// Specification: 5.5.2.3 Fragment Spread Is Possible, GetPossibleTypes.
fn is_object_of(schema: &Schema, ty: &NamedType, object: &NamedType) -> bool
    ensures { IsTrue result ↔ IsObjectOf schema.now ty.now object.now }
{
    match schema.types.get(object) {
        Some(ExtendedType::Object(_)) => schema.is_subtype(ty, object),
        _ => false,
    }
}

fn find_added_members(
    changes: &mut ChangeList,
    pair: SchemaPair<'_>,
    ty: &NamedType,
    around: Places,
    new: &ExtendedType,
) -> Result<(), ValidationError>
    requires { type_definition pair.new.now ty.now ≡ Some new.now }
    ensures { OnOk result (Adds pair.entry.old.now pair.entry.new.now changes.old changes.new) }
{
    for member in members_of(new) {
        find_added_member(changes, pair, ty, around, member)?;
    }
    Ok(())
}

fn find_added_member(
    changes: &mut ChangeList,
    pair: SchemaPair<'_>,
    ty: &NamedType,
    around: Places,
    member: &ComponentName,
) -> Result<(), ValidationError>
    requires { HasMember pair.new.now ty.now member.now.name }
    ensures { OnOk result (Adds pair.entry.old.now pair.entry.new.now changes.old changes.new) }
{
    if pair.old.is_subtype(ty, &member.name) || is_gained_root(pair, ty, &member.name) {
        return Ok(());
    }
    let places = Places {
        old: around.old,
        new: member.name.location(),
    };
    let gain = gain_of(pair, ty, &member.name);
    push_added_member(changes, pair, ty, places, &member.name, gain)?;
    Ok(())
}

fn push_added_member(
    changes: &mut ChangeList,
    pair: SchemaPair<'_>,
    ty: &NamedType,
    places: Places,
    member: &NamedType,
    gain: Gain,
) -> Result<(), ValidationError>
    requires { IsChange pair.old.now pair.new.now (change.MemberAdded ty.now member.now gain) }
    ensures { OnOk result (Finds pair.entry.old.now pair.entry.new.now changes.old changes.new (λ merging. IsFalse (breaks_subscriptions gain))) }
{
    let alloc = changes.allocator();
    let union = ty.clone_in(alloc)?;
    let member = member.clone_in(alloc)?;
    changes.push(
        pair,
        Change::MemberAdded {
            union,
            member,
            gain,
        },
        places,
    )?;
    Ok(())
}

/// What it means for responses that a type becomes one of those of an interface or a union.
fn gain_of(pair: SchemaPair<'_>, wide: &NamedType, ty: &NamedType) -> Gain
    ensures { IsGain pair.entry.old.now pair.entry.new.now wide.now ty.now result }
{
    if names_object_type(pair.new, ty) && !applies_to(pair.old, ty, wide) {
        Gain::Object
    } else {
        Gain::Nothing
    }
}

/// Whether the name is that of an object type.
fn names_object_type(schema: &Schema, name: &NamedType) -> bool
    ensures { IsTrue result ↔ NamesKind schema.now is_object_type name.now }
{
    match schema.types.get(name) {
        Some(ExtendedType::Object(_)) => true,
        _ => false,
    }
}

/// Whether the type is the root of subscriptions and becomes one of those of an interface or a union, which
/// `compare_subscription_root` finds.
fn is_gained_root(pair: SchemaPair<'_>, wide: &NamedType, ty: &NamedType) -> bool {
    is_composite_in(pair.old, wide)
        && is_composite_in(pair.new, wide)
        && !keeps_subscription_root(pair, wide)
        && pair.old.root_operation(OperationType::Subscription) == Some(ty)
}

fn is_composite_in(schema: &Schema, ty: &NamedType) -> bool {
    match schema.types.get(ty) {
        Some(definition) => definition.is_composite(),
        None => false,
    }
}

/// Finds whether the root of subscriptions becomes one of the objects of a composite type, so that what is selected on the type is
/// selected on the root for the first time.
///
/// Specification: 5.2.3.1 Single Root Field.
pub fn compare_subscription_root(
    changes: &mut ChangeList,
    pair: SchemaPair<'_>,
    ty: &NamedType,
    around: Places,
    new: &ExtendedType,
) -> Result<(), ValidationError>
    ensures { OnOk result (Finds pair.entry.old.now pair.entry.new.now changes.old changes.new (λ merging. KeepsSubscriptionRootFrom pair.entry.old.now pair.entry.new.now ty.now)) }
{
    let Some(root) = pair.old.root_operation(OperationType::Subscription) else {
        return Ok(());
    };
    if keeps_subscription_root(pair, ty) {
        return Ok(());
    }
    match new {
        ExtendedType::Union(_) => {
            let places = Places {
                old: around.old,
                new: place_in(members_of(new), root),
            };
            push_added_member(changes, pair, ty, places, root, Gain::SubscriptionRoot)?;
            Ok(())
        }
        _ => {
            let places = places_in_root(pair, root, ty);
            push_added_interface(changes, pair, root, places, ty, Gain::SubscriptionRoot)?;
            Ok(())
        }
    }
}

/// The places where the root type is in the old schema, and where it lists the interface in the new one.
fn places_in_root(pair: SchemaPair<'_>, root: &NamedType, interface: &NamedType) -> Places {
    Places {
        old: match pair.old.types.get_key_value(root) {
            Some((key, _)) => key.location(),
            None => None,
        },
        new: match pair.new.types.get(root) {
            Some(definition) => place_in(definition.implements_interfaces(), interface),
            None => None,
        },
    }
}

/// The place of a name in a list of a definition.
fn place_in(listed: &[ComponentName], name: &NamedType) -> Option<SourceSpan> {
    let found = listed.iter().find(|other| other.name == *name)?;
    found.name.location()
}

/// Whether what is selected on a composite type is selected on the root of subscriptions only if it was before.
///
/// Specification: 5.2.3.1 Single Root Field.
fn keeps_subscription_root(pair: SchemaPair<'_>, ty: &NamedType) -> bool
    ensures keeps { IsTrue result → KeepsSubscriptionRootFrom pair.entry.old.now pair.entry.new.now ty.now }
    ensures loses { IsFalse result → (root : NameText) → root_name pair.entry.old.now operation.Subscription ≡ Some root → GainsRoot pair.entry.old.now pair.entry.new.now ty.now root }
{
    match pair.old.root_operation(OperationType::Subscription) {
        Some(root) => !applies_to(pair.new, root, ty) || applies_to(pair.old, root, ty),
        None => true,
    }
}

/// Whether what is selected on the type is selected on the object of this name.
///
/// Specification: 6.3.2 Field Collection, DoesFragmentTypeApply.
fn applies_to(schema: &Schema, object: &NamedType, ty: &NamedType) -> bool
    ensures { IsTrue result ↔ AppliesTo schema.now object.now ty.now }
{
    if ty == object {
        return true;
    }
    match schema.types.get(object) {
        Some(ExtendedType::Object(_)) => schema.is_subtype(ty, object),
        _ => false,
    }
}

/// The members of a union; none of another type.
fn members_of(definition: &ExtendedType) -> &[ComponentName]
    ensures { result.now ≡ members_of definition.now }
{
    match definition {
        ExtendedType::Union(definition) => definition.value.members.as_slice(),
        _ => &[],
    }
}
