//! Arguments and input fields, two of one name at a time.

ghost use Rattle.std.specs.Prelude.{◌≡◌, ◌⊎◌, IfOk, IsFalse, IsNone, IsSome, IsTrue, OnOk};
ghost use Rattle.graphql_documents.specs.Schemas.{is_required};
ghost use Rattle.graphql_documents.specs.TypeReferences.{is_assignable, is_non_null, same_type};
ghost use Rattle.graphql_schema_changes.specs.Keeps.{KeepsInputValue};
ghost use Rattle.graphql_change_kinds.specs.Found.{Finds};
ghost use Rattle.graphql_change_kinds.specs.Breaks.{is_given};
ghost use Rattle.graphql_input_comparison.specs.Inputs.{KeepsDefault, is_owner_given};
ghost use Rattle.graphql_input_comparison.specs.Owners.{IsOwner, OwnerHas, OwnerHasTwice, OwnerLacks, coordinate_of};

use graphql_change_kinds::{Change, ChangeList, InputCoordinate, Places, SchemaPair};
use graphql_coordinates::{
    DirectiveArgumentCoordinate, FieldArgumentCoordinate, TypeAttributeCoordinate,
};
use graphql_documents::documents::{InputValueDefinition, Type};
use graphql_nodes::{Name, NamedType, Node, SourceSpan, ValidationError};
use std::alloc::Global;

/// What has arguments or input fields.
#[derive(Clone, Copy)]
pub enum Owner<'a> {
    Field {
        ty: &'a NamedType,
        field: &'a Name,
    },
    InputObject(&'a NamedType),
    Directive {
        directive: &'a Name,
        is_executable: bool,
    },
}

impl Owner<'_> {
    /// The coordinate of the argument or input field of this name.
    pub fn input(self, alloc: Global, name: &Name) -> Result<InputCoordinate, ValidationError>
        ensures is { IfOk result (λ input. input ≡ coordinate_of self.entry name.now) }
        ensures given { IfOk result (λ input. is_given input ≡ is_owner_given self.entry) }
    {
        match self {
            Owner::Field { ty, field } => Ok(InputCoordinate::Argument(FieldArgumentCoordinate::new(
                alloc, ty, field, name,
            )?)),
            Owner::InputObject(ty) => Ok(InputCoordinate::InputField(TypeAttributeCoordinate::new(
                alloc, ty, name,
            )?)),
            Owner::Directive {
                directive,
                is_executable,
            } => {
                let coordinate = DirectiveArgumentCoordinate::new(alloc, directive, name)?;
                if is_executable {
                    Ok(InputCoordinate::DirectiveArgument(coordinate))
                } else {
                    Ok(InputCoordinate::SchemaDirectiveArgument(coordinate))
                }
            }
        }
    }
}

/// The place of an argument or input field, without its description.
pub(crate) fn place_of_input(input: &Node<InputValueDefinition>) -> Option<SourceSpan> {
    SourceSpan::recompose(input.value.name.location(), input.location)
}

/// Finds the changes of an argument or input field. If none breaks documents, each value and each variable that could be given for
/// the old one can be given for the new one.
///
/// Specification: 5.8.5 All Variable Usages Are Allowed.
pub(crate) fn compare_inputs(
    changes: &mut ChangeList,
    pair: SchemaPair<'_>,
    owner: Owner<'_>,
    name: &Name,
    old: &Node<InputValueDefinition>,
    new: &Node<InputValueDefinition>,
) -> Result<(), ValidationError>
    requires known { IsOwner pair.old.now owner }
    requires was { OwnerHas pair.old.now owner name.now old.now.value.value }
    requires is { OwnerHas pair.new.now owner name.now new.now.value.value }
    ensures { OnOk result (Finds pair.entry.old.now pair.entry.new.now changes.old changes.new (λ merging. IsTrue (is_owner_given owner.entry) → KeepsInputValue old.now.value.value new.now.value.value)) }
{
    compare_types_of(changes, pair, owner, name, old, new)?;
    compare_defaults(changes, pair, owner, name, old, new)?;
    Ok(())
}

/// Finds whether what can be used for the old type can be used for the new one.
fn compare_types_of(
    changes: &mut ChangeList,
    pair: SchemaPair<'_>,
    owner: Owner<'_>,
    name: &Name,
    old: &Node<InputValueDefinition>,
    new: &Node<InputValueDefinition>,
) -> Result<(), ValidationError>
    requires known { IsOwner pair.old.now owner }
    requires was { OwnerHas pair.old.now owner name.now old.now.value.value }
    requires is { OwnerHas pair.new.now owner name.now new.now.value.value }
    ensures { OnOk result (Finds pair.entry.old.now pair.entry.new.now changes.old changes.new (λ merging. IsTrue (is_owner_given owner.entry) → IsTrue (is_assignable old.now.value.value.ty.value.value new.now.value.value.ty.value.value))) }
{
    let from = type_of_input(old);
    let to = type_of_input(new);
    if is_same_type(from, to) {
        return Ok(());
    }
    let from = from.clone()?;
    let to = to.clone()?;
    let input = owner.input(changes.allocator(), name)?;
    changes.push(
        pair,
        Change::InputTypeChanged { input, from, to },
        places_of(old, new),
    )?;
    Ok(())
}

fn type_of_input(input: &Node<InputValueDefinition>) -> &Type
    ensures { result.now ≡ input.now.value.value.ty.value.value }
{
    &input.value.ty.value
}

/// Finds whether a value that could be left out still can.
fn compare_defaults(
    changes: &mut ChangeList,
    pair: SchemaPair<'_>,
    owner: Owner<'_>,
    name: &Name,
    old: &Node<InputValueDefinition>,
    new: &Node<InputValueDefinition>,
) -> Result<(), ValidationError>
    requires known { IsOwner pair.old.now owner }
    requires was { OwnerHas pair.old.now owner name.now old.now.value.value }
    requires is { OwnerHas pair.new.now owner name.now new.now.value.value }
    ensures { OnOk result (Finds pair.entry.old.now pair.entry.new.now changes.old changes.new (λ merging. IsTrue (is_owner_given owner.entry) → KeepsDefault old.now.value.value new.now.value.value)) }
{
    match (&old.value.default_value, &new.value.default_value) {
        (Some(_), None) => {
            push_removed_default(changes, pair, owner, name, old, new)?;
            Ok(())
        }
        (None, Some(_)) => {
            let input = owner.input(changes.allocator(), name)?;
            changes.push(pair, Change::DefaultAdded(input), places_of(old, new))?;
            Ok(())
        }
        (Some(from), Some(to)) => {
            if *from.value != *to.value {
                let input = owner.input(changes.allocator(), name)?;
                changes.push(pair, Change::DefaultChanged(input), places_of(old, new))?;
            }
            Ok(())
        }
        (None, None) => Ok(()),
    }
}

fn push_removed_default(
    changes: &mut ChangeList,
    pair: SchemaPair<'_>,
    owner: Owner<'_>,
    name: &Name,
    old: &Node<InputValueDefinition>,
    new: &Node<InputValueDefinition>,
) -> Result<(), ValidationError>
    requires known { IsOwner pair.old.now owner }
    requires was { OwnerHas pair.old.now owner name.now old.now.value.value }
    requires is { OwnerHas pair.new.now owner name.now new.now.value.value }
    requires had_default { IsSome old.now.value.value.default_value }
    requires has_none { IsNone new.now.value.value.default_value }
    ensures { OnOk result (Finds pair.entry.old.now pair.entry.new.now changes.old changes.new (λ merging. IsTrue (is_owner_given owner.entry) → IsFalse (is_non_null new.now.value.value.ty.value.value))) }
{
    let input = owner.input(changes.allocator(), name)?;
    let is_required = new.value.ty.value.is_non_null();
    changes.push(
        pair,
        Change::DefaultRemoved { input, is_required },
        places_of(old, new),
    )?;
    Ok(())
}

/// Whether the two are one type as written.
pub fn is_same_type(from: &Type, to: &Type) -> bool
    ensures { result ≡ same_type from.now to.now }
{
    match (from, to) {
        (Type::Named(name), Type::Named(other)) => name == other,
        (Type::NonNullNamed(name), Type::NonNullNamed(other)) => name == other,
        (Type::List(item), Type::List(other)) => is_same_type(item, other),
        (Type::NonNullList(item), Type::NonNullList(other)) => is_same_type(item, other),
        _ => false,
    }
}

fn places_of(old: &Node<InputValueDefinition>, new: &Node<InputValueDefinition>) -> Places {
    Places {
        old: place_of_input(old),
        new: place_of_input(new),
    }
}

/// Adds that an argument or input field is gone.
pub(crate) fn push_removed_input(
    changes: &mut ChangeList,
    pair: SchemaPair<'_>,
    owner: Owner<'_>,
    name: &Name,
    around: Places,
    old: &Node<InputValueDefinition>,
) -> Result<(), ValidationError>
    requires known { IsOwner pair.old.now owner }
    requires was { OwnerHas pair.old.now owner name.now old.now.value.value }
    requires lacks { OwnerLacks pair.new.now owner name.now }
    ensures { OnOk result (Finds pair.entry.old.now pair.entry.new.now changes.old changes.new (λ merging. IsFalse (is_owner_given owner.entry))) }
{
    let input = owner.input(changes.allocator(), name)?;
    let places = Places {
        old: place_of_input(old),
        new: around.new,
    };
    changes.push(pair, Change::InputRemoved(input), places)?;
    Ok(())
}

/// Adds an argument or input field that was not there. If that breaks no documents, it can be left out.
pub(crate) fn push_added_input(
    changes: &mut ChangeList,
    pair: SchemaPair<'_>,
    owner: Owner<'_>,
    name: &Name,
    around: Places,
    new: &Node<InputValueDefinition>,
) -> Result<(), ValidationError>
    requires known { IsOwner pair.old.now owner }
    requires is { OwnerHas pair.new.now owner name.now new.now.value.value }
    requires is_new { OwnerLacks pair.old.now owner name.now ⊎ OwnerHasTwice pair.new.now owner name.now }
    ensures { OnOk result (Finds pair.entry.old.now pair.entry.new.now changes.old changes.new (λ merging. IsTrue (is_owner_given owner.entry) → IsFalse (is_required new.now.value.value))) }
{
    let input = owner.input(changes.allocator(), name)?;
    let is_required = new.value.is_required();
    let places = Places {
        old: around.old,
        new: place_of_input(new),
    };
    changes.push(pair, Change::InputAdded { input, is_required }, places)?;
    Ok(())
}
