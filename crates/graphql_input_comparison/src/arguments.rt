//! The arguments of fields and directives.

ghost use Rattle.std.specs.Prelude.{◌≡◌, All, Contains, IsFalse, IsTrue, OnOk};
ghost use Rattle.graphql_schema_changes.specs.Keeps.{KeepsArguments};
ghost use Rattle.graphql_change_kinds.specs.Found.{Finds};
ghost use Rattle.graphql_input_comparison.specs.Inputs.{KeepsArgument, WasRequired, is_owner_given};
ghost use Rattle.graphql_input_comparison.specs.Owners.{HasArguments, IsNewArgument, IsOwner, OwnerHas};

use crate::inputs::{Owner, compare_inputs, push_added_input, push_removed_input};
use graphql_change_kinds::{ChangeList, Places, SchemaPair};
use graphql_documents::documents::InputValueDefinition;
use graphql_name_tables::ByName;
use graphql_nodes::{Node, ValidationError};

/// Finds the changes of the arguments of a field or a directive. If none breaks documents, all that could be given for the old ones can
/// be given for the new ones.
///
/// Specification: 5.4 Arguments.
pub fn compare_arguments(
    changes: &mut ChangeList,
    pair: SchemaPair<'_>,
    owner: Owner<'_>,
    around: Places,
    old: &[Node<InputValueDefinition>],
    new: &[Node<InputValueDefinition>],
) -> Result<(), ValidationError>
    requires known { IsOwner pair.old.now owner }
    requires was { HasArguments pair.old.now owner old.now }
    requires is { HasArguments pair.new.now owner new.now }
    ensures { OnOk result (Finds pair.entry.old.now pair.entry.new.now changes.old changes.new (λ merging. IsTrue (is_owner_given owner.entry) → KeepsArguments old.now new.now)) }
{
    let alloc = changes.allocator();
    let old_by_name = ByName::new(alloc, changes.hash_seed, old, new.len())?;
    let new_by_name = ByName::new(alloc, changes.hash_seed, new, old.len())?;
    compare_old_arguments(changes, pair, owner, around, old, &new_by_name)?;
    compare_new_arguments(
        changes,
        pair,
        owner,
        around,
        &old_by_name,
        &new_by_name,
        new,
    )?;
    Ok(())
}

/// Finds whether each old argument is there and takes what it took.
fn compare_old_arguments(
    changes: &mut ChangeList,
    pair: SchemaPair<'_>,
    owner: Owner<'_>,
    around: Places,
    old: &[Node<InputValueDefinition>],
    new: &ByName<Node<InputValueDefinition>>,
) -> Result<(), ValidationError>
    requires known { IsOwner pair.old.now owner }
    requires was { HasArguments pair.old.now owner old.now }
    requires is { HasArguments pair.new.now owner new.now }
    ensures { OnOk result (Finds pair.entry.old.now pair.entry.new.now changes.old changes.new (λ merging. IsTrue (is_owner_given owner.entry) → All (KeepsArgument new.now) old.now)) }
{
    for argument in old {
        compare_old_argument(changes, pair, owner, around, argument, new)?;
    }
    Ok(())
}

fn compare_old_argument(
    changes: &mut ChangeList,
    pair: SchemaPair<'_>,
    owner: Owner<'_>,
    around: Places,
    argument: &Node<InputValueDefinition>,
    new: &ByName<Node<InputValueDefinition>>,
) -> Result<(), ValidationError>
    requires known { IsOwner pair.old.now owner }
    requires was { OwnerHas pair.old.now owner argument.now.value.value.name argument.now.value.value }
    requires is { HasArguments pair.new.now owner new.now }
    ensures { OnOk result (Finds pair.entry.old.now pair.entry.new.now changes.old changes.new (λ merging. IsTrue (is_owner_given owner.entry) → KeepsArgument new.now argument.now)) }
{
    match new.find(&argument.value.name) {
        Some(new) => {
            compare_inputs(changes, pair, owner, &argument.value.name, argument, new)?;
            Ok(())
        }
        None => {
            push_removed_input(changes, pair, owner, &argument.value.name, around, argument)?;
            Ok(())
        }
    }
}

/// Finds the arguments that were not there. If no change breaks documents, each new argument that is required was required before, where
/// each old argument takes what it took.
fn compare_new_arguments(
    changes: &mut ChangeList,
    pair: SchemaPair<'_>,
    owner: Owner<'_>,
    around: Places,
    old: &ByName<Node<InputValueDefinition>>,
    new_by_name: &ByName<Node<InputValueDefinition>>,
    new: &[Node<InputValueDefinition>],
) -> Result<(), ValidationError>
    requires known { IsOwner pair.old.now owner }
    requires was { HasArguments pair.old.now owner old.now }
    requires is { HasArguments pair.new.now owner new.now }
    requires same { new_by_name.now ≡ new.now }
    ensures { OnOk result (Finds pair.entry.old.now pair.entry.new.now changes.old changes.new (λ merging. IsTrue (is_owner_given owner.entry) →
        All (KeepsArgument new_by_name.now) old.now → All (WasRequired old.now) new.now)) }
{
    for argument in new {
        compare_new_argument(changes, pair, owner, around, old, new_by_name, argument)?;
    }
    Ok(())
}

fn compare_new_argument(
    changes: &mut ChangeList,
    pair: SchemaPair<'_>,
    owner: Owner<'_>,
    around: Places,
    old: &ByName<Node<InputValueDefinition>>,
    new: &ByName<Node<InputValueDefinition>>,
    argument: &Node<InputValueDefinition>,
) -> Result<(), ValidationError>
    requires known { IsOwner pair.old.now owner }
    requires was { HasArguments pair.old.now owner old.now }
    requires is { HasArguments pair.new.now owner new.now }
    requires there { OwnerHas pair.new.now owner argument.now.value.value.name argument.now.value.value }
    requires contained { Contains new.now argument.now }
    ensures { OnOk result (Finds pair.entry.old.now pair.entry.new.now changes.old changes.new (λ merging. IsTrue (is_owner_given owner.entry) →
        All (KeepsArgument new.now) old.now → WasRequired old.now argument.now)) }
{
    if was_required(old, new, argument) {
        return Ok(());
    }
    push_added_input(changes, pair, owner, &argument.value.name, around, argument)?;
    Ok(())
}

/// Whether an old argument has the name, so that an argument that is required now either was required, or changed, which its old
/// argument shows.
fn was_required(
    old: &ByName<Node<InputValueDefinition>>,
    new: &ByName<Node<InputValueDefinition>>,
    argument: &Node<InputValueDefinition>,
) -> bool
    requires { Contains new.now argument.now }
    ensures was { IsTrue result → All (KeepsArgument new.now) old.now → WasRequired old.now argument.now }
    ensures was_not { IsFalse result → IsNewArgument old.now new.now argument.now.value.value }
{
    let Some(old) = old.find(&argument.value.name) else {
        return false;
    };
    if old.value.is_required() || !argument.value.is_required() {
        return true;
    }
    match new.find(&argument.value.name) {
        Some(new) => new.value.is_required(),
        None => false,
    }
}
