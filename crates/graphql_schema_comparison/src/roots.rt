//! Root operation types.

ghost use Rattle.std.specs.Prelude.{◌≡◌, OnOk, Some};
ghost use Rattle.graphql_nodes.specs.Names.{SameName};
ghost use Rattle.graphql_document_building.specs.Trees.{root_name};
ghost use Rattle.graphql_schema_changes.specs.Keeps.{KeepsRoots};
ghost use Rattle.graphql_change_kinds.specs.Found.{Finds};
ghost use Rattle.graphql_schema_comparison.specs.Comparisons.{KeepsRoot};

use graphql_change_kinds::{Change, ChangeList, Places, SchemaPair};
use graphql_nodes::{NamedType, OperationType, SourceSpan, ValidationError};

/// Finds the changes of the root types. If none breaks documents, each root type that was there is there, with its name.
///
/// Specification: 3.3.1 Root Operation Types.
pub(crate) fn compare_roots(
    changes: &mut ChangeList,
    pair: SchemaPair<'_>,
) -> Result<(), ValidationError>
    ensures { OnOk result (Finds pair.entry.old.now pair.entry.new.now changes.old changes.new (λ merging. KeepsRoots pair.entry.old.now pair.entry.new.now)) }
{
    compare_root(changes, pair, OperationType::Query)?;
    compare_root(changes, pair, OperationType::Mutation)?;
    compare_root(changes, pair, OperationType::Subscription)?;
    Ok(())
}

fn compare_root(
    changes: &mut ChangeList,
    pair: SchemaPair<'_>,
    operation: OperationType,
) -> Result<(), ValidationError>
    ensures { OnOk result (Finds pair.entry.old.now pair.entry.new.now changes.old changes.new (λ merging. KeepsRoot pair.entry.old.now pair.entry.new.now operation)) }
{
    let old = pair.old.root_operation(operation);
    let new = pair.new.root_operation(operation);
    match (old, new) {
        (Some(old), Some(new)) => {
            compare_names(changes, pair, operation, old, new)?;
            Ok(())
        }
        (Some(old), None) => {
            let places = places_of(pair, old.location(), None);
            changes.push(pair, Change::RootRemoved { operation }, places)?;
            Ok(())
        }
        (None, Some(new)) => {
            let places = places_of(pair, None, new.location());
            changes.push(pair, Change::RootAdded { operation }, places)?;
            Ok(())
        }
        (None, None) => Ok(()),
    }
}

/// Finds whether the two root types have one name.
fn compare_names(
    changes: &mut ChangeList,
    pair: SchemaPair<'_>,
    operation: OperationType,
    old: &NamedType,
    new: &NamedType,
) -> Result<(), ValidationError>
    requires was { root_name pair.old.now operation ≡ Some old.now }
    requires is { root_name pair.new.now operation ≡ Some new.now }
    ensures { OnOk result (Finds pair.entry.old.now pair.entry.new.now changes.old changes.new (λ merging. SameName old.now new.now)) }
{
    if old == new {
        return Ok(());
    }
    let alloc = changes.allocator();
    let places = places_of(pair, old.location(), new.location());
    let from = old.clone_in(alloc)?;
    let to = new.clone_in(alloc)?;
    changes.push(
        pair,
        Change::RootChanged {
            operation,
            from,
            to,
        },
        places,
    )?;
    Ok(())
}

/// The places of two root types; of one that is not there, that of the schema definition.
fn places_of(pair: SchemaPair<'_>, old: Option<SourceSpan>, new: Option<SourceSpan>) -> Places {
    Places {
        old: old.or(pair.old.schema_definition.location),
        new: new.or(pair.new.schema_definition.location),
    }
}
