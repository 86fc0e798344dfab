//! The roots of operations.

ghost use Rattle.std.specs.Prelude.{◌≡◌, IfOk, List};
ghost use Rattle.std.specs.Option.{option_copied};
ghost use Rattle.graphql_trees.specs.declared.documents.Definition.{Definition};
ghost use Rattle.graphql_schema_checking.specs.Definitions.{schemas};
ghost use Rattle.graphql_schema_checking.specs.SchemaBuilds.{roots_of_kind};
ghost use Rattle.graphql_schema_checking.specs.Sorting.{AreSorted};
ghost use Rattle.graphql_schema_building.specs.Numbered.{schema_originated};
ghost use Rattle.graphql_schema_building.specs.Parts.{listed_by, names_said, schema_parts};
ghost use Rattle.graphql_schema_building.specs.SchemaSays.{first_of_list, implied_roots, roots_said};
ghost use Rattle.graphql_schema_building.specs.Steps.{root_said};

use crate::numbered::SchemaPart;
use graphql_documents::documents::{ComponentName, ComponentOrigin};
use graphql_nodes::{Name, OperationType, ValidationError};
use graphql_schema_checking::definitions::SortedDefinitions;
use graphql_schema_checking::kinds::type_name;
use graphql_schema_checking::roots::{default_root, is_same_operation};
use graphql_trees::RootOperationTypeDefinition;
use std::alloc::Global;

/// The name of the type of a root, with its origin.
#[derive(Clone, Copy)]
struct Root<'a> {
    origin: ComponentOrigin,
    name: &'a Name,
}

/// The type of the root of a kind of operations, if there is one: the type that the definition of the schema or one
/// of its extensions names; if the schema is not defined, before those the type of the default name. The only error is a failed
/// allocation.
///
/// Specification: 3.3.1 Root Operation Types.
pub fn build_root(
    alloc: Global,
    sorted: &SortedDefinitions<'_>,
    parts: &[SchemaPart<'_>],
    operation_type: OperationType,
) -> Result<Option<ComponentName>, ValidationError>
    ensures { (definitions : List Definition) → AreSorted definitions sorted.now → schema_originated parts.now ≡ schema_parts definitions →
        IfOk result (λ root. root ≡ first_of_list (roots_said definitions operation_type)) }
{
    match first_root(sorted, parts, operation_type) {
        Some(root) => {
            let name = root.name.clone_in(alloc)?;
            Ok(Some(ComponentName {
                origin: root.origin,
                name,
            }))
        }
        None => Ok(None),
    }
}

fn first_root<'a>(
    sorted: &SortedDefinitions<'a>,
    parts: &[SchemaPart<'a>],
    operation_type: OperationType,
) -> Option<Root<'a>>
    ensures { (definitions : List Definition) → AreSorted definitions sorted.now → schema_originated parts.now ≡ schema_parts definitions →
        root_said result ≡ first_of_list (roots_said definitions operation_type) }
{
    match implied_root(sorted, operation_type) {
        Some(root) => Some(root),
        None => named_root(parts, operation_type),
    }
}

/// The type of the default name, if the schema is not defined.
fn implied_root<'a>(
    sorted: &SortedDefinitions<'a>,
    operation_type: OperationType,
) -> Option<Root<'a>>
    ensures { (definitions : List Definition) → AreSorted definitions sorted.now →
        root_said result ≡ first_of_list (names_said (implied_roots definitions operation_type (schemas definitions))) }
{
    if !sorted.schemas.is_empty() {
        return None;
    }
    match default_root(&sorted.types, operation_type) {
        Some(definition) => Some(Root {
            origin: ComponentOrigin::Definition,
            name: type_name(definition),
        }),
        None => None,
    }
}

/// The first type that one of the parts of the schema names.
fn named_root<'a>(parts: &[SchemaPart<'a>], operation_type: OperationType) -> Option<Root<'a>>
    ensures { root_said result ≡ first_of_list (names_said
        (listed_by (λ part. roots_of_kind operation_type part.root_operations) (schema_originated parts.now))) }
{
    for part in parts {
        let roots = part.definition.root_operations.as_slice();
        if let Some(name) = root_of_kind(roots, operation_type) {
            return Some(Root {
                origin: part.origin,
                name,
            });
        }
    }
    None
}

fn root_of_kind(
    roots: &[RootOperationTypeDefinition],
    operation_type: OperationType,
) -> Option<&Name>
    ensures { option_copied result ≡ first_of_list (roots_of_kind operation_type roots.now) }
{
    for root in roots {
        if is_same_operation(root.operation_type, operation_type) {
            return Some(&root.name);
        }
    }
    None
}
