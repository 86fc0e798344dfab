//! Documents that were built against a schema.

mod names;
mod selections;

ghost use Rattle.indexmap.specs.IndexMap.{values};
ghost use Rattle.std.specs.Prelude.{◌≡◌, ◌↔◌, All, IsTrue, option_to_list};
ghost use Rattle.std.specs.Option.{option_copied};
ghost use Rattle.graphql_built.specs.BuiltSelections.{FragmentIsBuilt};
ghost use Rattle.graphql_documents.specs.Built.{IsBuilt, OperationIsBuilt};
ghost use Rattle.graphql_documents.specs.Executables.{operations_of};
ghost use Rattle.graphql_documents.specs.Schemas.{root_operation};

use graphql_documents::documents::{
    ComponentName, ExecutableDocument, Fragment, Operation, Schema, SchemaDefinition,
};
use graphql_hash_seeds::HashSeed;
use graphql_nodes::{Name, Node, OperationType};
use indexmap::IndexMap;
use names::stands_under_own_names;
use selections::sets_are_built;

/// Whether the document was built against the schema:
/// - every type, field, input field, enum value and directive definition of the schema, and every fragment of
///   the document, is listed under its own name;
/// - the schema names the root type of each operation;
/// - each selection set has the type of its place: the root type, the inner named type of the field
///   above, the type condition, or the type of the set around an inline fragment without one;
/// - each field holds the definition that the type of its set gives it, compared by contents, and its
///   inner named type is a defined output type.
///
/// Spreads are not followed. It takes no memory, and its time is linear in the schema and in the
/// document, with the definitions that its fields hold.
///
/// Specification: 3.3.1 Root Operation Types; 5.3.1 Field Selections; 2.8 Fragments.
pub fn built_against(schema: &Schema, document: &ExecutableDocument) -> bool
    ensures { IsTrue result ↔ IsBuilt schema.now document.now }
{
    stands_under_own_names(schema)
        && operations_are_built(schema, document)
        && fragments_are_built(schema, &document.fragments)
}

/// Whether each operation is built.
fn operations_are_built(schema: &Schema, document: &ExecutableDocument) -> bool
    ensures { IsTrue result ↔
        All (λ o. OperationIsBuilt schema.now o.value.value) (operations_of document.now) }
{
    anonymous_operation_is_built(schema, &document.operations.anonymous)
        && named_operations_are_built(schema, &document.operations.named)
}

/// Whether the operation without a name is built, if there is one.
fn anonymous_operation_is_built(schema: &Schema, anonymous: &Option<Node<Operation>>) -> bool
    ensures { IsTrue result ↔
        All (λ o. OperationIsBuilt schema.now o.value.value) (option_to_list anonymous.now) }
{
    match anonymous {
        Some(operation) => operation_is_built(schema, &operation.value),
        None => true,
    }
}

/// Whether each of these operations is built.
fn named_operations_are_built(
    schema: &Schema,
    named: &IndexMap<Name, Node<Operation>, HashSeed>,
) -> bool
    ensures { IsTrue result ↔
        All (λ o. OperationIsBuilt schema.now o.value.value) (values named.now) }
{
    named
        .values()
        .all(|operation| operation_is_built(schema, &operation.value))
}

/// Whether an operation is on the root type that the schema names, and is built for it.
fn operation_is_built(schema: &Schema, operation: &Operation) -> bool
    ensures { IsTrue result ↔ OperationIsBuilt schema.now operation.now }
{
    match root_operation(&schema.schema_definition.value, operation.operation_type) {
        Some(root) => {
            operation.selection_set.ty == root.name
                && sets_are_built(schema, &operation.selection_set)
        }
        None => false,
    }
}

/// The root type of the operations of a kind.
fn root_operation(
    definition: &SchemaDefinition,
    operation_type: OperationType,
) -> Option<&ComponentName>
    ensures { option_copied result ≡ root_operation definition.now operation_type }
{
    match operation_type {
        OperationType::Query => definition.query.as_ref(),
        OperationType::Mutation => definition.mutation.as_ref(),
        OperationType::Subscription => definition.subscription.as_ref(),
    }
}

/// Whether each of these fragments is built.
fn fragments_are_built(
    schema: &Schema,
    fragments: &IndexMap<Name, Node<Fragment>, HashSeed>,
) -> bool
    ensures { IsTrue result ↔
        All (λ entry. FragmentIsBuilt schema.now entry.0 entry.1.value.value) fragments.now.entries }
{
    for (name, fragment) in fragments {
        if !fragment_is_built(schema, name, fragment) {
            return false;
        }
    }
    true
}

/// Whether a fragment is listed under its own name, and is built for its type condition.
fn fragment_is_built(schema: &Schema, name: &Name, fragment: &Node<Fragment>) -> bool
    ensures { IsTrue result ↔ FragmentIsBuilt schema.now name.now fragment.now.value.value }
{
    *name == fragment.value.name && sets_are_built(schema, &fragment.value.selection_set)
}
