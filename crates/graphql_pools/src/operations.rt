//! The document of one operation.

ghost use Rattle.std.specs.Prelude.{◌≡◌, ◌∷◌, [], IfOk, None};
ghost use Rattle.graphql_variables.specs.Uses.{names_of};
ghost use Rattle.graphql_pools.specs.Pools.{HoldsAlone, IsOperationDocument};

use crate::fragments::borrow_fragments;
use graphql_documents::documents::{ExecutableDocument, Operation, OperationMap};
use graphql_hash_seeds::HashSeed;
use graphql_nodes::{Name, Node, ValidationError};
use indexmap::{IndexMap, IndexSet};
use std::alloc::Global;

/// The document of an operation and of the fragments of the pool that have these names. The only error is a failed allocation.
///
/// Specification: 2.2 Document.
pub fn document_of(
    alloc: Global,
    pool: &ExecutableDocument,
    operation: &Node<Operation>,
    names: &IndexSet<&Name, HashSeed>,
) -> Result<ExecutableDocument, ValidationError>
    ensures { IfOk result (IsOperationDocument pool.now operation.now (names_of names.now.keys)) }
{
    let mut fragments = IndexMap::with_hasher(alloc, pool.hash_seed());
    borrow_fragments(alloc, pool, names, &mut fragments)?;
    // The names of fragments differ, as a map says where it is counted.
    let _count = fragments.len();
    let operations = operation_alone(alloc, pool.hash_seed(), operation)?;
    Ok(ExecutableDocument {
        operations,
        fragments,
    })
}

/// The operation, under its name if it has one.
fn operation_alone(
    alloc: Global,
    hash_seed: HashSeed,
    operation: &Node<Operation>,
) -> Result<OperationMap, ValidationError>
    ensures { IfOk result (HoldsAlone operation.now) }
{
    let node = operation.clone()?;
    match &operation.value.name {
        Some(name) => {
            let name = name.clone_in(alloc)?;
            named_alone(alloc, hash_seed, name, node)
        }
        None => Ok(OperationMap {
            anonymous: Some(node),
            named: IndexMap::with_hasher(alloc, hash_seed),
        }),
    }
}

fn named_alone(
    alloc: Global,
    hash_seed: HashSeed,
    name: Name,
    node: Node<Operation>,
) -> Result<OperationMap, ValidationError>
    ensures { IfOk result (λ map. (map.anonymous ≡ None) × (map.named.entries ≡ (name, node) ∷ [])) }
{
    let mut named = IndexMap::with_hasher(alloc, hash_seed);
    named.insert(name, node)?;
    Ok(OperationMap {
        anonymous: None,
        named,
    })
}
