//! The fragments of several documents, each under its name.

ghost use Rattle.std.specs.Prelude.{◌≡◌, ◌∷◌, ◌++◌, [], IfOk, None, OnOk};
ghost use Rattle.indexmap.specs.IndexMap.{get, hasher_of};
ghost use Rattle.graphql_nodes.specs.Names.{same_name};
ghost use Rattle.graphql_variables.specs.Uses.{names_of};
ghost use Rattle.graphql_pools.specs.Pools.{AddsIfNew, Borrows, Gathers, HasFirst, entries_among};

use graphql_documents::documents::{ExecutableDocument, Fragment, OperationMap};
use graphql_hash_seeds::HashSeed;
use graphql_nodes::{Name, Node, ValidationError};
use indexmap::{IndexMap, IndexSet};
use std::alloc::Global;

/// The fragments of these documents, as a document without operations, in maps of this seed. Of several with one name it has the first.
/// The only error is a failed allocation.
///
/// Specification: 2.8 Fragments.
pub fn pool_of(
    alloc: Global,
    hash_seed: HashSeed,
    own: &[ExecutableDocument],
    lent: &[ExecutableDocument],
) -> Result<ExecutableDocument, ValidationError>
    ensures gathers { IfOk result (λ pool. Gathers (entries_among own.now ++ entries_among lent.now) [] pool.fragments.entries) }
    ensures first { IfOk result (λ pool. HasFirst (entries_among own.now ++ entries_among lent.now) [] pool.fragments.entries) }
{
    let mut fragments = IndexMap::with_hasher(alloc, hash_seed);
    add_fragments_of_files(alloc, own, &mut fragments)?;
    add_fragments_of_files(alloc, lent, &mut fragments)?;
    let named = IndexMap::with_hasher(alloc, hash_seed);
    Ok(ExecutableDocument {
        operations: OperationMap {
            anonymous: None,
            named,
        },
        fragments,
    })
}

fn add_fragments_of_files(
    alloc: Global,
    files: &[ExecutableDocument],
    fragments: &mut IndexMap<Name, Node<Fragment>, HashSeed>,
) -> Result<(), ValidationError>
    ensures gathers { OnOk result (Gathers (entries_among files.now) fragments.old.entries fragments.new.entries) }
    ensures first { OnOk result (HasFirst (entries_among files.now) fragments.old.entries fragments.new.entries) }
{
    for file in files {
        add_fragments(alloc, file, fragments)?;
    }
    Ok(())
}

/// Adds the fragments of a document whose names are not there yet.
fn add_fragments(
    alloc: Global,
    file: &ExecutableDocument,
    fragments: &mut IndexMap<Name, Node<Fragment>, HashSeed>,
) -> Result<(), ValidationError>
    ensures gathers { OnOk result (Gathers file.now.fragments.entries fragments.old.entries fragments.new.entries) }
    ensures first { OnOk result (HasFirst file.now.fragments.entries fragments.old.entries fragments.new.entries) }
{
    for (name, fragment) in &file.fragments {
        add_if_new(alloc, name, fragment, fragments)?;
    }
    Ok(())
}

/// Adds a fragment under this name, if none is there.
fn add_if_new(
    alloc: Global,
    name: &Name,
    fragment: &Node<Fragment>,
    fragments: &mut IndexMap<Name, Node<Fragment>, HashSeed>,
) -> Result<(), ValidationError>
    ensures { OnOk result (AddsIfNew name.now fragment.now fragments.old.entries fragments.new.entries) }
{
    if fragments.contains_key(name) {
        return Ok(());
    }
    let name = name.clone_in(alloc)?;
    let fragment = fragment.clone()?;
    insert_new(fragments, name, fragment)
}

/// Puts a node under a name under which none is, behind the others.
fn insert_new<T: Drop>(
    nodes: &mut IndexMap<Name, Node<T>, HashSeed>,
    name: Name,
    node: Node<T>,
) -> Result<(), ValidationError>
    requires { get same_name nodes.old name ≡ None }
    ensures { OnOk result (nodes.new.entries ≡ nodes.old.entries ++ (name, node) ∷ []) }
{
    nodes.insert(name, node)?;
    Ok(())
}

/// Adds those fragments of the pool that have one of these names, if they are not there yet. The only error is a failed allocation.
///
/// Specification: 2.8 Fragments.
pub fn borrow_fragments(
    alloc: Global,
    pool: &ExecutableDocument,
    names: &IndexSet<&Name, HashSeed>,
    fragments: &mut IndexMap<Name, Node<Fragment>, HashSeed>,
) -> Result<(), ValidationError>
    ensures { OnOk result (Borrows pool.now (names_of names.now.keys) fragments.old.entries fragments.new.entries) }
{
    for name in names {
        borrow_fragment(alloc, pool, *name, fragments)?;
    }
    Ok(())
}

fn borrow_fragment(
    alloc: Global,
    pool: &ExecutableDocument,
    name: &Name,
    fragments: &mut IndexMap<Name, Node<Fragment>, HashSeed>,
) -> Result<(), ValidationError>
    ensures { OnOk result (Borrows pool.now (name.now ∷ []) fragments.old.entries fragments.new.entries) }
{
    match pool.fragments.get(name) {
        Some(fragment) => add_if_new(alloc, &fragment.value.name, fragment, fragments),
        None => Ok(()),
    }
}
