//! Definitions and extensions of types that are found by their names.

ghost use Rattle.std.specs.Prelude.{◌≡◌, ◌∷◌, ◌++◌, [], IfOk, List, OnOk, map};
ghost use Rattle.graphql_trees.specs.declared.type_system.TypeDefinition.{TypeDefinition};
ghost use Rattle.graphql_repetitions.specs.References.{nows};
ghost use Rattle.graphql_schema_checking.specs.Steps.{AreFirst, FindsAll};

use crate::kinds::type_name;
use graphql_hash_seeds::HashSeed;
use graphql_nodes::{Name, ValidationError};
use graphql_trees::TypeDefinition;
use indexmap::IndexMap;
use std::alloc::Global;

/// The first definition of each name, in order. The only error is a failed allocation.
pub(crate) fn first_definitions<'a>(
    alloc: Global,
    hash_seed: HashSeed,
    types: &[&'a TypeDefinition],
) -> Result<IndexMap<&'a Name, &'a TypeDefinition, HashSeed>, ValidationError>
    ensures { IfOk result (λ first. AreFirst first (nows types.now)) }
{
    let mut first = IndexMap::with_hasher(alloc, hash_seed);
    for definition in types {
        add_if_new(&mut first, *definition)?;
    }
    Ok(first)
}

/// Adds a definition, unless one of its name is there.
fn add_if_new<'a>(
    first: &mut IndexMap<&'a Name, &'a TypeDefinition, HashSeed>,
    definition: &'a TypeDefinition,
) -> Result<(), ValidationError>
    ensures { OnOk result ((before : List TypeDefinition) → AreFirst first.old before →
        AreFirst first.new (before ++ definition.now ∷ [])) }
{
    let name = type_name(definition);
    if !first.contains_key(&name) {
        first.insert(name, definition)?;
    }
    Ok(())
}

/// The extensions of each name, in order. The only error is a failed allocation.
pub(crate) fn extensions_by_name<'a>(
    alloc: Global,
    hash_seed: HashSeed,
    extensions: &[&'a TypeDefinition],
) -> Result<IndexMap<&'a Name, Vec<&'a TypeDefinition>, HashSeed>, ValidationError>
    ensures { IfOk result (λ found. FindsAll found (nows extensions.now)) }
{
    let mut found = IndexMap::with_hasher(alloc, hash_seed);
    for extension in extensions {
        add_extension(&mut found, alloc, *extension)?;
    }
    Ok(found)
}

/// Puts the extension behind those of its name.
fn add_extension<'a>(
    found: &mut IndexMap<&'a Name, Vec<&'a TypeDefinition>, HashSeed>,
    alloc: Global,
    extension: &'a TypeDefinition,
) -> Result<(), ValidationError>
    ensures { OnOk result ((before : List TypeDefinition) → FindsAll found.old before →
        FindsAll found.new (before ++ extension.now ∷ [])) }
{
    let name = type_name(extension);
    match found.get_mut(&name) {
        Some(extensions) => extensions.push(extension)?,
        None => {
            let mut extensions = Vec::new(alloc);
            extensions.push(extension)?;
            found.insert(name, extensions)?;
        }
    }
    Ok(())
}

/// The definitions of a map, in order. The only error is a failed allocation.
pub(crate) fn in_order<'a>(
    alloc: Global,
    first: IndexMap<&'a Name, &'a TypeDefinition, HashSeed>,
) -> Result<Vec<&'a TypeDefinition>, ValidationError>
    ensures { IfOk result (λ definitions. definitions.items ≡ map (λ e. e.1) first.entry.entries) }
{
    Ok(first.into_values().collect(alloc)?)
}
