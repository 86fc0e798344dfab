//! The definitions of directives, by their names.

ghost use Rattle.std.specs.Prelude.{◌++◌, ◌∷◌, [], IfOk, List, OnOk, map};
ghost use Rattle.graphql_nodes.specs.Names.{AreDistinct};
ghost use Rattle.graphql_repetitions.specs.References.{nows};
ghost use Rattle.graphql_trees.specs.declared.type_system.DirectiveDefinition as directive_tree;
ghost use Rattle.graphql_schema_building.specs.SchemaSays.{DirectivesStand};

use graphql_documents::documents::DirectiveDefinition;
use graphql_hash_seeds::HashSeed;
use graphql_leaf_building::build_directive_definition;
use graphql_nodes::{Name, Node, ValidationError};
use graphql_trees::DirectiveDefinition as DirectiveDefinitionTree;
use indexmap::IndexMap;
use std::alloc::Global;

/// The directives that these trees define, in order, each under its name. No two have one name. The only error is a
/// failed allocation.
///
/// Specification: 3.13 Directives.
pub fn build_directive_definitions(
    alloc: Global,
    hash_seed: HashSeed,
    trees: &[&DirectiveDefinitionTree],
) -> Result<IndexMap<Name, Node<DirectiveDefinition>, HashSeed>, ValidationError>
    requires { AreDistinct (map (λ d. d.name) (nows trees.now)) }
    ensures { IfOk result (λ built. DirectivesStand (nows trees.now) built.entries) }
{
    let mut built = IndexMap::with_hasher(alloc, hash_seed);
    for tree in trees {
        add_directive_definition(&mut built, alloc, *tree)?;
    }
    Ok(built)
}

fn add_directive_definition(
    built: &mut IndexMap<Name, Node<DirectiveDefinition>, HashSeed>,
    alloc: Global,
    tree: &DirectiveDefinitionTree,
) -> Result<(), ValidationError>
    ensures { OnOk result ((written : List directive_tree.DirectiveDefinition) → AreDistinct (map (λ d. d.name) (written ++ tree.now ∷ [])) →
        DirectivesStand written built.old.entries → DirectivesStand (written ++ tree.now ∷ []) built.new.entries) }
{
    let definition = build_directive_definition(alloc, tree)?;
    let name = tree.name.clone_in(alloc)?;
    built.insert(name, definition)?;
    Ok(())
}
