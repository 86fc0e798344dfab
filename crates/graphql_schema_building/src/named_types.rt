//! Types, by their names.

ghost use Rattle.std.specs.Prelude.{◌≡◌, ◌++◌, ◌∷◌, [], All, IfOk, List, OnOk, map};
ghost use Rattle.graphql_trees.specs.declared.documents.Definition.{Definition};
ghost use Rattle.graphql_trees.specs.declared.type_system.TypeDefinition as type_tree;
ghost use Rattle.graphql_nodes.specs.Names.{AreDistinct};
ghost use Rattle.graphql_schema_checking.specs.Definitions.{name_of};
ghost use Rattle.graphql_repetitions.specs.References.{nows};
ghost use Rattle.graphql_schema_building.specs.Parts.{Originated, parts_with, type_extension_parts};
ghost use Rattle.graphql_schema_building.specs.SchemaSays.{TypesStand};
ghost use Rattle.graphql_schema_building.specs.Steps.{FindsParts};
ghost use Rattle.graphql_schema_building.specs.TypeParts.{originated};
ghost use Rattle.graphql_schema_building.specs.TypesSay.{PartsAreDistinct};

use crate::type_parts::{extensions_by_name, parts_of};
use crate::types::{TypePart, build_type};
use graphql_documents::documents::ExtendedType;
use graphql_hash_seeds::HashSeed;
use graphql_nodes::{Name, ValidationError};
use graphql_schema_checking::kinds::type_name;
use graphql_trees::TypeDefinition;
use indexmap::IndexMap;
use std::alloc::Global;

/// The types that these definitions say with these extensions, in order, each under its name. The only error is a
/// failed allocation.
///
/// Specification: 3.4 Types.
pub fn build_types<'a>(
    alloc: Global,
    hash_seed: HashSeed,
    types: &[&'a TypeDefinition],
    extensions: &[TypePart<'a>],
) -> Result<IndexMap<Name, ExtendedType, HashSeed>, ValidationError>
    requires names { AreDistinct (map name_of (nows types.now)) }
    requires parts { All (λ d. PartsAreDistinct (parts_with (originated extensions.now) d)) (nows types.now) }
    ensures { (definitions : List Definition) → originated extensions.now ≡ type_extension_parts definitions →
        IfOk result (λ built. TypesStand definitions (nows types.now) built.entries) }
{
    let found = extensions_by_name(alloc, hash_seed, extensions)?;
    let mut built = IndexMap::with_hasher(alloc, hash_seed);
    for definition in types {
        add_type(&mut built, alloc, *definition, &found)?;
    }
    Ok(built)
}

fn add_type<'a>(
    built: &mut IndexMap<Name, ExtendedType, HashSeed>,
    alloc: Global,
    definition: &'a TypeDefinition,
    found: &IndexMap<&'a Name, Vec<TypePart<'a>>, HashSeed>,
) -> Result<(), ValidationError>
    requires { (extensions : List (Originated type_tree.TypeDefinition)) × FindsParts found.now extensions ×
        PartsAreDistinct (parts_with extensions definition.now) }
    ensures { OnOk result ((definitions : List Definition) (written : List type_tree.TypeDefinition) → FindsParts found.now (type_extension_parts definitions) →
        AreDistinct (map name_of (written ++ definition.now ∷ [])) →
        TypesStand definitions written built.old.entries → TypesStand definitions (written ++ definition.now ∷ []) built.new.entries) }
{
    let parts = parts_of(alloc, definition, found)?;
    let built_type = build_type(alloc, *built.hasher(), definition, &parts)?;
    let name = type_name(definition).clone_in(alloc)?;
    built.insert(name, built_type)?;
    Ok(())
}
