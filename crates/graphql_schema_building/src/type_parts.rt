//! The extensions of types by the names of the types, and the parts of a type.

ghost use Rattle.std.specs.Prelude.{◌≡◌, ◌∷◌, ◌++◌, [], IfOk, List, OnOk, filter};
ghost use Rattle.graphql_schema_checking.specs.Definitions.{kind_of, same_kind};
ghost use Rattle.graphql_documents.specs.declared.documents.components.ComponentOrigin.TheVariants as origin;
ghost use Rattle.graphql_trees.specs.declared.type_system.TypeDefinition as type_tree;
ghost use Rattle.graphql_schema_building.specs.Parts.{Originated, parts_with};
ghost use Rattle.graphql_schema_building.specs.Steps.{FindsParts};
ghost use Rattle.graphql_schema_building.specs.TypeParts.{originated};

use crate::types::TypePart;
use graphql_documents::documents::ComponentOrigin;
use graphql_hash_seeds::HashSeed;
use graphql_nodes::{Name, ValidationError};
use graphql_schema_checking::kinds::{same_kind, type_kind, type_name};
use graphql_trees::TypeDefinition;
use indexmap::IndexMap;
use std::alloc::Global;

/// The extensions of each name, in order. The only error is a failed allocation.
pub(crate) fn extensions_by_name<'a>(
    alloc: Global,
    hash_seed: HashSeed,
    extensions: &[TypePart<'a>],
) -> Result<IndexMap<&'a Name, Vec<TypePart<'a>>, HashSeed>, ValidationError>
    ensures { IfOk result (λ found. FindsParts found (originated extensions.now)) }
{
    let mut found = IndexMap::with_hasher(alloc, hash_seed);
    for extension in extensions {
        add_extension(&mut found, alloc, *extension)?;
    }
    Ok(found)
}

/// Puts the extension behind those of its name.
fn add_extension<'a>(
    found: &mut IndexMap<&'a Name, Vec<TypePart<'a>>, HashSeed>,
    alloc: Global,
    extension: TypePart<'a>,
) -> Result<(), ValidationError>
    ensures { OnOk result ((before : List (Originated type_tree.TypeDefinition)) → FindsParts found.old before →
        FindsParts found.new (before ++ (extension.entry.origin, extension.entry.definition.now) ∷ [])) }
{
    let name = type_name(extension.definition);
    match found.get_mut(&name) {
        Some(extensions) => extensions.push(extension)?,
        None => {
            let mut extensions = Vec::new(alloc);
            extensions.push(extension)?;
            found.insert(name, extensions)?;
        }
    }
    Ok(())
}

/// The parts of a type: its definition, then its extensions. The only error is a failed allocation.
///
/// Specification: 3.4.3 Type Extensions.
pub(crate) fn parts_of<'a>(
    alloc: Global,
    definition: &'a TypeDefinition,
    found: &IndexMap<&Name, Vec<TypePart<'a>>, HashSeed>,
) -> Result<Vec<TypePart<'a>>, ValidationError>
    ensures { (extensions : List (Originated type_tree.TypeDefinition)) → FindsParts found.now extensions →
        IfOk result (λ parts. originated parts.items ≡ parts_with extensions definition.now) }
{
    match found.get(&type_name(definition)) {
        Some(extensions) => parts_with(alloc, definition, extensions),
        None => parts_with(alloc, definition, &[]),
    }
}

/// The definition, then those of the extensions that are of its kind.
fn parts_with<'a>(
    alloc: Global,
    definition: &'a TypeDefinition,
    extensions: &[TypePart<'a>],
) -> Result<Vec<TypePart<'a>>, ValidationError>
    ensures { IfOk result (λ parts. originated parts.items ≡ (origin.Definition, definition.now) ∷
        filter (λ part. same_kind (kind_of definition.now) (kind_of part.1)) (originated extensions.now)) }
{
    let kind = type_kind(definition);
    let mut parts = Vec::new(alloc);
    parts.push(TypePart {
        origin: ComponentOrigin::Definition,
        definition,
    })?;
    for extension in extensions {
        if same_kind(kind, type_kind(extension.definition)) {
            parts.push(*extension)?;
        }
    }
    Ok(parts)
}
