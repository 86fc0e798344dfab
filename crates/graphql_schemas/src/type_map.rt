//! The types of a schema once it is retained: without the built-in scalars that it does not use, and with those
//! that it uses and lacks.

ghost use Rattle.std.specs.Prelude.{◌≡◌, ◌≤◌, ◌<◌, ◌+◌, ◌^◌, ◌++◌, ◌∷◌, [], List, IfOk, OnOk, OnErr, IsTrue, count_by, filter, insert, length, not, position, remove, take};
ghost use Rattle.std.specs.List.{IsDistinct};
ghost use Rattle.std.specs.Map.{keys_of};
ghost use Rattle.std.specs.Vec.{vec_capacity, vec_len};
ghost use Rattle.indexmap.specs.IndexMap.{index_map_len, spare};
ghost use Rattle.graphql_nodes.specs.Names.{NameText, is_name, same_name};
ghost use Rattle.graphql_specification.specs.BuiltInScalars.{IsAddedScalar, built_in_scalar_names};
ghost use Rattle.graphql_documents.specs.declared.documents.schemas.ExtendedType.{ExtendedType as Definition};
ghost use Rattle.graphql_field_definitions.specs.BuiltInScalarUses.{holds_text};
ghost use Rattle.graphql_schemas.specs.TypeMapChanges.{AddsMissing, CanUndo, FitBack, Retains, is_unused, restored};

use graphql_documents::documents::{ExtendedType, ScalarType};
use graphql_field_definitions::built_in_scalars::BuiltInScalars;
use graphql_hash_seeds::HashSeed;
use graphql_nodes::{FileId, Name, Node, SourceSpan, ValidationError};
use indexmap::IndexMap;
use std::alloc::Global;

/// A type that was taken out of a map, and the index that it had there.
#[derive(Debug, Drop)]
struct RemovedType {
    index: usize,
    name: Name,
    definition: ExtendedType,
}

/// What retaining changed of a map of types: what it removed, in order, and how many types it kept.
#[derive(Debug, Drop)]
pub struct TypeMapChanges {
    removed: Vec<RemovedType>,
    kept: usize,
}

/// Removes the built-in definitions under the names of built-in scalars that are not used, and adds the used
/// ones that are missing, in order. Where memory is refused the types stay as they were; that is the only
/// error.
///
/// Specification: 3.5 Scalars, Built-in Scalars.
pub fn retain_used_built_in_scalars(
    types: &mut IndexMap<Name, ExtendedType, HashSeed>,
    built_in_scalars: &BuiltInScalars,
) -> Result<TypeMapChanges, ValidationError>
    ensures retained { IfOk result (λ changes. Retains (holds_text built_in_scalars.now) changes types.old.entries types.new.entries (spare types.new)) }
    ensures err { OnErr result (types.new.entries ≡ types.old.entries) }
{
    let alloc = *types.allocator();
    let missing = missing_scalars(alloc, types, built_in_scalars)?;
    let unused = count_unused(types, built_in_scalars);
    let mut removed = Vec::with_capacity(alloc, unused)?;
    types.reserve(unused + missing.len())?;
    remove_unused(types, built_in_scalars, &mut removed);
    let kept = types.len();
    insert_scalars(types, missing);
    Ok(TypeMapChanges { removed, kept })
}

impl TypeMapChanges {
    /// Gives a map of types that was retained its former entries, in their order. This takes no memory.
    pub fn undo(self, types: &mut IndexMap<Name, ExtendedType, HashSeed>)
        requires { (before : List (NameText × Definition)) × CanUndo self types.old.entries (spare types.old) before }
        ensures { types.new.entries ≡ restored self.removed.items (take self.kept types.old.entries) }
    {
        types.truncate(self.kept);
        put_back(types, self.removed);
    }
}

/// Puts removed types back at their indices, the last one first.
fn put_back(types: &mut IndexMap<Name, ExtendedType, HashSeed>, mut removed: Vec<RemovedType>)
    requires fit { FitBack removed.items types.old.entries }
    requires distinct { IsDistinct same_name (keys_of (restored removed.items types.old.entries)) }
    requires room { length removed.items ≤ spare types.old }
    ensures { types.new.entries ≡ restored removed.items types.old.entries }
{
    while let Some(entry) = removed.pop() {
        put_at(types, entry.index, entry.name, entry.definition);
    }
}

/// Puts a type at this index of a map that has room for it, and no type under its name.
fn put_at(
    types: &mut IndexMap<Name, ExtendedType, HashSeed>,
    index: usize,
    name: Name,
    definition: ExtendedType,
)
    requires fits { index ≤ index_map_len types.old }
    requires distinct { IsDistinct same_name (keys_of (insert types.old.entries index (name, definition))) }
    requires room { 0 < spare types.old }
    ensures entries { types.new.entries ≡ insert types.old.entries index (name, definition) }
    ensures room { spare types.old ≤ spare types.new + 1 }
{
    drop(types.shift_insert(index, name, definition).unwrap());
}

/// Takes out the built-in definitions under the names of built-in scalars that are not used.
fn remove_unused(
    types: &mut IndexMap<Name, ExtendedType, HashSeed>,
    built_in_scalars: &BuiltInScalars,
    removed: &mut Vec<RemovedType>,
)
    requires none_yet { removed.old.items ≡ [] }
    requires capacity { count_by (is_unused (holds_text built_in_scalars.now)) types.old.entries ≤ vec_capacity removed.old }
    ensures kept { types.new.entries ≡ filter (λ entry. not (is_unused (holds_text built_in_scalars.now) entry)) types.old.entries }
    ensures back { restored removed.new.items types.new.entries ≡ types.old.entries }
    ensures fit { FitBack removed.new.items types.new.entries }
    ensures counted { length removed.new.items ≡ count_by (is_unused (holds_text built_in_scalars.now)) types.old.entries }
    ensures room { spare types.old ≤ spare types.new }
{
    while let Some(index) = first_unused(types, built_in_scalars) {
        take_out(types, index, removed);
    }
}

/// Takes the type at this index out of a map.
fn take_out(
    types: &mut IndexMap<Name, ExtendedType, HashSeed>,
    index: usize,
    removed: &mut Vec<RemovedType>,
)
    requires within { index < index_map_len types.old }
    requires capacity { vec_len removed.old < vec_capacity removed.old }
    ensures kept { types.new.entries ≡ remove types.old.entries index }
    ensures back { restored removed.new.items types.new.entries ≡ restored removed.old.items types.old.entries }
    ensures fit { FitBack removed.old.items types.old.entries → FitBack removed.new.items types.new.entries }
    ensures counted { length removed.new.items ≡ length removed.old.items + 1 }
    ensures capacity { vec_capacity removed.old ≤ vec_capacity removed.new }
    ensures room { spare types.old ≤ spare types.new }
{
    let (name, definition) = types.shift_remove_index(index).unwrap();
    removed
        .push(RemovedType {
            index,
            name,
            definition,
        })
        .unwrap();
}

/// How many built-in definitions are listed under the names of built-in scalars that are not used.
fn count_unused(
    types: &IndexMap<Name, ExtendedType, HashSeed>,
    built_in_scalars: &BuiltInScalars,
) -> usize
    ensures counted { result ≡ count_by (is_unused (holds_text built_in_scalars.now)) types.now.entries }
    ensures small { result < 2 ^ 63 }
{
    types
        .iter()
        .filter(|(name, definition)| is_unused(built_in_scalars, name, definition))
        .count()
}

/// The index of the first of them.
fn first_unused(
    types: &IndexMap<Name, ExtendedType, HashSeed>,
    built_in_scalars: &BuiltInScalars,
) -> Option<usize>
    ensures { result ≡ position (is_unused (holds_text built_in_scalars.now)) types.now.entries }
{
    types.iter().position(|(name, definition)| is_unused(built_in_scalars, name, definition))
}

/// Whether this is a built-in definition under the name of a built-in scalar that is not used.
fn is_unused(built_in_scalars: &BuiltInScalars, name: &Name, definition: &ExtendedType) -> bool
    ensures { result ≡ is_unused (holds_text built_in_scalars.now) (name.now, definition.now) }
{
    definition.is_built_in() && built_in_scalars.lacks(name)
}

/// Adds scalars to a map of types, behind the types that it has.
fn insert_scalars(
    types: &mut IndexMap<Name, ExtendedType, HashSeed>,
    missing: Vec<(Name, ExtendedType)>,
)
    requires distinct { IsDistinct same_name (keys_of (types.old.entries ++ missing.items)) }
    requires room { length missing.items ≤ spare types.old }
    ensures entries { types.new.entries ≡ types.old.entries ++ missing.items }
    ensures room { spare types.old ≤ spare types.new + length missing.items }
{
    for (name, definition) in missing {
        put_at(types, types.len(), name, definition);
    }
}

/// The built-in scalars that are used and under whose names no type is, in order.
fn missing_scalars(
    alloc: Global,
    types: &IndexMap<Name, ExtendedType, HashSeed>,
    built_in_scalars: &BuiltInScalars,
) -> Result<Vec<(Name, ExtendedType)>, ValidationError>
    ensures { IfOk result (λ missing. AddsMissing (holds_text built_in_scalars.now) types.now.entries built_in_scalar_names [] missing.items) }
{
    let mut missing = Vec::new(alloc);
    add_if_missing(&mut missing, types, built_in_scalars, "Int")?;
    add_if_missing(&mut missing, types, built_in_scalars, "Float")?;
    add_if_missing(&mut missing, types, built_in_scalars, "String")?;
    add_if_missing(&mut missing, types, built_in_scalars, "Boolean")?;
    add_if_missing(&mut missing, types, built_in_scalars, "ID")?;
    Ok(missing)
}

/// Adds the built-in scalar of this name, if it is used and no type is listed under the name.
fn add_if_missing(
    missing: &mut Vec<(Name, ExtendedType)>,
    types: &IndexMap<Name, ExtendedType, HashSeed>,
    built_in_scalars: &BuiltInScalars,
    text: &str,
) -> Result<(), ValidationError>
    requires { IsTrue (is_name text.now) }
    ensures { OnOk result (AddsMissing (holds_text built_in_scalars.now) types.now.entries (text.now ∷ []) missing.old.items missing.new.items) }
{
    if !built_in_scalars.uses(text) {
        return Ok(());
    }
    let alloc = *missing.allocator();
    let name = known_name(alloc, text)?;
    if types.contains_key(&name) {
        return Ok(());
    }
    let definition = built_in_scalar(alloc, text)?;
    missing.push((name, definition))?;
    Ok(())
}

/// The built-in scalar of this name, without directives, at the start of the file of the definitions that
/// every schema has.
fn built_in_scalar(alloc: Global, text: &str) -> Result<ExtendedType, ValidationError>
    requires { IsTrue (is_name text.now) }
    ensures { IfOk result (λ definition. (key : NameText) → key.text ≡ text.now → key.location ≡ None → IsAddedScalar text.now (key, definition)) }
{
    let scalar = ScalarType {
        name: known_name(alloc, text)?,
        directives: Vec::new(alloc),
    };
    let location = SourceSpan {
        file_id: FileId::BUILT_IN,
        start: 0,
        end: 0,
    };
    Ok(ExtendedType::Scalar(Node::new_located(alloc, scalar, location)?))
}

fn known_name(alloc: Global, text: &str) -> Result<Name, ValidationError>
    requires { IsTrue (is_name text.now) }
    ensures text { IfOk result (λ name. name.text ≡ text.now) }
    ensures place { IfOk result (λ name. name.location ≡ None) }
{
    let text = String::from_str(alloc, text)?;
    Ok(Name::new(text, None).unwrap())
}
