//! What the parts of a text have in common. A part that cannot be read does not keep the next one from
//! being read: the first error counts, and nothing that was read has to be given up on the way.
use super::reader::{LONGEST, Reader};
use crate::errors::ExampleError;
use graphql_documents::documents::{Component, ComponentOrigin};
use graphql_hash_seeds::HashSeed;
use graphql_nodes::{Name, Node};
use indexmap::IndexMap;
use std::hash::BuildHasher;

/// What is read where a reader is.
pub(super) trait Part: Drop {
    fn read(reader: &mut Reader<'_>) -> Result<Self, ExampleError>;
}

/// A part that is listed under a name of its own.
pub(super) trait Member: Part {
    fn name(&self) -> &Name;
}

/// Two parts, if both could be read.
pub(crate) fn both<A: Drop, B: Drop>(
    first: Result<A, ExampleError>,
    second: Result<B, ExampleError>,
) -> Result<(A, B), ExampleError> {
    let first = first?;
    Ok((first, second?))
}

/// Reads a part as a node.
pub(super) fn located<T: Part>(reader: &mut Reader<'_>) -> Result<Node<T>, ExampleError> {
    let start = reader.start();
    let part = T::read(reader)?;
    reader.node(part, start)
}

/// Reads parts up to the closing sign, if the opening one comes next.
pub(super) fn listed<T: Part>(
    reader: &mut Reader<'_>,
    opening: &str,
    closing: &str,
) -> Result<Vec<Node<T>>, ExampleError> {
    let mut parts = Vec::new(reader.alloc);
    if !reader.takes(opening) {
        return Ok(parts);
    }
    for _ in 0..LONGEST {
        if reader.takes(closing) {
            return Ok(parts);
        }
        parts.push(located(reader)?)?;
    }
    Err(ExampleError::TooLong)
}

/// Reads parts in braces, if there are any, and puts each under its name.
pub(super) fn add_members<T: Member>(
    reader: &mut Reader<'_>,
    members: &mut IndexMap<Name, Component<T>, HashSeed>,
    origin: ComponentOrigin,
) -> Result<(), ExampleError> {
    if !reader.takes("{") {
        return Ok(());
    }
    for _ in 0..LONGEST {
        if reader.takes("}") {
            return Ok(());
        }
        add_member(reader, members, origin)?;
    }
    Err(ExampleError::TooLong)
}

fn add_member<T: Member>(
    reader: &mut Reader<'_>,
    members: &mut IndexMap<Name, Component<T>, HashSeed>,
    origin: ComponentOrigin,
) -> Result<(), ExampleError> {
    let node = located::<T>(reader)?;
    let name = node.value.name().clone()?;
    add_new(members, name, Component { origin, node })
}

/// Adds a definition, under whose name nothing may be.
pub(super) fn add_new<T: Drop, S: BuildHasher>(
    definitions: &mut IndexMap<Name, T, S>,
    name: Name,
    definition: T,
) -> Result<(), ExampleError> {
    match definitions.insert(name, definition)? {
        Some(_) => Err(ExampleError::RepeatedName),
        None => Ok(()),
    }
}

/// Adds a definition under its key, in place of what is there, or under its own name, where nothing may be.
/// Both names are still to be read.
pub(super) fn add_named<T: Drop, S: BuildHasher>(
    definitions: &mut IndexMap<Name, T, S>,
    key: Option<Reader<'_>>,
    own: Reader<'_>,
    definition: T,
) -> Result<(), ExampleError> {
    let name = key.unwrap_or(own).name()?;
    let before = definitions.insert(name, definition)?;
    if before.is_some() && key.is_none() {
        Err(ExampleError::RepeatedName)
    } else {
        Ok(())
    }
}
