use graphql_documents::documents::{Component, ComponentName, FieldDefinition, Schema};
use graphql_hash_seeds::HashSeed;
use graphql_nodes::{Name, SourceSpan};
use indexmap::{IndexMap, IndexSet};

/// A type with fields that lists interfaces.
#[derive(Drop)]
pub(super) struct Implementer<'a> {
    pub schema: &'a Schema,
    pub name: &'a Name,
    pub fields: &'a IndexMap<Name, Component<FieldDefinition>, HashSeed>,
    pub interfaces: &'a IndexSet<ComponentName, HashSeed>,
}

/// A field of an interface that a type lists, and the type's own field under its name.
#[derive(Drop)]
pub(super) struct ImplementingField<'a> {
    pub implementer: &'a Implementer<'a>,
    pub listed: &'a ComponentName,
    pub name: &'a Name,
    pub wanted: &'a Component<FieldDefinition>,
    pub own: &'a Component<FieldDefinition>,
}

/// What is validated of each field of an interface that a type lists.
#[derive(Clone, Copy)]
pub(super) enum FieldRule {
    /// The type has a field of its name. One that is missing is reported at this location, that of the type.
    IsProvided(Option<SourceSpan>),
    /// The type's own field of its name, if there is one, implements it.
    Implements(OwnFieldRule),
}

/// What is validated of a field that implements an interface's.
#[derive(Clone, Copy)]
pub(super) enum OwnFieldRule {
    /// Its type may stand for that of the interface's field.
    OutputType,
    /// Its arguments are those of the interface's field.
    Arguments,
}
