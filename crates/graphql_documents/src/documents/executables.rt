use super::definitions::{FieldDefinition, VariableDefinition};
use super::directives::{Argument, Directive};
use graphql_hash_seeds::HashSeed;
use graphql_nodes::{Name, NamedType, Node, OperationType};
use indexmap::IndexMap;

/// Fields, fragment spreads and inline fragments, to be selected from a type.
///
/// Specification: 2.4 Selection Sets.
#[derive(Debug, Drop, PartialEq, Eq, Hash)]
#[cycle(selection)]
pub struct SelectionSet {
    pub ty: NamedType,
    pub selections: Vec<Selection>,
}

/// One selection of a selection set.
///
/// Specification: 2.4 Selection Sets.
#[derive(Debug, Drop, PartialEq, Eq, Hash)]
#[cycle(selection)]
pub enum Selection {
    Field(Node<Field>),
    FragmentSpread(Node<FragmentSpread>),
    InlineFragment(Node<InlineFragment>),
}

/// A field, with the definition that it was built from.
///
/// Specification: 2.5 Fields.
#[derive(Debug, Drop, PartialEq, Eq)]
#[derive_where(Hash)]
#[cycle(selection)]
pub struct Field {
    // Fields that are alike but for their definitions are rare, and a definition is longer than what is written.
    #[derive_where(skip(Hash))]
    pub definition: Node<FieldDefinition>,
    pub alias: Option<Name>,
    pub name: Name,
    pub arguments: Vec<Node<Argument>>,
    pub directives: Vec<Node<Directive>>,
    pub selection_set: SelectionSet,
}

impl Field {
    ghost use Rattle.std.specs.Prelude.{◌≡◌};
    ghost use Rattle.graphql_documents.specs.Selections.{response_key};

    /// The key of the field in a response: its alias, else its name.
    ///
    /// Specification: 2.7 Field Alias.
    pub fn response_key(&self) -> &Name
        ensures { result.now ≡ response_key self.now }
    {
        match &self.alias {
            Some(alias) => alias,
            None => &self.name,
        }
    }
}

/// A spread of a named fragment.
///
/// Specification: 2.8 Fragments.
#[derive(Debug, Drop, PartialEq, Eq, Hash)]
pub struct FragmentSpread {
    pub fragment_name: Name,
    pub directives: Vec<Node<Directive>>,
}

/// A fragment in place, with or without a type condition.
///
/// Specification: 2.8.2 Inline Fragments.
#[derive(Debug, Drop, PartialEq, Eq, Hash)]
#[cycle(selection)]
pub struct InlineFragment {
    pub type_condition: Option<NamedType>,
    pub directives: Vec<Node<Directive>>,
    pub selection_set: SelectionSet,
}

/// A fragment definition. Its type condition is the type of its selection set.
///
/// Specification: 2.8 Fragments.
#[derive(Debug, Drop, PartialEq, Eq)]
pub struct Fragment {
    pub name: Name,
    pub directives: Vec<Node<Directive>>,
    pub selection_set: SelectionSet,
}

/// An operation.
///
/// Specification: 2.3 Operations.
#[derive(Debug, Drop, PartialEq, Eq)]
pub struct Operation {
    pub operation_type: OperationType,
    pub name: Option<Name>,
    pub variables: Vec<Node<VariableDefinition>>,
    pub directives: Vec<Node<Directive>>,
    pub selection_set: SelectionSet,
}

/// The operations of a document: the one without a name, if there is one, and the others by name.
///
/// Specification: 2.3 Operations.
#[derive(Debug, Drop, PartialEq, Eq)]
pub struct OperationMap {
    pub anonymous: Option<Node<Operation>>,
    pub named: IndexMap<Name, Node<Operation>, HashSeed>,
}

/// Operations and fragments, built against a schema or standing alone. Their names come from whoever sends the document, so
/// its maps have a seed.
///
/// Specification: 2.2 Document.
#[derive(Debug, PartialEq, Eq)]
pub struct ExecutableDocument {
    pub operations: OperationMap,
    pub fragments: IndexMap<Name, Node<Fragment>, HashSeed>,
}

// Written out, so that only this crate proves it: a derived one is proved again in each crate that drops documents.
impl Drop for ExecutableDocument {
    fn drop(self) {
        let ExecutableDocument {
            operations: _,
            fragments: _,
        } = self;
    }
}

impl ExecutableDocument {
    ghost use Rattle.std.specs.Prelude.{◌≡◌};
    ghost use Rattle.indexmap.specs.IndexMap.{hasher_of};

    /// The seed of the map of fragments, by which maps of other names of the document are to hash too.
    pub fn hash_seed(&self) -> HashSeed
        ensures { result ≡ hasher_of self.now.fragments }
    {
        *self.fragments.hasher()
    }
}

/// A selection set on a named type, without an operation, as `@key(fields:)` holds it.
#[derive(Debug, Drop, PartialEq, Eq)]
pub struct FieldSet {
    pub selection_set: SelectionSet,
}

/// A value that its maker declares valid.
#[derive(Debug, Drop, PartialEq, Eq)]
pub struct Valid<T>(pub T);
