ghost use Rattle.std.proofs.Common.{ap};
ghost use Rattle.std.specs.Cmp.Lexicographic.{bytes_decides, nat_list_eq_equiv};
ghost use Rattle.std.specs.Hash as fed;
ghost use Rattle.graphql_nodes.specs.Names.{same_name};

use graphql_nodes::{Name, Node, SourceSpan};
use indexmap::Equivalent;

/// An extension of a definition, by its number in the document.
#[derive(Clone, Copy, Debug, PartialEq, Eq, Hash)]
pub struct ExtensionId {
    pub number: u32,
    pub location: Option<SourceSpan>,
}

/// Where a part of a definition was written: in the definition itself, or in an extension of it.
#[derive(Clone, Copy, Debug, PartialEq, Eq, Hash)]
pub enum ComponentOrigin {
    Definition,
    Extension(ExtensionId),
}

/// A part of a definition, with its origin. Components are compared and hashed by their values alone.
#[derive(Drop)]
#[derive_where(Debug, PartialEq, Eq, Hash; T)]
pub struct Component<T> {
    #[derive_where(skip(EqHashOrd))]
    pub origin: ComponentOrigin,
    pub node: Node<T>,
}

/// A name in a list of a definition, with its origin. Compared and hashed by the name alone.
#[derive(Drop)]
#[derive_where(Debug, PartialEq, Eq, Hash)]
pub struct ComponentName {
    #[derive_where(skip(EqHashOrd))]
    pub origin: ComponentOrigin,
    pub name: Name,
}

/// A list of a definition is asked for a name without its origin.
impl Equivalent<ComponentName> for &Name {
    ghost equivalent = { λ name listed. same_name name.now listed.name };

    ghost respects_hash = { λ name listed same. ap fed.str ((bytes_decides name.now.text listed.name.text).0 same) };

    ghost respects_eq = { λ name listed other. nat_list_eq_equiv.congr name.now.text listed.name.text other.name.text };

    fn equivalent(&self, listed: &ComponentName) -> bool {
        **self == listed.name
    }
}
