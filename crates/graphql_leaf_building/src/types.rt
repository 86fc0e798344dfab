//! References to types.

ghost use Rattle.std.specs.Prelude.{◌≡◌, IfOk};
ghost use Rattle.graphql_documents.specs.TypeReferences.{as_written};
ghost use Rattle.graphql_leaf_building.specs.Types.{TypeSays, type_place, written_type};

use graphql_documents::documents::Type;
use graphql_nodes::{Node, SourceSpan, ValidationError};
use graphql_trees::TypeReference;
use std::alloc::Global;
use std::sync::Arc;

/// The type that the tree refers to, with its place in the text. Fails only where an allocation fails.
///
/// Specification: 2.11 Type References.
pub fn build_located_type(
    alloc: Global,
    tree: &TypeReference,
) -> Result<Node<Type>, ValidationError>
    ensures { IfOk result (TypeSays tree.now) }
{
    let ty = build_type(alloc, tree)?;
    Ok(Node {
        value: Arc::new(alloc, ty)?,
        location: place(tree),
    })
}

/// The type that the tree refers to: its wrappers, and its name, with the place of that. Fails only where an
/// allocation fails.
///
/// Specification: 2.11 Type References.
pub fn build_type(alloc: Global, tree: &TypeReference) -> Result<Type, ValidationError>
    ensures { IfOk result (λ ty. as_written ty ≡ written_type tree.now) }
{
    match tree {
        TypeReference::Named(name) => Ok(Type::Named(name.clone_in(alloc)?)),
        TypeReference::NonNullNamed(name, _) => Ok(Type::NonNullNamed(name.clone_in(alloc)?)),
        TypeReference::List(item, _) => {
            let item = build_type(alloc, item.get())?;
            Ok(Type::List(Box::new(alloc, item)?))
        }
        TypeReference::NonNullList(item, _) => {
            let item = build_type(alloc, item.get())?;
            Ok(Type::NonNullList(Box::new(alloc, item)?))
        }
    }
}

fn place(tree: &TypeReference) -> Option<SourceSpan>
    ensures { result ≡ type_place tree.now }
{
    match tree {
        TypeReference::Named(name) => name.location(),
        TypeReference::List(_, span)
        | TypeReference::NonNullNamed(_, span)
        | TypeReference::NonNullList(_, span) => Some(*span),
    }
}
