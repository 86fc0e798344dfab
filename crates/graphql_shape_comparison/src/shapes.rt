//! The shapes of the types of fields, by which fields merge.

ghost use Rattle.std.specs.Prelude.{◌≡◌, IfOk, MatchOption, false, true};
ghost use Rattle.graphql_document_building.specs.Trees.{names_leaf_type};
ghost use Rattle.graphql_change_kinds.specs.Forms.{form_in};
ghost use Rattle.graphql_shape_comparison.specs.Shapes.{form_of};

use graphql_documents::documents::{ExtendedType, Schema, Type};
use graphql_nodes::{Name, NamedType, ValidationError};
use std::alloc::Global;

/// What of a type decides whether two fields can come under one response key: its lists, where it is non-null, and its scalar
/// or enum, or that it is composite.
///
/// Specification: 5.3.2 Field Selection Merging, SameResponseShape.
#[derive(Drop, PartialEq, Eq, Hash)]
pub(crate) enum Shape {
    Leaf(Name),
    NonNullLeaf(Name),
    Composite,
    NonNullComposite,
    List(Box<Shape>),
    NonNullList(Box<Shape>),
}

/// The shape of a type in a schema.
pub(crate) fn shape_of(alloc: Global, schema: &Schema, ty: &Type) -> Result<Shape, ValidationError>
    ensures { IfOk result (λ shape. form_of shape ≡ form_in schema.now ty.now) }
{
    match ty {
        Type::Named(name) => match leaf_name(alloc, schema, name)? {
            Some(name) => Ok(Shape::Leaf(name)),
            None => Ok(Shape::Composite),
        },
        Type::NonNullNamed(name) => match leaf_name(alloc, schema, name)? {
            Some(name) => Ok(Shape::NonNullLeaf(name)),
            None => Ok(Shape::NonNullComposite),
        },
        Type::List(item) => {
            let item = shape_of(alloc, schema, item)?;
            Ok(Shape::List(Box::new(alloc, item)?))
        }
        Type::NonNullList(item) => {
            let item = shape_of(alloc, schema, item)?;
            Ok(Shape::NonNullList(Box::new(alloc, item)?))
        }
    }
}

/// The name of a scalar or an enum.
fn leaf_name(
    alloc: Global,
    schema: &Schema,
    name: &NamedType,
) -> Result<Option<Name>, ValidationError>
    ensures { IfOk result (λ found. MatchOption found (names_leaf_type schema.now name.now ≡ false) (λ leaf. (names_leaf_type schema.now name.now ≡ true) × (leaf.text ≡ name.now.text))) }
{
    if names_leaf_type(schema, name) {
        Ok(Some(name.clone_in(alloc)?))
    } else {
        Ok(None)
    }
}

/// Whether the name is that of a scalar or an enum.
pub fn names_leaf_type(schema: &Schema, name: &NamedType) -> bool
    ensures { result ≡ names_leaf_type schema.now name.now }
{
    matches!(
        schema.types.get(name),
        Some(ExtendedType::Scalar(_) | ExtendedType::Enum(_))
    )
}
