ghost use Rattle.std.specs.Prelude.{◌↔◌, IsTrue};
ghost use Rattle.graphql_specification.specs.Merging.{SameLeafOrBothComposite, SameLeafOrBothCompositeNamed, SameResponseShape, type_of};
ghost use Rattle.graphql_field_conflicts.specs.FieldSelections.{selection_of};

use crate::field_selections::FieldSelection;
use graphql_documents::documents::{ExtendedType, Schema, Type};
use graphql_nodes::NamedType;

/// Whether the values of two fields have one shape in a response: their types have the same list and
/// non-null wrappers, and what these hold is composite in both, or one scalar, or one enum. Nothing is
/// said of a type that is not defined.
///
/// Specification: 5.3.2 Field Selection Merging, SameResponseShape.
pub fn same_output_type_shape(schema: &Schema, a: FieldSelection, b: FieldSelection) -> bool
    ensures { IsTrue result ↔ SameResponseShape schema.now (type_of (selection_of a.entry)) (type_of (selection_of b.entry)) }
{
    let first = &a.field.value.definition.value.ty;
    let second = &b.field.value.definition.value.ty;
    same_shape(schema, first, second)
}

/// Whether values of the two types have one shape.
fn same_shape(schema: &Schema, a: &Type, b: &Type) -> bool
    ensures { IsTrue result ↔ SameResponseShape schema.now a.now b.now }
{
    match (a, b) {
        (Type::Named(a), Type::Named(b)) | (Type::NonNullNamed(a), Type::NonNullNamed(b)) => {
            have_one_form_named(schema, a, b)
        }
        (Type::List(a), Type::List(b)) | (Type::NonNullList(a), Type::NonNullList(b)) => {
            same_shape(schema, a, b)
        }
        _ => false,
    }
}

/// Whether values of the two named types have one form, where both are defined.
fn have_one_form_named(schema: &Schema, a: &NamedType, b: &NamedType) -> bool
    ensures { IsTrue result ↔ SameLeafOrBothCompositeNamed schema.now a.now b.now }
{
    match (schema.types.get(a), schema.types.get(b)) {
        (Some(a), Some(b)) => have_one_form(a, b),
        _ => true,
    }
}

/// Whether both are composite, or they are one scalar or one enum.
fn have_one_form(a: &ExtendedType, b: &ExtendedType) -> bool
    ensures { IsTrue result ↔ SameLeafOrBothComposite a.now b.now }
{
    match (a, b) {
        (ExtendedType::Scalar(a), ExtendedType::Scalar(b)) => a.value.name == b.value.name,
        (ExtendedType::Enum(a), ExtendedType::Enum(b)) => a.value.name == b.value.name,
        _ => a.is_composite() && b.is_composite(),
    }
}
