//! Definitions of types, by their kinds.

ghost use Rattle.std.specs.Prelude.{◌≡◌};
ghost use Rattle.graphql_schema_checking.specs.Definitions.{is_interface, kind_of, name_of, same_kind, span_of};

use graphql_building_reports::TypeKind;
use graphql_nodes::{Name, SourceSpan};
use graphql_trees::TypeDefinition;

/// The kind of the type that is defined or extended.
pub fn type_kind(definition: &TypeDefinition) -> TypeKind
    ensures { result ≡ kind_of definition.now }
{
    match definition {
        TypeDefinition::Scalar(_) => TypeKind::Scalar,
        TypeDefinition::Object(_) => TypeKind::Object,
        TypeDefinition::Interface(_) => TypeKind::Interface,
        TypeDefinition::Union(_) => TypeKind::Union,
        TypeDefinition::Enum(_) => TypeKind::Enum,
        TypeDefinition::InputObject(_) => TypeKind::InputObject,
    }
}

/// Whether the two are one kind.
pub fn same_kind(kind: TypeKind, other: TypeKind) -> bool
    ensures { result ≡ same_kind kind other }
{
    matches!(
        (kind, other),
        (TypeKind::Scalar, TypeKind::Scalar)
            | (TypeKind::Object, TypeKind::Object)
            | (TypeKind::Interface, TypeKind::Interface)
            | (TypeKind::Union, TypeKind::Union)
            | (TypeKind::Enum, TypeKind::Enum)
            | (TypeKind::InputObject, TypeKind::InputObject)
    )
}

/// Whether the definition or extension is of an interface.
pub(crate) fn is_interface(definition: &TypeDefinition) -> bool
    ensures { result ≡ is_interface definition.now }
{
    matches!(definition, TypeDefinition::Interface(_))
}

/// The name of the type that is defined or extended.
pub fn type_name(definition: &TypeDefinition) -> &Name
    ensures { result.now ≡ name_of definition.now }
{
    match definition {
        TypeDefinition::Scalar(definition) => &definition.name,
        TypeDefinition::Object(definition) => &definition.name,
        TypeDefinition::Interface(definition) => &definition.name,
        TypeDefinition::Union(definition) => &definition.name,
        TypeDefinition::Enum(definition) => &definition.name,
        TypeDefinition::InputObject(definition) => &definition.name,
    }
}

/// Where the definition or extension is.
pub fn type_span(definition: &TypeDefinition) -> SourceSpan
    ensures { result ≡ span_of definition.now }
{
    match definition {
        TypeDefinition::Scalar(definition) => definition.span,
        TypeDefinition::Object(definition) => definition.span,
        TypeDefinition::Interface(definition) => definition.span,
        TypeDefinition::Union(definition) => definition.span,
        TypeDefinition::Enum(definition) => definition.span,
        TypeDefinition::InputObject(definition) => definition.span,
    }
}
