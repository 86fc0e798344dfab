//! Definitions of the type system. An extension is held as a definition without a description.

use crate::directives::Directive;
use crate::types::TypeReference;
use crate::values::Value;
use graphql_nodes::{DirectiveLocation, Name, OperationType, SourceSpan};
use sqlite_items::{Boxed, Items};

/// The description of a definition: where its string is in the text, quotes included. Whoever wants the
/// value asks for the `string_value` of that part of the text.
///
/// Specification: 3.2 Type System Descriptions.
#[derive(Clone, Copy, Debug, PartialEq, Eq)]
pub struct Description {
    pub span: SourceSpan,
}

/// The definition of a schema, or an extension of it.
///
/// Specification: 3.3 Schema.
#[derive(Drop)]
pub struct SchemaDefinition {
    pub description: Option<Description>,
    pub directives: Items<Directive>,
    pub root_operations: Items<RootOperationTypeDefinition>,
    pub span: SourceSpan,
}

/// The type of the root of a kind of operation.
///
/// Specification: 3.3.1 Root Operation Types.
#[derive(Drop)]
pub struct RootOperationTypeDefinition {
    pub operation_type: OperationType,
    pub name: Name,
    pub span: SourceSpan,
}

/// The definition of a type, or an extension of it.
///
/// Specification: 3.4 Types.
#[derive(Drop)]
pub enum TypeDefinition {
    Scalar(ScalarTypeDefinition),
    Object(ObjectTypeDefinition),
    Interface(InterfaceTypeDefinition),
    Union(UnionTypeDefinition),
    Enum(EnumTypeDefinition),
    InputObject(InputObjectTypeDefinition),
}

/// Specification: 3.5 Scalars.
#[derive(Drop)]
pub struct ScalarTypeDefinition {
    pub description: Option<Description>,
    pub name: Name,
    pub directives: Items<Directive>,
    pub span: SourceSpan,
}

/// Specification: 3.6 Objects.
#[derive(Drop)]
pub struct ObjectTypeDefinition {
    pub description: Option<Description>,
    pub name: Name,
    pub interfaces: Items<Name>,
    pub directives: Items<Directive>,
    pub fields: Items<FieldDefinition>,
    pub span: SourceSpan,
}

/// Specification: 3.7 Interfaces.
#[derive(Drop)]
pub struct InterfaceTypeDefinition {
    pub description: Option<Description>,
    pub name: Name,
    pub interfaces: Items<Name>,
    pub directives: Items<Directive>,
    pub fields: Items<FieldDefinition>,
    pub span: SourceSpan,
}

/// Specification: 3.8 Unions.
#[derive(Drop)]
pub struct UnionTypeDefinition {
    pub description: Option<Description>,
    pub name: Name,
    pub directives: Items<Directive>,
    pub members: Items<Name>,
    pub span: SourceSpan,
}

/// Specification: 3.9 Enums.
#[derive(Drop)]
pub struct EnumTypeDefinition {
    pub description: Option<Description>,
    pub name: Name,
    pub directives: Items<Directive>,
    pub values: Items<EnumValueDefinition>,
    pub span: SourceSpan,
}

/// Specification: 3.10 Input Objects.
#[derive(Drop)]
pub struct InputObjectTypeDefinition {
    pub description: Option<Description>,
    pub name: Name,
    pub directives: Items<Directive>,
    pub fields: Items<InputValueDefinition>,
    pub span: SourceSpan,
}

/// The definition of a field of an object or an interface.
///
/// Specification: 3.6 Objects.
#[derive(Drop)]
pub struct FieldDefinition {
    pub description: Option<Description>,
    pub name: Name,
    pub arguments: Items<InputValueDefinition>,
    pub type_reference: TypeReference,
    pub directives: Items<Directive>,
    pub span: SourceSpan,
}

/// The definition of an argument, or of a field of an input object.
///
/// Specification: 3.6.1 Field Arguments, 3.10 Input Objects.
#[derive(Drop)]
pub struct InputValueDefinition {
    pub description: Option<Description>,
    pub name: Name,
    pub type_reference: TypeReference,
    pub default_value: Option<Boxed<Value>>,
    pub directives: Items<Directive>,
    pub span: SourceSpan,
}

/// Specification: 3.9 Enums.
#[derive(Drop)]
pub struct EnumValueDefinition {
    pub description: Option<Description>,
    pub name: Name,
    pub directives: Items<Directive>,
    pub span: SourceSpan,
}

/// The definition of a directive.
///
/// Specification: 3.13 Directives.
#[derive(Drop)]
pub struct DirectiveDefinition {
    pub description: Option<Description>,
    pub name: Name,
    pub arguments: Items<InputValueDefinition>,
    pub repeatable: bool,
    pub locations: Items<PlacedDirectiveLocation>,
    pub span: SourceSpan,
}

/// A location of a directive's definition, and where it is.
///
/// Specification: 3.13 Directives.
#[derive(Clone, Copy, Debug, PartialEq, Eq)]
pub struct PlacedDirectiveLocation {
    pub location: DirectiveLocation,
    pub span: SourceSpan,
}
