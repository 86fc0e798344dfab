//! The syntax tree of a GraphQL text: a struct or an enum for each production, each with its place.
//!
//! Specification: Appendix B.3 Document Syntax.
#![tactic(auto)]

pub mod directives;
pub mod documents;
pub mod executable;
pub mod type_system;
pub mod types;
pub mod values;

pub use directives::{Argument, Directive};
pub use documents::{Definition, Document};
pub use executable::{
    Field, FragmentDefinition, FragmentSpread, InlineFragment, OperationDefinition, Selection,
    SelectionSet, VariableDefinition,
};
pub use type_system::{
    Description, DirectiveDefinition, EnumTypeDefinition, EnumValueDefinition, FieldDefinition,
    InputObjectTypeDefinition, InputValueDefinition, InterfaceTypeDefinition, ObjectTypeDefinition,
    PlacedDirectiveLocation, RootOperationTypeDefinition, ScalarTypeDefinition, SchemaDefinition,
    TypeDefinition, UnionTypeDefinition,
};
pub use types::TypeReference;
pub use values::{ObjectField, StringLiteral, Value, Variable};
