//! Schemas, executable documents and field sets, as the layers below validation build them.

pub mod components;
pub mod definitions;
pub mod directives;
pub mod executables;
pub mod implementers;
pub mod meta_fields;
pub mod root_operations;
pub mod schemas;
pub mod type_references;
pub mod values;

pub use components::{Component, ComponentName, ComponentOrigin, ExtensionId};
pub use definitions::{
    DirectiveDefinition, EnumValueDefinition, FieldDefinition, InputValueDefinition,
    VariableDefinition, definition_named, variable_named,
};
pub use directives::{Argument, Directive, argument_named};
pub use executables::{
    ExecutableDocument, Field, FieldSet, Fragment, FragmentSpread, InlineFragment, Operation,
    OperationMap, Selection, SelectionSet, Valid,
};
pub use implementers::Implementers;
pub use meta_fields::MetaFields;
pub use root_operations::RootOperations;
pub use schemas::{
    EnumType, ExtendedType, FieldLookupError, InputObjectType, InterfaceType, ObjectType,
    ScalarType, Schema, SchemaDefinition, UnionType,
};
pub use type_references::Type;
pub use values::Value;
