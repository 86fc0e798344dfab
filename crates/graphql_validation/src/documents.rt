//! Schemas, executable documents and field sets, as plain data, with the names, locations and numbers they are made of, and
//! the seed by which the maps of a document hash its names.

pub use graphql_diagnostics::HashSeed;
pub use graphql_documents::documents::{
    Argument, Component, ComponentName, ComponentOrigin, Directive, DirectiveDefinition, EnumType,
    EnumValueDefinition, ExecutableDocument, ExtendedType, ExtensionId, Field, FieldDefinition,
    FieldLookupError, FieldSet, Fragment, FragmentSpread, Implementers, InlineFragment,
    InputObjectType, InputValueDefinition, InterfaceType, MetaFields, ObjectType, Operation,
    OperationMap, RootOperations, ScalarType, Schema, SchemaDefinition, Selection, SelectionSet,
    Type, UnionType, Valid, Value, VariableDefinition, argument_named, definition_named,
    variable_named,
};
pub use graphql_nodes::{
    DirectiveLocation, FileId, Name, NamedType, Node, OperationType, SourceSpan,
};
pub use graphql_rules::values::{FloatValue, IntValue};
