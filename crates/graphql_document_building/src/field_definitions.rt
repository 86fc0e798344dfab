//! The definitions of fields and the roots of operations, in a schema or without one.

ghost use Rattle.std.specs.Prelude.{◌≡◌, IfOk, IsTrue, None, Some};
ghost use Rattle.graphql_documents.specs.MetaFields.{IsNameOfNoText};
ghost use Rattle.graphql_documents.specs.declared.documents.definitions.FieldDefinition as definition_type;
ghost use Rattle.graphql_nodes.specs.Names.{NameText, is_name};
ghost use Rattle.graphql_nodes.specs.declared.nodes.Node as node_type;
ghost use Rattle.graphql_document_building.specs.Documents.{IsRoot, default_root_name};
ghost use Rattle.std.specs.Option.{option_copied};
ghost use Rattle.graphql_documents.specs.Schemas.{type_definition};
ghost use Rattle.graphql_document_building.specs.FieldDefinitions.{IsProper, IsTypeIn, schema_of};
ghost use Rattle.graphql_document_building.specs.Selections.{DefinesField, IsUnknownField};

use crate::type_fields::field_of_type;
use graphql_documents::documents::{ExtendedType, FieldDefinition, Schema, Type};
use graphql_nodes::{Name, NamedType, Node, OperationType, ValidationError};
use std::alloc::Global;

/// Where the fields of a document get their definitions.
#[derive(Clone, Copy)]
pub(crate) enum FieldDefinitions<'a> {
    /// Of the types of a schema.
    OfSchema(&'a Schema),
    /// There is no schema: each field has this definition.
    Unknown(&'a Node<FieldDefinition>),
}

impl<'a> FieldDefinitions<'a> {
    /// The definition of the type of this name, if there is one.
    pub(crate) fn of_type(&self, name: &NamedType) -> Option<&'a ExtendedType>
        ensures { IsTypeIn (schema_of self.now) name.now (option_copied result) }
    {
        match self {
            FieldDefinitions::OfSchema(schema) => schema.types.get(name),
            FieldDefinitions::Unknown(_) => None,
        }
    }

    /// The definition of a field of a type that was looked up.
    pub(crate) fn of_field(
        &self,
        parent: &NamedType,
        parent_type: Option<&'a ExtendedType>,
        name: &Name,
    ) -> &'a Node<FieldDefinition>
        requires proper { IsProper self.now }
        requires parent_type { IsTypeIn (schema_of self.now) parent.now (option_copied parent_type) }
        requires defined { (d : node_type.Node definition_type.FieldDefinition) × DefinesField (schema_of self.now) parent.now name.now d }
        ensures { DefinesField (schema_of self.now) parent.now name.now result.now }
    {
        match self {
            FieldDefinitions::OfSchema(schema) => defined_field(schema, parent, parent_type, name),
            FieldDefinitions::Unknown(definition) => definition,
        }
    }

    /// The root type of the operations of a kind.
    pub(crate) fn root(
        &self,
        alloc: Global,
        operation_type: OperationType,
    ) -> Result<Name, ValidationError>
        requires { (root : NameText) × IsRoot (schema_of self.now) operation_type root }
        ensures { IfOk result (IsRoot (schema_of self.now) operation_type) }
    {
        match self {
            FieldDefinitions::OfSchema(schema) => match schema.root_operation(operation_type) {
                Some(root) => Ok(root.clone_in(alloc)?),
                None => unreachable!(),
            },
            FieldDefinitions::Unknown(_) => default_root(alloc, operation_type),
        }
    }
}

/// The definition of a field that the schema defines.
fn defined_field<'a>(
    schema: &'a Schema,
    parent: &NamedType,
    parent_type: Option<&'a ExtendedType>,
    name: &Name,
) -> &'a Node<FieldDefinition>
    requires parent_type { option_copied parent_type ≡ type_definition schema.now parent.now }
    requires defined { (d : node_type.Node definition_type.FieldDefinition) × DefinesField (Some schema.now) parent.now name.now d }
    ensures { DefinesField (Some schema.now) parent.now name.now result.now }
{
    match field_of_type(schema, parent, parent_type, name) {
        Ok(definition) => &definition.node,
        Err(_) => unreachable!(),
    }
}

/// The default name of the root type of the operations of a kind.
fn default_root(alloc: Global, operation_type: OperationType) -> Result<Name, ValidationError>
    ensures { IfOk result (λ root. root ≡ default_root_name operation_type) }
{
    match operation_type {
        OperationType::Query => known_name(alloc, "Query"),
        OperationType::Mutation => known_name(alloc, "Mutation"),
        OperationType::Subscription => known_name(alloc, "Subscription"),
    }
}

/// The definition of fields of which none is known: `UNKNOWN: UNKNOWN`.
pub(crate) fn unknown_field(alloc: Global) -> Result<Node<FieldDefinition>, ValidationError>
    ensures { IfOk result IsUnknownField }
{
    let definition = FieldDefinition {
        name: known_name(alloc, "UNKNOWN")?,
        arguments: Vec::new(alloc),
        ty: Type::Named(known_name(alloc, "UNKNOWN")?),
        directives: Vec::new(alloc),
    };
    Node::new(alloc, definition)
}

/// The name with this text, which no text of a document holds.
fn known_name(alloc: Global, text: &str) -> Result<Name, ValidationError>
    requires { IsTrue (is_name text.now) }
    ensures name { IfOk result (λ name. name ≡ record { text = text.now; location = None }) }
    ensures place { IfOk result IsNameOfNoText }
{
    let text = String::from_str(alloc, text)?;
    match Name::new(text, None) {
        Some(name) => Ok(name),
        None => unreachable!(),
    }
}
