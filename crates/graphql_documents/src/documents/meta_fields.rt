ghost use Rattle.std.specs.Prelude.{◌≡◌, ◌∷◌, [], All, None, IsTrue, IfOk, codes, false, length};
ghost use Rattle.std.proofs.Props.{props};
ghost use Rattle.graphql_nodes.specs.Names.{is_name};
ghost use Rattle.graphql_documents.specs.MetaFields.{ArgumentHasNoPlace, ComponentHasNoPlace, IsNameOfNoText, IsTypename, IsSchemaField, IsTypeField, argument_signature};
ghost use Rattle.graphql_documents.specs.TypeReferences.{inner_named_type};
ghost use Rattle.graphql_documents.specs.declared.documents.components.ComponentOrigin.TheVariants as origin;

use super::components::{Component, ComponentOrigin};
use super::definitions::{FieldDefinition, InputValueDefinition};
use super::type_references::Type;
use graphql_nodes::{Name, Node, ValidationError};
use std::alloc::Global;

/// The fields that a schema has without defining them: `__typename: String!` on every composite
/// type, `__schema: __Schema!` and `__type(name: String!): __Type` on the query root.
///
/// Specification: 4.1 Type Name Introspection; 4.2 Schema Introspection.
#[derive(Debug, Drop, PartialEq, Eq)]
pub struct MetaFields {
    pub typename: Component<FieldDefinition>,
    pub schema: Component<FieldDefinition>,
    pub type_by_name: Component<FieldDefinition>,
    pub ghost is_typename: { IsTypename typename.node.value.value } by { Prim.hlevel props },
    pub ghost is_schema: { IsSchemaField schema.node.value.value } by { Prim.hlevel props },
    pub ghost is_type: { IsTypeField type_by_name.node.value.value } by { Prim.hlevel props },
}

impl MetaFields {
    /// The three meta-fields. No text holds them: neither they nor any of their parts have locations.
    pub fn new(alloc: Global) -> Result<MetaFields, ValidationError>
        ensures typename { IfOk result (λ fields. ComponentHasNoPlace fields.typename) }
        ensures schema { IfOk result (λ fields. ComponentHasNoPlace fields.schema) }
        ensures type_by_name { IfOk result (λ fields. ComponentHasNoPlace fields.type_by_name) }
    {
        let typename = typename(alloc)?;
        let schema = schema_field(alloc)?;
        let type_by_name = type_field(alloc)?;
        Ok(MetaFields {
            typename,
            schema,
            type_by_name,
        })
    }
}

/// `__typename: String!`
fn typename(alloc: Global) -> Result<Component<FieldDefinition>, ValidationError>
    ensures field { IfOk result (λ field. IsTypename field.node.value.value) }
    ensures place { IfOk result ComponentHasNoPlace }
{
    let name = known_name(alloc, "__typename")?;
    let ty = Type::NonNullNamed(known_name(alloc, "String")?);
    field(alloc, name, Vec::new(alloc), ty)
}

/// `__schema: __Schema!`
fn schema_field(alloc: Global) -> Result<Component<FieldDefinition>, ValidationError>
    ensures field { IfOk result (λ field. IsSchemaField field.node.value.value) }
    ensures place { IfOk result ComponentHasNoPlace }
{
    let name = known_name(alloc, "__schema")?;
    let ty = Type::NonNullNamed(known_name(alloc, "__Schema")?);
    field(alloc, name, Vec::new(alloc), ty)
}

/// `__type(name: String!): __Type`
fn type_field(alloc: Global) -> Result<Component<FieldDefinition>, ValidationError>
    ensures field { IfOk result (λ field. IsTypeField field.node.value.value) }
    ensures place { IfOk result ComponentHasNoPlace }
{
    let mut arguments = Vec::new(alloc);
    arguments.push(name_argument(alloc)?)?;
    let name = known_name(alloc, "__type")?;
    let ty = Type::Named(known_name(alloc, "__Type")?);
    field(alloc, name, arguments, ty)
}

/// `name: String!`
fn name_argument(alloc: Global) -> Result<Node<InputValueDefinition>, ValidationError>
    ensures signature { IfOk result (λ argument. argument_signature argument.value.value ≡ (codes "name", codes "String!", false)) }
    ensures directives { IfOk result (λ argument. length argument.value.value.directives.items ≡ 0) }
    ensures place { IfOk result ArgumentHasNoPlace }
{
    let definition = InputValueDefinition {
        name: known_name(alloc, "name")?,
        ty: Node::new(alloc, Type::NonNullNamed(known_name(alloc, "String")?))?,
        default_value: None,
        directives: Vec::new(alloc),
    };
    Ok(Node::new(alloc, definition)?)
}

fn known_name(alloc: Global, text: &str) -> Result<Name, ValidationError>
    requires { IsTrue (is_name text.now) }
    ensures name { IfOk result (λ name. name ≡ record { text = text.now; location = None }) }
    ensures place { IfOk result IsNameOfNoText }
{
    let text = String::from_str(alloc, text)?;
    match Name::new(text, None) {
        Some(name) => Ok(name),
        None => unreachable!(),
    }
}

fn field(
    alloc: Global,
    name: Name,
    arguments: Vec<Node<InputValueDefinition>>,
    ty: Type,
) -> Result<Component<FieldDefinition>, ValidationError>
    ensures name { IfOk result (λ field. field.node.value.value.name ≡ name) }
    ensures arguments { IfOk result (λ field. field.node.value.value.arguments ≡ arguments) }
    ensures ty { IfOk result (λ field. field.node.value.value.ty ≡ ty) }
    ensures directives { IfOk result (λ field. length field.node.value.value.directives.items ≡ 0) }
    ensures origin { IfOk result (λ field. field.origin ≡ origin.Definition) }
    ensures location { IfOk result (λ field. field.node.location ≡ None) }
{
    let definition = FieldDefinition {
        name,
        arguments,
        ty,
        directives: Vec::new(alloc),
    };
    Ok(Component {
        origin: ComponentOrigin::Definition,
        node: Node::new(alloc, definition)?,
    })
}
