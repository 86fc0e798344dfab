//! Definitions of a schema that are listed under their own names.

ghost use Rattle.std.specs.Prelude.{◌↔◌, All, IsTrue};
ghost use Rattle.graphql_documents.specs.Built.{StandsUnderOwnNames, TypeStandsUnderItsName};
ghost use Rattle.graphql_nodes.specs.Names.{SameName};

use graphql_documents::documents::{
    Component, DirectiveDefinition, EnumValueDefinition, ExtendedType, FieldDefinition,
    InputValueDefinition, Schema,
};
use graphql_hash_seeds::HashSeed;
use graphql_nodes::{Name, Node};
use indexmap::IndexMap;

/// Whether the definitions of the schema are listed under their own names, and so are the parts of its types.
pub(super) fn stands_under_own_names(schema: &Schema) -> bool
    ensures { IsTrue result ↔ StandsUnderOwnNames schema.now }
{
    types_stand_under_own_names(&schema.types)
        && directives_stand_under_own_names(&schema.directive_definitions)
}

fn types_stand_under_own_names(types: &IndexMap<Name, ExtendedType, HashSeed>) -> bool
    ensures { IsTrue result ↔ All (λ entry. TypeStandsUnderItsName entry.0 entry.1) types.now.entries }
{
    types.iter().all(|(key, definition)| type_stands_under_its_name(key, definition))
}

/// Whether a type and its parts are listed under their own names.
fn type_stands_under_its_name(key: &Name, definition: &ExtendedType) -> bool
    ensures { IsTrue result ↔ TypeStandsUnderItsName key.now definition.now }
{
    match definition {
        ExtendedType::Scalar(definition) => *key == definition.value.name,
        ExtendedType::Object(definition) => {
            *key == definition.value.name && fields_stand_under_own_names(&definition.value.fields)
        }
        ExtendedType::Interface(definition) => {
            *key == definition.value.name && fields_stand_under_own_names(&definition.value.fields)
        }
        ExtendedType::Union(definition) => *key == definition.value.name,
        ExtendedType::Enum(definition) => {
            *key == definition.value.name && values_stand_under_own_names(&definition.value.values)
        }
        ExtendedType::InputObject(definition) => {
            *key == definition.value.name
                && input_fields_stand_under_own_names(&definition.value.fields)
        }
    }
}

fn fields_stand_under_own_names(
    fields: &IndexMap<Name, Component<FieldDefinition>, HashSeed>,
) -> bool
    ensures { IsTrue result ↔ All (λ entry. SameName entry.0 entry.1.node.value.value.name) fields.now.entries }
{
    fields
        .iter()
        .all(|(key, field)| *key == field.node.value.name)
}

fn input_fields_stand_under_own_names(
    fields: &IndexMap<Name, Component<InputValueDefinition>, HashSeed>,
) -> bool
    ensures { IsTrue result ↔ All (λ entry. SameName entry.0 entry.1.node.value.value.name) fields.now.entries }
{
    fields
        .iter()
        .all(|(key, field)| *key == field.node.value.name)
}

fn values_stand_under_own_names(
    values: &IndexMap<Name, Component<EnumValueDefinition>, HashSeed>,
) -> bool
    ensures { IsTrue result ↔ All (λ entry. SameName entry.0 entry.1.node.value.value.value) values.now.entries }
{
    values
        .iter()
        .all(|(key, definition)| *key == definition.node.value.value)
}

fn directives_stand_under_own_names(
    definitions: &IndexMap<Name, Node<DirectiveDefinition>, HashSeed>,
) -> bool
    ensures { IsTrue result ↔ All (λ entry. SameName entry.0 entry.1.value.value.name) definitions.now.entries }
{
    definitions
        .iter()
        .all(|(key, definition)| *key == definition.value.name)
}
