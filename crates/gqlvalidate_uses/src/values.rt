//! What values and directives use.

use crate::uses::{Use, Uses};
use graphql_documents::documents::{
    Argument, Directive, ExtendedType, InputValueDefinition, Schema, Value, definition_named,
};
use graphql_nodes::{Name, NamedType, Node};
use std::alloc::AllocError;

/// Adds what directives use.
pub(crate) fn add_directives<'a>(
    uses: &mut Uses<'a>,
    directives: &'a [Node<Directive>],
) -> Result<(), AllocError> {
    for directive in directives {
        add_directive(uses, &directive.value)?;
    }
    Ok(())
}

fn add_directive<'a>(uses: &mut Uses<'a>, directive: &'a Directive) -> Result<(), AllocError> {
    let schema = uses.schema;
    let name = directive.name.as_str();
    uses.add(Use::Directive(name))?;
    let Some(definition) = schema.directive_definitions.get(&directive.name) else {
        return Ok(());
    };
    for argument in &directive.arguments {
        uses.add(Use::DirectiveArgument(name, argument.value.name.as_str()))?;
        add_argument_value(uses, &definition.value.arguments, &argument.value)?;
    }
    Ok(())
}

/// Adds what the value of an argument uses, of which these are the definitions.
pub(crate) fn add_argument_value<'a>(
    uses: &mut Uses<'a>,
    definitions: &'a [Node<InputValueDefinition>],
    argument: &'a Argument,
) -> Result<(), AllocError> {
    match definition_named(definitions, &argument.name) {
        Some(definition) => {
            let ty = definition.value.ty.value.inner_named_type();
            add_value(uses, ty, &argument.value.value)
        }
        None => Ok(()),
    }
}

/// Adds what a value uses that is of this type, or of lists of it.
#[cycle(value)]
pub(crate) fn add_value<'a>(
    uses: &mut Uses<'a>,
    ty: &'a NamedType,
    value: &'a Value,
) -> Result<(), AllocError> {
    uses.add(Use::Type(ty.as_str()))?;
    match value {
        Value::Enum(name) => {
            uses.add(Use::Attribute(ty.as_str(), name.as_str()))?;
            Ok(())
        }
        Value::List(items) => add_items(uses, ty, items),
        Value::Object(entries) => add_entries(uses, ty, entries),
        _ => Ok(()),
    }
}

#[cycle(value)]
fn add_items<'a>(
    uses: &mut Uses<'a>,
    ty: &'a NamedType,
    items: &'a [Node<Value>],
) -> Result<(), AllocError> {
    for item in items {
        add_value(uses, ty, &item.value)?;
    }
    Ok(())
}

#[cycle(value)]
fn add_entries<'a>(
    uses: &mut Uses<'a>,
    ty: &'a NamedType,
    entries: &'a [(Name, Node<Value>)],
) -> Result<(), AllocError> {
    for (name, value) in entries {
        add_entry(uses, ty, name, &value.value)?;
    }
    Ok(())
}

/// Adds what an entry of an object uses, if the type has an input field of this name.
#[cycle(value)]
fn add_entry<'a>(
    uses: &mut Uses<'a>,
    ty: &'a NamedType,
    name: &'a Name,
    value: &'a Value,
) -> Result<(), AllocError> {
    match type_of_field(uses.schema, ty, name) {
        Some(inner) => {
            uses.add(Use::Attribute(ty.as_str(), name.as_str()))?;
            add_value(uses, inner, value)
        }
        None => Ok(()),
    }
}

/// The name of the type of this input field.
fn type_of_field<'a>(schema: &'a Schema, ty: &NamedType, name: &Name) -> Option<&'a NamedType> {
    let Some(ExtendedType::InputObject(object)) = schema.types.get(ty) else {
        return None;
    };
    let field = object.value.fields.get(name)?;
    Some(field.node.value.ty.value.inner_named_type())
}
