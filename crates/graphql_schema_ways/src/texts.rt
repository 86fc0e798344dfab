//! Documents as texts.

use crate::literals::push_input;
use crate::ways::{Step, Ways};
use graphql_documents::documents::{Component, FieldDefinition, InputValueDefinition, Schema};
use graphql_nodes::{Name, Node, OperationType, ValidationError};
use graphql_schema_parts::fields_of;
use std::alloc::Global;

/// A value for the argument of this name.
#[derive(Clone, Copy)]
pub struct Given<'a> {
    pub name: &'a Name,
    pub value: &'a str,
}

/// A document that selects this on the type at this index, if there is a way to it. Its operation declares these variables.
///
/// Specification: 2.3 Operations.
pub fn document(
    ways: &Ways<'_>,
    variables: &str,
    place: usize,
    selection: &str,
) -> Result<Option<String>, ValidationError> {
    let Some(way) = ways.way_to(place)? else {
        return Ok(None);
    };
    let mut text = String::new(ways.allocator());
    push_operation(&mut text, way.operation, variables)?;
    if !push_steps(&mut text, ways, &way.indices)? {
        return Ok(None);
    }
    text.push_str(selection)?;
    push_ends(&mut text, way.indices.len())?;
    Ok(Some(text))
}

/// Adds the beginning of an operation. A query without variables needs no keyword.
fn push_operation(
    text: &mut String,
    operation: OperationType,
    variables: &str,
) -> Result<(), ValidationError> {
    if operation != OperationType::Query || !variables.is_empty() {
        text.push_str(operation.name())?;
        text.push_str(variables)?;
        text.push(' ')?;
    }
    Ok(text.push_str("{ ")?)
}

/// Adds the steps of a way. Answers whether all was added.
fn push_steps(
    text: &mut String,
    ways: &Ways<'_>,
    indices: &[usize],
) -> Result<bool, ValidationError> {
    let mut is_whole = true;
    for index in indices.iter().rev() {
        is_whole = push_step(text, ways, *index)? && is_whole;
    }
    Ok(is_whole)
}

fn push_step(text: &mut String, ways: &Ways<'_>, index: usize) -> Result<bool, ValidationError> {
    match ways.step_to(index) {
        Some(Step::Field { field, .. }) => {
            let is_whole = push_field(text, ways, field, None)?;
            text.push_str(" { ")?;
            Ok(is_whole)
        }
        Some(Step::Condition { .. }) => match ways.name_at(index) {
            Some(name) => {
                write!(text, "... on {name} {{ ")?;
                Ok(true)
            }
            None => Ok(false),
        },
        _ => Ok(false),
    }
}

fn push_ends(text: &mut String, count: usize) -> Result<(), ValidationError> {
    for _ in 0..count {
        text.push_str(" }")?;
    }
    Ok(text.push_str(" }")?)
}

/// Adds a field with the arguments that it must have, and this one. Answers whether all was added.
///
/// Specification: 2.5 Fields.
pub fn push_field(
    text: &mut String,
    ways: &Ways<'_>,
    field: &Component<FieldDefinition>,
    given: Option<Given<'_>>,
) -> Result<bool, ValidationError> {
    let definition = &field.node.value;
    text.push_str(definition.name.as_str())?;
    push_arguments(
        text,
        ways.allocator(),
        ways.schema,
        &definition.arguments,
        given,
    )
}

/// Adds the arguments that must be given, and this one. Answers whether all was added.
///
/// Specification: 2.6 Arguments.
pub fn push_arguments(
    text: &mut String,
    alloc: Global,
    schema: &Schema,
    arguments: &[Node<InputValueDefinition>],
    given: Option<Given<'_>>,
) -> Result<bool, ValidationError> {
    let mut is_whole = true;
    let mut separator = "(";
    for argument in arguments {
        let value = value_of(&argument.value.name, given);
        if value.is_some() || argument.value.is_required() {
            text.push_str(separator)?;
            separator = ", ";
            is_whole = push_argument(text, alloc, schema, &argument.value, value)? && is_whole;
        }
    }
    if separator == ", " {
        text.push(')')?;
    }
    Ok(is_whole)
}

/// The value that is given for the argument of this name.
fn value_of<'a>(name: &Name, given: Option<Given<'a>>) -> Option<&'a str> {
    match given {
        Some(given) if *given.name == *name => Some(given.value),
        _ => None,
    }
}

fn push_argument(
    text: &mut String,
    alloc: Global,
    schema: &Schema,
    argument: &InputValueDefinition,
    value: Option<&str>,
) -> Result<bool, ValidationError> {
    match value {
        Some(value) => {
            text.push_str(argument.name.as_str())?;
            text.push_str(": ")?;
            text.push_str(value)?;
            Ok(true)
        }
        None => push_input(text, alloc, schema, argument),
    }
}

/// Adds a field as `push_field` does, and selects the name of the type below it, if it is of a composite type.
///
/// Specification: 5.3.3 Leaf Field Selections.
pub fn push_whole_field(
    text: &mut String,
    ways: &Ways<'_>,
    field: &Component<FieldDefinition>,
    given: Option<Given<'_>>,
) -> Result<bool, ValidationError> {
    let is_whole = push_field(text, ways, field, given)?;
    let below = field.node.value.ty.inner_named_type();
    if let Some(definition) = ways.schema.types.get(below) {
        if definition.is_composite() {
            text.push_str(" { __typename }")?;
        }
    }
    Ok(is_whole)
}

/// The selection of this field, if it can be written.
pub fn field_text(
    ways: &Ways<'_>,
    field: &Component<FieldDefinition>,
    given: Option<Given<'_>>,
) -> Result<Option<String>, ValidationError> {
    let mut text = String::new(ways.allocator());
    if push_whole_field(&mut text, ways, field, given)? {
        Ok(Some(text))
    } else {
        Ok(None)
    }
}

/// A short selection on the type at this index: the name of the type, and of the root of subscriptions its first field.
///
/// Specification: 5.2.3.1 Single Root Field.
pub fn any_selection(ways: &Ways<'_>, index: usize) -> Result<Option<String>, ValidationError> {
    if let Some(Step::Root(OperationType::Subscription)) = ways.step_to(index) {
        first_field(ways, index)
    } else {
        Ok(Some(String::from_str(ways.allocator(), "__typename")?))
    }
}

/// The selection of the first field of the type at this index.
pub fn first_field(ways: &Ways<'_>, index: usize) -> Result<Option<String>, ValidationError> {
    let Some(definition) = ways.definition_at(index) else {
        return Ok(None);
    };
    let Some(fields) = fields_of(definition) else {
        return Ok(None);
    };
    match fields.get_index(0) {
        Some((_, field)) => field_text(ways, field, None),
        None => Ok(None),
    }
}
