//! Short values of input types, as texts.

use graphql_documents::documents::{
    ExtendedType, InputObjectType, InputValueDefinition, Schema, Type,
};
use graphql_nodes::{Name, NamedType, ValidationError};
use std::alloc::Global;

/// As many parts the text of a value may have. Values that need more are not written.
const MOST_PIECES: usize = 4_096;

/// A part of the text of a value.
#[derive(Clone, Copy)]
pub enum Piece<'a> {
    Text(&'static str),
    Name(&'a Name),
    /// A value of this type.
    Value(&'a Type),
    /// A value of the type of this name.
    NamedValue(&'a NamedType),
}

/// Adds a short value of a type. Answers whether all of it was added.
///
/// Specification: 2.9 Input Values.
pub fn push_literal(
    text: &mut String,
    alloc: Global,
    schema: &Schema,
    value: Piece<'_>,
) -> Result<bool, ValidationError> {
    let mut pieces = Vec::new(alloc);
    pieces.push(value)?;
    for _ in 0..MOST_PIECES {
        match pieces.pop() {
            Some(piece) => push_piece(text, schema, &mut pieces, piece)?,
            None => return Ok(true),
        }
    }
    Ok(pieces.is_empty())
}

/// Adds a part, and puts off what it consists of.
fn push_piece<'a>(
    text: &mut String,
    schema: &'a Schema,
    pieces: &mut Vec<Piece<'a>>,
    piece: Piece<'a>,
) -> Result<(), ValidationError> {
    match piece {
        Piece::Text(part) => Ok(text.push_str(part)?),
        Piece::Name(name) => Ok(text.push_str(name.as_str())?),
        Piece::Value(Type::List(_) | Type::NonNullList(_)) => Ok(text.push_str("[]")?),
        Piece::Value(Type::Named(name) | Type::NonNullNamed(name)) | Piece::NamedValue(name) => {
            push_named_value(text, schema, pieces, name)
        }
    }
}

fn push_named_value<'a>(
    text: &mut String,
    schema: &'a Schema,
    pieces: &mut Vec<Piece<'a>>,
    name: &NamedType,
) -> Result<(), ValidationError> {
    match schema.types.get(name) {
        Some(ExtendedType::Enum(definition)) => match definition.value.values.get_index(0) {
            Some((value, _)) => Ok(text.push_str(value.as_str())?),
            None => Ok(text.push_str("null")?),
        },
        Some(ExtendedType::InputObject(definition)) => {
            text.push('{')?;
            pieces.push(Piece::Text("}"))?;
            put_off_fields(pieces, &definition.value)
        }
        _ => Ok(text.push_str(scalar_literal(name))?),
    }
}

/// A value of a scalar. A custom scalar takes any.
///
/// Specification: 3.5 Scalars.
fn scalar_literal(name: &NamedType) -> &'static str {
    match name.as_str() {
        "Boolean" => "true",
        "String" => "\"\"",
        _ => "1",
    }
}

/// Puts off the fields that an object must have, the last one first.
fn put_off_fields<'a>(
    pieces: &mut Vec<Piece<'a>>,
    object: &'a InputObjectType,
) -> Result<(), ValidationError> {
    let mut is_last = true;
    for position in (0..object.fields.len()).rev() {
        if let Some((_, field)) = object.fields.get_index(position) {
            if field.node.value.is_required() {
                put_off_field(pieces, &field.node.value, is_last)?;
                is_last = false;
            }
        }
    }
    Ok(())
}

fn put_off_field<'a>(
    pieces: &mut Vec<Piece<'a>>,
    field: &'a InputValueDefinition,
    is_last: bool,
) -> Result<(), ValidationError> {
    if !is_last {
        pieces.push(Piece::Text(", "))?;
    }
    pieces.push(Piece::Value(&field.ty.value))?;
    pieces.push(Piece::Text(": "))?;
    pieces.push(Piece::Name(&field.name))?;
    Ok(())
}

/// Adds the beginning of an object up to the value of this field, behind the other fields that the object must have. Answers
/// whether all of it was added.
pub fn push_object_up_to(
    text: &mut String,
    alloc: Global,
    schema: &Schema,
    object: &InputObjectType,
    field: &Name,
) -> Result<bool, ValidationError> {
    text.push('{')?;
    let mut is_whole = true;
    for (name, other) in &object.fields {
        if *name != *field && other.node.value.is_required() {
            is_whole = push_input(text, alloc, schema, &other.node.value)? && is_whole;
            text.push_str(", ")?;
        }
    }
    text.push_str(field.as_str())?;
    text.push_str(": ")?;
    Ok(is_whole)
}

/// Adds an argument or input field with a short value. Answers whether all of it was added.
pub fn push_input(
    text: &mut String,
    alloc: Global,
    schema: &Schema,
    input: &InputValueDefinition,
) -> Result<bool, ValidationError> {
    text.push_str(input.name.as_str())?;
    text.push_str(": ")?;
    push_literal(text, alloc, schema, Piece::Value(&input.ty.value))
}
