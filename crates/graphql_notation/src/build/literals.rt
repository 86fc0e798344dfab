use super::parts::both;
use super::reader::{DEEPEST, LONGEST, Reader};
use crate::errors::ExampleError;
use graphql_documents::documents::Value;
use graphql_nodes::{Name, Node};
use graphql_numbers::{FloatValue, IntValue};

/// Reads a value.
pub(super) fn value(reader: &mut Reader<'_>) -> Result<Node<Value>, ExampleError> {
    nested_value(reader, DEEPEST)
}

#[cycle(value)]
fn nested_value(reader: &mut Reader<'_>, depth: u32) -> Result<Node<Value>, ExampleError> {
    if depth == 0 {
        return Err(ExampleError::TooDeep);
    }
    let start = reader.start();
    let value = if reader.takes("[") {
        let mut items = Vec::new(reader.alloc);
        add_items(reader, &mut items, depth - 1).and(Ok(Value::List(items)))
    } else if reader.takes("{") {
        let mut fields = Vec::new(reader.alloc);
        add_fields(reader, &mut fields, depth - 1).and(Ok(Value::Object(fields)))
    } else {
        plain_value(reader)
    };
    reader.node(value?, start)
}

#[cycle(value)]
fn add_items(
    reader: &mut Reader<'_>,
    items: &mut Vec<Node<Value>>,
    depth: u32,
) -> Result<(), ExampleError> {
    for _ in 0..LONGEST {
        if reader.takes("]") {
            return Ok(());
        }
        items.push(nested_value(reader, depth)?)?;
    }
    Err(ExampleError::TooLong)
}

#[cycle(value)]
fn add_fields(
    reader: &mut Reader<'_>,
    fields: &mut Vec<(Name, Node<Value>)>,
    depth: u32,
) -> Result<(), ExampleError> {
    for _ in 0..LONGEST {
        if reader.takes("}") {
            return Ok(());
        }
        fields.push(both(reader.label(), nested_value(reader, depth))?)?;
    }
    Err(ExampleError::TooLong)
}

/// Reads a value that holds no other.
fn plain_value(reader: &mut Reader<'_>) -> Result<Value, ExampleError> {
    if reader.takes("$") {
        return Ok(Value::Variable(reader.name()?));
    }
    if let Some(text) = reader.string() {
        return Ok(Value::String(String::from_str(reader.alloc, text)?));
    }
    match reader.number() {
        Some(text) => number(reader, text),
        None => word(reader),
    }
}

fn number(reader: &Reader<'_>, text: &str) -> Result<Value, ExampleError> {
    let written = String::from_str(reader.alloc, text)?;
    let number = if text.contains(is_of_float) {
        FloatValue::new(written).map(Value::Float)
    } else {
        IntValue::new(written).map(Value::Int)
    };
    number.ok_or(ExampleError::NotANumber)
}

fn is_of_float(c: char) -> bool {
    matches!(c, '.' | 'e' | 'E')
}

fn word(reader: &mut Reader<'_>) -> Result<Value, ExampleError> {
    let value = match reader.next_word() {
        "null" => Value::Null,
        "true" => Value::Boolean(true),
        "false" => Value::Boolean(false),
        _ => return Ok(Value::Enum(reader.name()?)),
    };
    reader.word();
    Ok(value)
}
