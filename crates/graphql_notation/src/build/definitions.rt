use super::applications::read_directives;
use super::literals::value;
use super::parts::{Member, Part, both, listed, located};
use super::reader::{LONGEST, Place, Reader};
use crate::errors::ExampleError;
use graphql_documents::documents::{
    DirectiveDefinition, EnumValueDefinition, FieldDefinition, InputValueDefinition, Type, Value,
    VariableDefinition,
};
use graphql_nodes::{DirectiveLocation, Name, Node};
use std::alloc::Global;

/// The definitions of arguments that a text as `(a: Int = 1, b: [Int])` writes.
pub fn inputs(alloc: Global, text: &str) -> Result<Vec<Node<InputValueDefinition>>, ExampleError> {
    listed(&mut Reader::new(alloc, text, Place::Nowhere), "(", ")")
}

/// The definitions of variables that a text as `($a: Int = 1, $b: [Int])` writes.
pub fn variables(alloc: Global, text: &str) -> Result<Vec<Node<VariableDefinition>>, ExampleError> {
    listed(&mut Reader::new(alloc, text, Place::Nowhere), "(", ")")
}

impl Part for InputValueDefinition {
    fn read(reader: &mut Reader<'_>) -> Result<InputValueDefinition, ExampleError> {
        let typed = both(reader.label(), located(reader));
        let settings = both(default_value(reader), read_directives(reader));
        let ((name, ty), (default_value, directives)) = both(typed, settings)?;
        Ok(InputValueDefinition {
            name,
            ty,
            default_value,
            directives,
        })
    }
}

impl Member for InputValueDefinition {
    fn name(&self) -> &Name {
        &self.name
    }
}

impl Part for VariableDefinition {
    fn read(reader: &mut Reader<'_>) -> Result<VariableDefinition, ExampleError> {
        reader.expect("$")?;
        let InputValueDefinition {
            name,
            ty,
            default_value,
            directives,
        } = InputValueDefinition::read(reader)?;
        Ok(VariableDefinition {
            name,
            ty,
            default_value,
            directives,
        })
    }
}

/// Reads `= value`, if it comes next.
fn default_value(reader: &mut Reader<'_>) -> Result<Option<Node<Value>>, ExampleError> {
    if reader.takes("=") {
        Ok(Some(value(reader)?))
    } else {
        Ok(None)
    }
}

impl Part for FieldDefinition {
    fn read(reader: &mut Reader<'_>) -> Result<FieldDefinition, ExampleError> {
        let head = both(reader.name(), listed(reader, "(", ")"));
        let typed = both(
            reader.expect(":").and(Type::read(reader)),
            read_directives(reader),
        );
        let ((name, arguments), (ty, directives)) = both(head, typed)?;
        Ok(FieldDefinition {
            name,
            arguments,
            ty,
            directives,
        })
    }
}

impl Member for FieldDefinition {
    fn name(&self) -> &Name {
        &self.name
    }
}

impl Part for EnumValueDefinition {
    fn read(reader: &mut Reader<'_>) -> Result<EnumValueDefinition, ExampleError> {
        let (value, directives) = both(reader.name(), read_directives(reader))?;
        Ok(EnumValueDefinition { value, directives })
    }
}

impl Member for EnumValueDefinition {
    fn name(&self) -> &Name {
        &self.value
    }
}

/// Reads the definition of a directive, from its name on.
pub(super) fn directive(reader: &mut Reader<'_>) -> Result<DirectiveDefinition, ExampleError> {
    let head = both(reader.name(), listed(reader, "(", ")"));
    let repeatable = reader.takes_word("repeatable");
    let ((name, arguments), locations) = both(head, locations(reader))?;
    Ok(DirectiveDefinition {
        name,
        arguments,
        repeatable,
        locations,
    })
}

/// Reads `on A | B`.
fn locations(reader: &mut Reader<'_>) -> Result<Vec<DirectiveLocation>, ExampleError> {
    let mut locations = Vec::new(reader.alloc);
    reader.expect_word("on")?;
    for _ in 0..LONGEST {
        locations.push(location(reader.word())?)?;
        if !reader.takes("|") {
            return Ok(locations);
        }
    }
    Err(ExampleError::TooLong)
}

/// The directive location with this text.
fn location(word: &str) -> Result<DirectiveLocation, ExampleError> {
    let location = DirectiveLocation::ALL
        .iter()
        .find(|location| location.name() == word);
    location.copied().ok_or(ExampleError::NotALocation)
}
