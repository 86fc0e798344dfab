//! Documents that give a value.

use crate::directives::{application, document_with};
use crate::inputs::InputSite;
use crate::literals::push_object_up_to;
use crate::texts::{Given, document, field_text};
use crate::ways::Ways;
use graphql_documents::documents::{ExtendedType, InputValueDefinition, Type};
use graphql_nodes::{Node, ValidationError};

/// A field of an input object.
#[derive(Clone, Copy)]
struct Entry<'a> {
    object: usize,
    field: &'a Node<InputValueDefinition>,
}

/// A place in objects.
#[derive(Drop)]
struct Nesting<'a> {
    /// The place of the outermost object.
    outer: InputSite<'a>,
    /// The fields that lead to the value, the innermost first.
    entries: Vec<Entry<'a>>,
}

/// A document that gives this value at this place. It declares these variables.
pub fn document_giving(
    ways: &Ways<'_>,
    site: InputSite<'_>,
    variables: &str,
    value: &str,
) -> Result<Option<String>, ValidationError> {
    let Some(nesting) = nesting_of(ways, site)? else {
        return Ok(None);
    };
    let Some(value) = nested_value(ways, &nesting, value)? else {
        return Ok(None);
    };
    match nesting.outer {
        InputSite::InScalar { scalar, input } => {
            in_scalar(ways, scalar, input, variables, value.as_str())
        }
        outer => giving_outside(ways, outer, variables, value.as_str()),
    }
}

/// The objects around a place. There are no more of them than types.
fn nesting_of<'a>(
    ways: &Ways<'a>,
    site: InputSite<'a>,
) -> Result<Option<Nesting<'a>>, ValidationError> {
    let mut entries = Vec::new(ways.allocator());
    let mut outer = site;
    for _ in 0..ways.schema.types.len() {
        let InputSite::Entry { object, field } = outer else {
            return Ok(Some(Nesting { outer, entries }));
        };
        entries.push(Entry { object, field })?;
        match ways.site_of(object) {
            Some(next) => outer = next,
            None => return Ok(None),
        }
    }
    Ok(None)
}

/// The value in the objects around it.
fn nested_value(
    ways: &Ways<'_>,
    nesting: &Nesting<'_>,
    value: &str,
) -> Result<Option<String>, ValidationError> {
    let mut text = String::new(ways.allocator());
    let mut is_whole = true;
    for entry in nesting.entries.iter().rev() {
        is_whole = push_beginning(&mut text, ways, *entry)? && is_whole;
    }
    text.push_str(value)?;
    push_braces(&mut text, nesting.entries.len())?;
    if is_whole { Ok(Some(text)) } else { Ok(None) }
}

fn push_beginning(
    text: &mut String,
    ways: &Ways<'_>,
    entry: Entry<'_>,
) -> Result<bool, ValidationError> {
    match ways.definition_at(entry.object) {
        Some(ExtendedType::InputObject(object)) => push_object_up_to(
            text,
            ways.allocator(),
            ways.schema,
            &object.value,
            &entry.field.value.name,
        ),
        _ => Ok(false),
    }
}

fn push_braces(text: &mut String, count: usize) -> Result<(), ValidationError> {
    for _ in 0..count {
        text.push('}')?;
    }
    Ok(())
}

/// A document that gives this value as the default of a variable, which is in an object of the custom scalar at this index.
fn in_scalar(
    ways: &Ways<'_>,
    scalar: usize,
    input: usize,
    variables: &str,
    value: &str,
) -> Result<Option<String>, ValidationError> {
    let Some(name) = ways.name_at(input) else {
        return Ok(None);
    };
    if !variables.is_empty() {
        return Ok(None);
    }
    let mut variables = String::new(ways.allocator());
    write!(variables, "($v: {name} = {value})")?;
    giving_to_scalar(ways, scalar, variables.as_str())
}

/// A document that gives its variable in an object of the custom scalar at this index.
fn giving_to_scalar(
    ways: &Ways<'_>,
    scalar: usize,
    variables: &str,
) -> Result<Option<String>, ValidationError> {
    let Some(site) = ways.site_of(scalar) else {
        return Ok(None);
    };
    let Some(nesting) = nesting_of(ways, site)? else {
        return Ok(None);
    };
    match nested_value(ways, &nesting, "{k: $v}")? {
        Some(value) => giving_outside(ways, nesting.outer, variables, value.as_str()),
        None => Ok(None),
    }
}

/// A document that gives this value for an argument.
fn giving_outside(
    ways: &Ways<'_>,
    site: InputSite<'_>,
    variables: &str,
    value: &str,
) -> Result<Option<String>, ValidationError> {
    match site {
        InputSite::Argument {
            place,
            field,
            argument,
        } => {
            let name = &argument.value.name;
            match field_text(ways, field, Some(Given { name, value }))? {
                Some(selection) => document(ways, variables, place, selection.as_str()),
                None => Ok(None),
            }
        }
        InputSite::DirectiveArgument {
            directive,
            argument,
        } => {
            let name = &argument.value.name;
            match application(ways, &directive.value, Some(Given { name, value }))? {
                Some(applied) => {
                    document_with(ways, &directive.value, variables, applied.as_str())
                }
                None => Ok(None),
            }
        }
        InputSite::Entry { .. } | InputSite::InScalar { .. } => Ok(None),
    }
}

/// A document with a variable of the type of an argument or input field, which is given there.
///
/// Specification: 5.8.5 All Variable Usages Are Allowed.
pub fn document_with_variable(
    ways: &Ways<'_>,
    site: InputSite<'_>,
) -> Result<Option<String>, ValidationError> {
    match site {
        InputSite::Argument { argument, .. } | InputSite::DirectiveArgument { argument, .. } => {
            giving_variable(ways, site, &argument.value.ty.value)
        }
        InputSite::Entry { field, .. } => giving_variable(ways, site, &field.value.ty.value),
        InputSite::InScalar { scalar, input } => {
            let Some(name) = ways.name_at(input) else {
                return Ok(None);
            };
            let mut variables = String::new(ways.allocator());
            write!(variables, "($v: {name})")?;
            giving_to_scalar(ways, scalar, variables.as_str())
        }
    }
}

fn giving_variable(
    ways: &Ways<'_>,
    site: InputSite<'_>,
    ty: &Type,
) -> Result<Option<String>, ValidationError> {
    let mut variables = String::new(ways.allocator());
    write!(variables, "($v: {ty})")?;
    document_giving(ways, site, variables.as_str(), "$v")
}
