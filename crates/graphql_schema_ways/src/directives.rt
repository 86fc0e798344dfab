//! Documents that apply a directive.

use crate::texts::{Given, any_selection, push_arguments};
use crate::ways::Ways;
use graphql_documents::documents::DirectiveDefinition;
use graphql_nodes::{DirectiveLocation, NamedType, OperationType, ValidationError};

/// The application of a directive with the arguments that it must have, and this one.
///
/// Specification: 2.12 Directives.
pub fn application(
    ways: &Ways<'_>,
    directive: &DirectiveDefinition,
    given: Option<Given<'_>>,
) -> Result<Option<String>, ValidationError> {
    let alloc = ways.allocator();
    let mut text = String::new(alloc);
    text.push('@')?;
    text.push_str(directive.name.as_str())?;
    let arguments = &directive.arguments;
    if push_arguments(&mut text, alloc, ways.schema, arguments, given)? {
        Ok(Some(text))
    } else {
        Ok(None)
    }
}

/// A document with this application at a location of the directive, if there is one in documents. It declares these variables.
pub fn document_with(
    ways: &Ways<'_>,
    directive: &DirectiveDefinition,
    variables: &str,
    application: &str,
) -> Result<Option<String>, ValidationError> {
    for location in &directive.locations {
        let document = document_at(ways, *location, variables, application)?;
        if document.is_some() {
            return Ok(document);
        }
    }
    Ok(None)
}

/// A document with this application of a directive at this location. It declares these variables.
///
/// Specification: 3.13 Directives, ExecutableDirectiveLocation.
pub fn document_at(
    ways: &Ways<'_>,
    location: DirectiveLocation,
    variables: &str,
    application: &str,
) -> Result<Option<String>, ValidationError> {
    match location {
        DirectiveLocation::Query => on_operation(
            ways,
            OperationType::Query,
            variables,
            application,
        ),
        DirectiveLocation::Mutation => {
            on_operation(ways, OperationType::Mutation, variables, application)
        }
        DirectiveLocation::Subscription => {
            on_operation(ways, OperationType::Subscription, variables, application)
        }
        _ => match ways.schema.root_operation(OperationType::Query) {
            Some(root) => in_query(ways, root, location, variables, application),
            None => Ok(None),
        },
    }
}

fn on_operation(
    ways: &Ways<'_>,
    operation: OperationType,
    variables: &str,
    application: &str,
) -> Result<Option<String>, ValidationError> {
    let Some(selection) = selection_on_root(ways, operation)? else {
        return Ok(None);
    };
    let mut text = String::new(ways.allocator());
    write!(
        text,
        "{operation}{variables} {application} {{ {selection} }}"
    )?;
    Ok(Some(text))
}

/// A short selection on the root type of a kind of operation.
fn selection_on_root(
    ways: &Ways<'_>,
    operation: OperationType,
) -> Result<Option<String>, ValidationError> {
    let Some(root) = ways.schema.root_operation(operation) else {
        return Ok(None);
    };
    match ways.index_of(root) {
        Some(index) => any_selection(ways, index),
        None => Ok(None),
    }
}

fn in_query(
    ways: &Ways<'_>,
    root: &NamedType,
    location: DirectiveLocation,
    variables: &str,
    application: &str,
) -> Result<Option<String>, ValidationError> {
    let mut text = String::new(ways.allocator());
    push_head(&mut text, variables)?;
    match location {
        DirectiveLocation::Field => write!(text, "{{ __typename {application} }}")?,
        DirectiveLocation::InlineFragment => {
            write!(text, "{{ ... {application} {{ __typename }} }}")?
        }
        DirectiveLocation::FragmentSpread => write!(
            text,
            "{{ ...F {application} }} fragment F on {root} {{ __typename }}"
        )?,
        DirectiveLocation::FragmentDefinition => write!(
            text,
            "{{ ...F }} fragment F on {root} {application} {{ __typename }}"
        )?,
        DirectiveLocation::VariableDefinition if variables.is_empty() => write!(
            text,
            "query($v: Boolean! {application}) {{ __typename @skip(if: $v) }}"
        )?,
        _ => return Ok(None),
    }
    Ok(Some(text))
}

/// Adds the beginning of a query, if it declares variables.
fn push_head(text: &mut String, variables: &str) -> Result<(), ValidationError> {
    if !variables.is_empty() {
        text.push_str("query")?;
        text.push_str(variables)?;
        text.push(' ')?;
    }
    Ok(())
}
