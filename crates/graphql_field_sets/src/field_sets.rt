//! Field sets in the trees of a schema.

use graphql_dialects::{Link, SortedDefinitions, argument};
use graphql_nodes::{Name, ValidationError};
use graphql_trees::{
    Directive, Document, FieldDefinition, StringLiteral, TypeDefinition, TypeReference, Value,
};
use std::alloc::{AllocError, Global};

/// A field set: the string that a directive has, and the type that it selects from.
#[derive(Clone, Copy)]
pub struct FieldSetText<'a> {
    pub ty: &'a Name,
    pub literal: &'a StringLiteral,
}

/// The field sets of a subgraph, in the order of its types: that of `@key` selects from the type which has it, that of `@requires` from the type whose
/// field has it, and that of `@provides` from the type of the field. The only error is a failed allocation.
pub fn field_sets_in<'a>(
    alloc: Global,
    trees: &'a [Document],
) -> Result<Vec<FieldSetText<'a>>, ValidationError> {
    let sorted = SortedDefinitions::of(alloc, trees)?;
    let link = Link::of(alloc, &sorted)?;
    let mut sets = Vec::new(alloc);
    add_all(&mut sets, &link, &sorted.types)?;
    add_all(&mut sets, &link, &sorted.type_extensions)?;
    Ok(sets)
}

fn add_all<'a>(
    sets: &mut Vec<FieldSetText<'a>>,
    link: &Link<'_>,
    definitions: &[&'a TypeDefinition],
) -> Result<(), AllocError> {
    for definition in definitions {
        match *definition {
            TypeDefinition::Object(object) => add_type(
                sets,
                link,
                &object.name,
                object.directives.as_slice(),
                object.fields.as_slice(),
            )?,
            TypeDefinition::Interface(interface) => add_type(
                sets,
                link,
                &interface.name,
                interface.directives.as_slice(),
                interface.fields.as_slice(),
            )?,
            _ => {}
        }
    }
    Ok(())
}

/// Adds the field sets of a type, and of its fields.
fn add_type<'a>(
    sets: &mut Vec<FieldSetText<'a>>,
    link: &Link<'_>,
    name: &'a Name,
    directives: &'a [Directive],
    fields: &'a [FieldDefinition],
) -> Result<(), AllocError> {
    add_named(sets, link, "key", name, directives)?;
    for field in fields {
        let directives = field.directives.as_slice();
        add_named(sets, link, "requires", name, directives)?;
        add_named(
            sets,
            link,
            "provides",
            innermost(&field.type_reference),
            directives,
        )?;
    }
    Ok(())
}

/// Adds the field sets of the directives that are this one of the specification, each of which selects from this type.
fn add_named<'a>(
    sets: &mut Vec<FieldSetText<'a>>,
    link: &Link<'_>,
    specified: &str,
    ty: &'a Name,
    directives: &'a [Directive],
) -> Result<(), AllocError> {
    for directive in directives {
        if link.names(specified, directive.name.as_str()) {
            if let Some(Value::String(literal)) = argument(directive, "fields") {
                sets.push(FieldSetText { ty, literal })?;
            }
        }
    }
    Ok(())
}

/// The name of the type that the reference has within its lists.
fn innermost(reference: &TypeReference) -> &Name {
    match reference {
        TypeReference::Named(name) | TypeReference::NonNullNamed(name, _) => name,
        TypeReference::List(inner, _) | TypeReference::NonNullList(inner, _) => {
            innermost(inner.get())
        }
    }
}
