use super::applications::read_directives;
use super::parts::{both, listed};
use super::reader::{DEEPEST, LONGEST, Place, Reader};
use super::repetitions::written_out;
use crate::errors::ExampleError;
use graphql_documents::documents::{
    Field, FieldDefinition, FieldSet, FragmentSpread, InlineFragment, Schema, Selection,
    SelectionSet,
};
use graphql_nodes::{Name, Node};
use std::alloc::Global;

/// The field set that a text as `{ a b { c } }` selects from a type of the schema. Each field has the
/// definition that its type gives it in the schema.
pub fn field_set(
    alloc: Global,
    schema: &Schema,
    type_name: &str,
    text: &str,
) -> Result<FieldSet, ExampleError> {
    let written = written_out(alloc, text)?;
    let mut reader = Reader::new(alloc, written.as_str(), Place::Nowhere);
    let ty = Reader::new(alloc, type_name, Place::Nowhere).name();
    let selection_set = selection_set(&mut reader, schema, ty)?;
    Ok(FieldSet { selection_set })
}

/// Reads selections in braces, from this type; none where no brace comes next.
pub(super) fn selection_set(
    reader: &mut Reader<'_>,
    schema: &Schema,
    ty: Result<Name, ExampleError>,
) -> Result<SelectionSet, ExampleError> {
    let mut set = empty_set(reader.alloc, ty?);
    fill(reader, schema, &mut set, DEEPEST).and(Ok(set))
}

fn empty_set(alloc: Global, ty: Name) -> SelectionSet {
    SelectionSet {
        ty,
        selections: Vec::new(alloc),
    }
}

/// Reads the selections of a set.
#[cycle(selection)]
fn fill(
    reader: &mut Reader<'_>,
    schema: &Schema,
    set: &mut SelectionSet,
    depth: u32,
) -> Result<(), ExampleError> {
    if depth == 0 {
        return Err(ExampleError::TooDeep);
    }
    if !reader.takes("{") {
        return Ok(());
    }
    for _ in 0..LONGEST {
        if reader.takes("}") {
            return Ok(());
        }
        let selection = selection(reader, schema, &set.ty, depth - 1)?;
        set.selections.push(selection)?;
    }
    Err(ExampleError::TooLong)
}

#[cycle(selection)]
fn selection(
    reader: &mut Reader<'_>,
    schema: &Schema,
    ty: &Name,
    depth: u32,
) -> Result<Selection, ExampleError> {
    let start = reader.start();
    if !reader.takes("...") {
        let mut field = field(reader, schema, ty)?;
        let filled = fill(reader, schema, &mut field.selection_set, depth);
        Ok(Selection::Field(reader.node(filled.and(Ok(field))?, start)?))
    } else if matches!(reader.next_word(), "" | "on") {
        let mut inline = inline_fragment(reader, ty)?;
        let filled = fill(reader, schema, &mut inline.selection_set, depth);
        Ok(Selection::InlineFragment(reader.node(filled.and(Ok(inline))?, start)?))
    } else {
        let spread = fragment_spread(reader)?;
        Ok(Selection::FragmentSpread(reader.node(spread, start)?))
    }
}

fn fragment_spread(reader: &mut Reader<'_>) -> Result<FragmentSpread, ExampleError> {
    let (fragment_name, directives) = both(reader.name(), read_directives(reader))?;
    Ok(FragmentSpread {
        fragment_name,
        directives,
    })
}

/// Reads an inline fragment up to its selections.
fn inline_fragment(reader: &mut Reader<'_>, ty: &Name) -> Result<InlineFragment, ExampleError> {
    let (type_condition, directives) = both(condition(reader), read_directives(reader))?;
    let inside = type_condition.as_ref().unwrap_or(ty).clone()?;
    Ok(InlineFragment {
        selection_set: empty_set(reader.alloc, inside),
        type_condition,
        directives,
    })
}

/// Reads `on Name`, if it comes next.
fn condition(reader: &mut Reader<'_>) -> Result<Option<Name>, ExampleError> {
    if reader.takes_word("on") {
        Ok(Some(reader.name()?))
    } else {
        Ok(None)
    }
}

/// Reads a field up to its selections.
fn field(reader: &mut Reader<'_>, schema: &Schema, ty: &Name) -> Result<Field, ExampleError> {
    let (alias, name) = alias_and_name(reader)?;
    let applied = both(listed(reader, "(", ")"), read_directives(reader));
    let typed = definition_and_set(reader.alloc, schema, ty, &name);
    let ((arguments, directives), (definition, selection_set)) = both(applied, typed)?;
    Ok(Field {
        alias,
        name,
        arguments,
        directives,
        selection_set,
        definition,
    })
}

fn alias_and_name(reader: &mut Reader<'_>) -> Result<(Option<Name>, Name), ExampleError> {
    let first = reader.name()?;
    if reader.takes(":") {
        both(Ok(Some(first)), reader.name())
    } else {
        Ok((None, first))
    }
}

/// The definition of a field of this type, and a set of the type that it gives.
fn definition_and_set(
    alloc: Global,
    schema: &Schema,
    ty: &Name,
    name: &Name,
) -> Result<(Node<FieldDefinition>, SelectionSet), ExampleError> {
    let definition = &schema.type_field(ty, name)?.node;
    let below = definition.value.ty.inner_named_type().clone()?;
    Ok((definition.clone()?, empty_set(alloc, below)))
}
