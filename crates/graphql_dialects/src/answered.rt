//! Fields of documents that a client answers itself.

use graphql_blanks::Part;
use graphql_documents::documents::Schema;
use graphql_literals::blank_parts;
use graphql_nodes::{NamedType, SourceSpan};
use graphql_trees::{Definition, Document, Field, InlineFragment, Selection};
use std::alloc::{AllocError, Global};

/// What stands for the fields of a selection set that has no others.
const TYPENAME: &str = "__typename";

/// A field that the client answers.
#[derive(Clone, Copy)]
pub struct ClientField {
    pub part: Part,
    /// Its selection set has only such fields, and this is the first one.
    pub is_first_of_all: bool,
}

impl ClientField {
    /// Whether `__typename` is to be in its place, and has room there.
    fn becomes_typename(self) -> bool {
        self.is_first_of_all && self.part.end.saturating_sub(self.part.start) >= TYPENAME.len()
    }

    /// Whether it is taken out: its set has other fields, or `__typename` has room in its place.
    fn is_taken_out(self) -> bool {
        !self.is_first_of_all || self.becomes_typename()
    }
}

/// The fields of a document that have the directive `@client`, and that their types lack, in the order of the text. What is below such a field, and
/// below a field that the type lacks, is not looked at. The only error is a failed allocation.
pub fn client_fields(
    alloc: Global,
    schema: &Schema,
    tree: &Document,
) -> Result<Vec<ClientField>, AllocError> {
    let mut found = Vec::new(alloc);
    for definition in tree.definitions.as_slice() {
        match definition {
            Definition::Operation(operation) => {
                if let Some(root) = schema.root_operation(operation.operation_type) {
                    let set = operation.selection_set.selections.as_slice();
                    add_of_set(schema, root, set, &mut found)?;
                }
            }
            Definition::Fragment(fragment) => {
                let set = fragment.selection_set.selections.as_slice();
                add_of_set(schema, &fragment.type_condition, set, &mut found)?;
            }
            _ => {}
        }
    }
    Ok(found)
}

/// Adds the fields of these selections on a type.
#[cycle(selections)]
fn add_of_set(
    schema: &Schema,
    parent: &NamedType,
    selections: &[Selection],
    found: &mut Vec<ClientField>,
) -> Result<(), AllocError> {
    let mut is_first_of_all = selections
        .iter()
        .all(|selection| is_client_selection(schema, parent, selection));
    for selection in selections {
        match selection {
            Selection::Field(field) => {
                add_of_field(schema, parent, field, is_first_of_all, found)?;
            }
            Selection::InlineFragment(fragment) => {
                add_of_fragment(schema, parent, fragment, found)?;
            }
            Selection::FragmentSpread(_) => {}
        }
        is_first_of_all = false;
    }
    Ok(())
}

/// Adds a field on a type, or those below it.
#[cycle(selections)]
fn add_of_field(
    schema: &Schema,
    parent: &NamedType,
    field: &Field,
    is_first_of_all: bool,
    found: &mut Vec<ClientField>,
) -> Result<(), AllocError> {
    match schema.type_field(parent, &field.name) {
        Ok(definition) => match &field.selection_set {
            Some(set) => {
                let ty = definition.node.value.ty.inner_named_type();
                add_of_set(schema, ty, set.get().selections.as_slice(), found)
            }
            None => Ok(()),
        },
        Err(_) => {
            if has_client(field) {
                let part = part_of(field.span);
                found.push(ClientField {
                    part,
                    is_first_of_all,
                })?;
            }
            Ok(())
        }
    }
}

/// Adds the fields of an inline fragment.
#[cycle(selections)]
fn add_of_fragment(
    schema: &Schema,
    parent: &NamedType,
    fragment: &InlineFragment,
    found: &mut Vec<ClientField>,
) -> Result<(), AllocError> {
    let ty = fragment.type_condition.as_ref().unwrap_or(parent);
    add_of_set(
        schema,
        ty,
        fragment.selection_set.selections.as_slice(),
        found,
    )
}

/// Whether the selection is a field that the type lacks and that the client answers.
fn is_client_selection(schema: &Schema, parent: &NamedType, selection: &Selection) -> bool {
    match selection {
        Selection::Field(field) => {
            has_client(field) && schema.type_field(parent, &field.name).is_err()
        }
        _ => false,
    }
}

fn has_client(field: &Field) -> bool {
    field
        .directives
        .as_slice()
        .iter()
        .any(|directive| directive.name.as_str() == "client")
}

fn part_of(span: SourceSpan) -> Part {
    Part {
        start: span.start as usize,
        end: span.end as usize,
    }
}

/// The text of a document without these fields, which are in order: they are blank, and each other byte has its place. If a selection set has only such
/// fields, `__typename` is in the place of the first; a first one with less than ten bytes stays. None, if a field begins or ends within a character:
/// that of a tree of the text does not. The only error is a failed allocation.
pub fn text_without(
    alloc: Global,
    text: &str,
    fields: &[ClientField],
) -> Result<Option<String>, AllocError> {
    let mut parts = Vec::new(alloc);
    for field in fields {
        if field.is_taken_out() {
            parts.push(field.part)?;
        }
    }
    match blank_parts(alloc, text, &parts)? {
        Some(blank) => with_typenames(alloc, blank.as_str(), fields),
        None => Ok(None),
    }
}

/// The text with `__typename` at the places of the fields that become it.
fn with_typenames(
    alloc: Global,
    text: &str,
    fields: &[ClientField],
) -> Result<Option<String>, AllocError> {
    let mut written = String::new(alloc);
    for field in fields {
        if field.becomes_typename() {
            let Some(before) = text.get(written.len()..field.part.start) else {
                return Ok(None);
            };
            written.push_str(before)?;
            written.push_str(TYPENAME)?;
        }
    }
    let Some(rest) = text.get(written.len()..) else {
        return Ok(None);
    };
    written.push_str(rest)?;
    Ok(Some(written))
}
