//! Documents in which two fields come under one response key, below two others that do.
//!
//! Specification: 5.3.2 Field Selection Merging.

use crate::candidates::Candidates;
use crate::merging::{MOST_DOCUMENTS, MOST_PLACES, TypeField, is_object, lose_shape, same_shape};
use graphql_documents::documents::{Component, FieldDefinition, Schema};
use graphql_nodes::{Name, NamedType, ValidationError};
use graphql_schema_parts::fields_of;
use graphql_schema_ways::texts::{document, push_field, push_whole_field};
use graphql_schema_ways::{Step, Ways};

/// So many fields of a type are tried.
const MOST_FIELDS: usize = 16;

/// A field below another one.
#[derive(Clone, Copy)]
struct Nested<'a> {
    above: TypeField<'a>,
    below: TypeField<'a>,
}

/// Adds documents in which a field, below the first one that leads to its type, meets another one whose type had the same shape
/// and has another one.
pub(crate) fn push_nested_meetings(
    candidates: &mut Candidates,
    ways: &Ways<'_>,
    new: &Schema,
    ty: &NamedType,
    field: &Component<FieldDefinition>,
) -> Result<(), ValidationError> {
    let Some(index) = ways.index_of(ty) else {
        return Ok(());
    };
    let Some(
        Step::Field {
            parent,
            field: above,
        },
    ) = ways.step_to(index)
    else {
        return Ok(());
    };
    let Some(name) = ways.name_at(parent) else {
        return Ok(());
    };
    let first = Nested {
        above: TypeField {
            ty: name,
            field: above,
        },
        below: TypeField { ty, field },
    };
    if is_object(ways.schema, name) {
        push_at_each(candidates, ways, new, first, parent)
    } else {
        Ok(())
    }
}

/// Adds documents with both fields on the interfaces and unions of the object at this index.
fn push_at_each(
    candidates: &mut Candidates,
    ways: &Ways<'_>,
    new: &Schema,
    first: Nested<'_>,
    parent: usize,
) -> Result<(), ValidationError> {
    for place in ways.overlaps_at(parent).iter().take(MOST_PLACES) {
        push_at(candidates, ways, new, first, *place)?;
    }
    Ok(())
}

/// Adds documents with both fields on the type at this index, the second one on another of its objects.
fn push_at(
    candidates: &mut Candidates,
    ways: &Ways<'_>,
    new: &Schema,
    first: Nested<'_>,
    place: usize,
) -> Result<(), ValidationError> {
    for other in ways.overlaps_at(place).iter().take(MOST_PLACES) {
        if let Some(name) = ways.name_at(*other) {
            if *name != *first.above.ty && is_object(ways.schema, name) {
                push_below_each(candidates, ways, new, first, place, name)?;
            }
        }
    }
    Ok(())
}

/// Adds documents in which the second field is below one of this object.
fn push_below_each(
    candidates: &mut Candidates,
    ways: &Ways<'_>,
    new: &Schema,
    first: Nested<'_>,
    place: usize,
    object: &Name,
) -> Result<(), ValidationError> {
    let Some(definition) = ways.schema.types.get(object) else {
        return Ok(());
    };
    let Some(fields) = fields_of(definition) else {
        return Ok(());
    };
    let ty = &first.above.field.node.value.ty;
    for (_, field) in fields.iter().take(MOST_FIELDS) {
        if same_shape(ways.schema, ty, &field.node.value.ty) {
            let above = TypeField { ty: object, field };
            push_below(candidates, ways, new, first, place, above)?;
        }
    }
    Ok(())
}

/// Adds documents in which the second field is below this one.
fn push_below(
    candidates: &mut Candidates,
    ways: &Ways<'_>,
    new: &Schema,
    first: Nested<'_>,
    place: usize,
    above: TypeField<'_>,
) -> Result<(), ValidationError> {
    let ty = above.field.node.value.ty.inner_named_type();
    let Some(definition) = ways.schema.types.get(ty) else {
        return Ok(());
    };
    let Some(fields) = fields_of(definition) else {
        return Ok(());
    };
    for (_, field) in fields.iter().take(MOST_FIELDS) {
        if candidates.texts.len() >= MOST_DOCUMENTS {
            return Ok(());
        }
        let below = TypeField { ty, field };
        if lose_shape(ways.schema, new, first.below, below) {
            let second = Nested { above, below };
            candidates.push(nested_document(ways, place, first, second)?)?;
        }
    }
    Ok(())
}

/// A document with both fields, each under its type as a condition on the type at this index.
fn nested_document(
    ways: &Ways<'_>,
    place: usize,
    first: Nested<'_>,
    second: Nested<'_>,
) -> Result<Option<String>, ValidationError> {
    let mut text = String::new(ways.allocator());
    let has_first = push_nested(&mut text, ways, first)?;
    text.push(' ')?;
    let has_second = push_nested(&mut text, ways, second)?;
    if has_first && has_second {
        document(ways, "", place, text.as_str())
    } else {
        Ok(None)
    }
}

/// Adds a field below another one. Answers whether all was added.
fn push_nested(
    text: &mut String,
    ways: &Ways<'_>,
    nested: Nested<'_>,
) -> Result<bool, ValidationError> {
    let ty = nested.above.ty;
    write!(text, "... on {ty} {{ k: ")?;
    let has_above = push_field(text, ways, nested.above.field, None)?;
    text.push_str(" { k: ")?;
    let has_below = push_whole_field(text, ways, nested.below.field, None)?;
    text.push_str(" } }")?;
    Ok(has_above && has_below)
}
