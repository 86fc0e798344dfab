//! Documents in which two fields come under one response key.
//!
//! Specification: 5.3.2 Field Selection Merging.

use crate::candidates::{Candidates, field_named};
use crate::nested_merging::push_nested_meetings;
use graphql_documents::documents::{Component, ExtendedType, FieldDefinition, Schema, Type};
use graphql_nodes::{Name, NamedType, ValidationError};
use graphql_schema_parts::{FieldMap, fields_of};
use graphql_schema_ways::Ways;
use graphql_schema_ways::texts::{document, push_whole_field};

/// So many places are tried for two fields, and so many types at each of them.
pub(crate) const MOST_PLACES: usize = 8;

/// So many documents are tried.
pub(crate) const MOST_DOCUMENTS: usize = 6;

/// A field of the type of this name.
#[derive(Clone, Copy)]
pub(crate) struct TypeField<'a> {
    pub ty: &'a Name,
    pub field: &'a Component<FieldDefinition>,
}

/// Adds documents in which a field meets another one whose type had the same shape and has another one.
pub(crate) fn push_meetings(
    candidates: &mut Candidates,
    ways: &Ways<'_>,
    new: &Schema,
    ty: &NamedType,
    field: &Component<FieldDefinition>,
) -> Result<(), ValidationError> {
    let Some(index) = ways.index_of(ty) else {
        return Ok(());
    };
    let first = TypeField { ty, field };
    push_at(candidates, ways, new, first, index)?;
    for place in ways.overlaps_at(index).iter().take(MOST_PLACES) {
        push_at(candidates, ways, new, first, *place)?;
    }
    if candidates.texts.is_empty() {
        push_nested_meetings(candidates, ways, new, ty, field)
    } else {
        Ok(())
    }
}

/// Adds documents in which both fields are selected on the type at this index.
fn push_at(
    candidates: &mut Candidates,
    ways: &Ways<'_>,
    new: &Schema,
    first: TypeField<'_>,
    place: usize,
) -> Result<(), ValidationError> {
    push_with(candidates, ways, new, first, place, place)?;
    for other in ways.overlaps_at(place).iter().take(MOST_PLACES) {
        push_with(candidates, ways, new, first, place, *other)?;
    }
    Ok(())
}

/// Adds documents in which the second field is one of the type at the second index.
fn push_with(
    candidates: &mut Candidates,
    ways: &Ways<'_>,
    new: &Schema,
    first: TypeField<'_>,
    place: usize,
    other: usize,
) -> Result<(), ValidationError> {
    let (Some(ty), Some(definition)) = (ways.name_at(other), ways.definition_at(other)) else {
        return Ok(());
    };
    if let Some(fields) = fields_of(definition) {
        push_with_fields(candidates, ways, new, first, place, ty, fields)?;
    }
    let field = &ways.schema.meta_fields.typename;
    push_pair(candidates, ways, new, first, place, TypeField { ty, field })
}

fn push_with_fields(
    candidates: &mut Candidates,
    ways: &Ways<'_>,
    new: &Schema,
    first: TypeField<'_>,
    place: usize,
    ty: &Name,
    fields: &FieldMap,
) -> Result<(), ValidationError> {
    for (_, field) in fields {
        if candidates.texts.len() >= MOST_DOCUMENTS {
            return Ok(());
        }
        push_pair(candidates, ways, new, first, place, TypeField { ty, field })?;
    }
    Ok(())
}

/// Adds a document with these two fields, if they had one shape and no longer have.
fn push_pair(
    candidates: &mut Candidates,
    ways: &Ways<'_>,
    new: &Schema,
    first: TypeField<'_>,
    place: usize,
    second: TypeField<'_>,
) -> Result<(), ValidationError> {
    if can_meet(ways.schema, first, second) && lose_shape(ways.schema, new, first, second) {
        candidates.push(pair_document(ways, place, first, second)?)
    } else {
        Ok(())
    }
}

/// Whether the two fields can come under one response key: they have one name, or their types are two objects.
fn can_meet(schema: &Schema, first: TypeField<'_>, second: TypeField<'_>) -> bool {
    first.name() == second.name()
        || (first.ty != second.ty && is_object(schema, first.ty) && is_object(schema, second.ty))
}

pub(crate) fn is_object(schema: &Schema, name: &Name) -> bool {
    matches!(schema.types.get(name), Some(ExtendedType::Object(_)))
}

/// Whether the types of the two fields had one shape, and no longer have.
pub(crate) fn lose_shape(
    old: &Schema,
    new: &Schema,
    first: TypeField<'_>,
    second: TypeField<'_>,
) -> bool {
    if !same_shape(old, &first.field.node.value.ty, &second.field.node.value.ty) {
        return false;
    }
    match (first.after(new), second.after(new)) {
        (Some(a), Some(b)) => !same_shape(new, &a.node.value.ty, &b.node.value.ty),
        _ => false,
    }
}

/// Whether fields of the two types can come under one response key.
///
/// Specification: 5.3.2 Field Selection Merging, SameResponseShape.
pub(crate) fn same_shape(schema: &Schema, a: &Type, b: &Type) -> bool {
    match (a, b) {
        (Type::Named(a), Type::Named(b)) | (Type::NonNullNamed(a), Type::NonNullNamed(b)) => {
            a == b || (is_composite(schema, a) && is_composite(schema, b))
        }
        (Type::List(a), Type::List(b)) | (Type::NonNullList(a), Type::NonNullList(b)) => {
            same_shape(schema, a, b)
        }
        _ => false,
    }
}

fn is_composite(schema: &Schema, name: &NamedType) -> bool {
    match schema.types.get(name) {
        Some(definition) => definition.is_composite(),
        None => false,
    }
}

impl TypeField<'_> {
    fn name(&self) -> &Name {
        &self.field.node.value.name
    }

    /// The field of the same name in the new schema.
    fn after<'n>(&self, new: &'n Schema) -> Option<&'n Component<FieldDefinition>> {
        field_named(new, self.ty, self.name())
    }
}

/// A document that selects the two fields on the type at this index, under one response key.
fn pair_document(
    ways: &Ways<'_>,
    place: usize,
    first: TypeField<'_>,
    second: TypeField<'_>,
) -> Result<Option<String>, ValidationError> {
    let mut text = String::new(ways.allocator());
    let alias = if first.name() == second.name() {
        ""
    } else {
        "k: "
    };
    // What needs no condition comes first.
    let (one, other) = if ways.name_at(place) == Some(second.ty) {
        (second, first)
    } else {
        (first, second)
    };
    let has_one = push_selection(&mut text, ways, place, one, alias)?;
    text.push(' ')?;
    let has_other = push_selection(&mut text, ways, place, other, alias)?;
    if has_one && has_other {
        document(ways, "", place, text.as_str())
    } else {
        Ok(None)
    }
}

/// Adds the field, under its type as a condition if that is another one than the type at this index.
fn push_selection(
    text: &mut String,
    ways: &Ways<'_>,
    place: usize,
    selected: TypeField<'_>,
    alias: &str,
) -> Result<bool, ValidationError> {
    if ways.name_at(place) == Some(selected.ty) {
        text.push_str(alias)?;
        return push_whole_field(text, ways, selected.field, None);
    }
    let ty = selected.ty;
    write!(text, "... on {ty} {{ {alias}")?;
    let is_whole = push_whole_field(text, ways, selected.field, None)?;
    text.push_str(" }")?;
    Ok(is_whole)
}

/// Adds documents in which fields of two objects come under one response key, which cannot if one of the two overlaps with the
/// other.
pub(crate) fn push_conflicts(
    candidates: &mut Candidates,
    ways: &Ways<'_>,
    new: &Schema,
    ty: &NamedType,
) -> Result<(), ValidationError> {
    let Some(index) = ways.index_of(ty) else {
        return Ok(());
    };
    if is_object(ways.schema, ty) {
        for place in ways.overlaps_at(index).iter().take(MOST_PLACES) {
            push_conflicts_at(candidates, ways, new, ty, *place)?;
        }
    }
    Ok(())
}

fn push_conflicts_at(
    candidates: &mut Candidates,
    ways: &Ways<'_>,
    new: &Schema,
    ty: &NamedType,
    place: usize,
) -> Result<(), ValidationError> {
    for other in ways.overlaps_at(place).iter().take(MOST_PLACES) {
        if let Some(name) = ways.name_at(*other) {
            if *name != *ty && is_object(ways.schema, name) {
                candidates.push(conflict_document(ways, new, place, ty, name)?)?;
            }
        }
    }
    Ok(())
}

/// A document with two fields of two objects under one response key, which have different names and types of one shape.
fn conflict_document(
    ways: &Ways<'_>,
    new: &Schema,
    place: usize,
    ty: &NamedType,
    other: &Name,
) -> Result<Option<String>, ValidationError> {
    match different_fields(ways.schema, new, ty, other) {
        Some((first, second)) => {
            let first = TypeField { ty, field: first };
            let second = TypeField {
                ty: other,
                field: second,
            };
            pair_document(ways, place, first, second)
        }
        None => Ok(None),
    }
}

/// Two fields of two types with different names whose types have one shape in both schemas: one of the first few of each.
fn different_fields<'a>(
    old: &'a Schema,
    new: &Schema,
    ty: &NamedType,
    other: &Name,
) -> Option<
    (
        &'a Component<FieldDefinition>,
        &'a Component<FieldDefinition>,
    ),
> {
    let firsts = fields_of(old.types.get(ty)?)?;
    let seconds = fields_of(old.types.get(other)?)?;
    for (_, first) in firsts.iter().take(MOST_PLACES) {
        if let Some(second) = partner(old, new, first, seconds) {
            return Some((first, second));
        }
    }
    None
}

/// The first field of another name with a type of one shape with that of the first.
fn partner<'a>(
    old: &Schema,
    new: &Schema,
    first: &Component<FieldDefinition>,
    seconds: &'a FieldMap,
) -> Option<&'a Component<FieldDefinition>> {
    let ty = &first.node.value.ty;
    for (name, second) in seconds.iter().take(MOST_PLACES) {
        let other = &second.node.value.ty;
        if *name != first.node.value.name
            && same_shape(old, ty, other)
            && same_shape(new, ty, other)
        {
            return Some(second);
        }
    }
    None
}
