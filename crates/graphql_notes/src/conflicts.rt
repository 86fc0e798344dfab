//! Notes on what breaks a rule of subscriptions, of `@defer` or of merging fields.

ghost use Rattle.std.specs.Prelude.{◌≡◌, IfOk, string_bytes};
ghost use Rattle.graphql_notes.specs.Labels.{AreNotes, label};
ghost use Rattle.graphql_notes.specs.Notes.{build_error_labels, side};

use crate::lists::notes_of_fields;
use crate::notes::{Note, no_notes, note_beside, two_notes_beside};
use graphql_coordinates::FieldArgumentCoordinate;
use graphql_diagnostics::BuildError;
use graphql_documents::documents::values::Value;
use graphql_nodes::{Node, SourceSpan};
use std::alloc::{AllocError, Global};

/// The notes of a report at this place.
pub(crate) fn notes_of_build_error(
    alloc: Global,
    at: Option<SourceSpan>,
    error: &BuildError,
) -> Result<Vec<Note>, AllocError>
    ensures { IfOk result (λ notes. AreNotes at (build_error_labels error.now) notes.items) }
{
    match error {
        BuildError::SubscriptionUsesMultipleFields { fields, .. } => {
            notes_of_fields(alloc, at, fields)
        }
        BuildError::DuplicateDeferLabel {
            original_location,
            ..
        } => note_beside(
            alloc,
            at,
            *original_location,
            String::from_str(alloc, "first here")?,
        ),
        BuildError::ConflictingFieldName {
            alias,
            original_location,
            original_selection,
            ..
        } => {
            let message = format!(in alloc; "`{alias}` is `{original_selection}` here")?;
            note_beside(alloc, at, *original_location, message)
        }
        BuildError::ConflictingFieldArgument {
            original_location,
            original_coordinate,
            original_value,
            conflicting_location,
            conflicting_coordinate,
            conflicting_value,
            ..
        } => {
            let first = side(
                alloc,
                original_coordinate,
                original_value,
                *original_location,
            )?;
            let second = side(
                alloc,
                conflicting_coordinate,
                conflicting_value,
                *conflicting_location,
            )?;
            two_notes_beside(alloc, at, first, second)
        }
        BuildError::ConflictingFieldType {
            alias,
            original_location,
            original_coordinate,
            original_type,
            ..
        } => {
            let message = format!(in alloc;
                "`{alias}` is `{original_coordinate}` of type `{original_type}` here"
            )?;
            note_beside(alloc, at, *original_location, message)
        }
        _ => Ok(no_notes(alloc)),
    }
}

/// An argument of one of two fields that conflict: its value, if the field has one.
fn side(
    alloc: Global,
    coordinate: &FieldArgumentCoordinate,
    value: &Option<Node<Value>>,
    field: Option<SourceSpan>,
) -> Result<(Option<SourceSpan>, String), AllocError>
    ensures { IfOk result (λ s. label s.0 (string_bytes s.1) ≡ side coordinate.now value.now field) }
{
    match value {
        Some(value) => {
            let kind = value.value.describe();
            Ok((
                value.location,
                format!(in alloc; "`{coordinate}` is {kind} here")?,
            ))
        }
        None => Ok((
            field,
            format!(in alloc; "`{coordinate}` is not given here")?,
        )),
    }
}
