//! Notes: words on another place of a report.

ghost use Rattle.std.specs.Prelude.{◌≡◌, ◌++◌, [], ◌∷◌, IfOk, OnOk, map, string_bytes};
ghost use Rattle.graphql_notes.specs.Labels.{AreNotes, is_elsewhere, is_same_part, label, label_of, labels_beside};

use graphql_nodes::SourceSpan;
use std::alloc::{AllocError, Global};

/// Another place of a report, and what is there.
#[derive(Debug, Drop)]
pub struct Note {
    pub place: SourceSpan,
    pub message: String,
}

/// The note with this message at this place, unless no text says where that is, or it is the report's own place, `at`.
pub fn note_beside(
    alloc: Global,
    at: Option<SourceSpan>,
    place: Option<SourceSpan>,
    message: String,
) -> Result<Vec<Note>, AllocError>
    ensures { IfOk result (λ notes. AreNotes at (label place (string_bytes message) ∷ []) notes.items) }
{
    let mut notes = Vec::new(alloc);
    add_note(&mut notes, at, place, message)?;
    Ok(notes)
}

/// The first and the second note, each with its message at its place, as `note_beside` gives one.
pub(crate) fn two_notes_beside(
    alloc: Global,
    at: Option<SourceSpan>,
    first: (Option<SourceSpan>, String),
    second: (Option<SourceSpan>, String),
) -> Result<Vec<Note>, AllocError>
    ensures { IfOk result (λ notes. AreNotes at (label first.0 (string_bytes first.1) ∷ label second.0 (string_bytes second.1) ∷ []) notes.items) }
{
    let mut notes = Vec::new(alloc);
    add_note(&mut notes, at, first.0, first.1)?;
    add_note(&mut notes, at, second.0, second.1)?;
    Ok(notes)
}

/// No notes.
pub(crate) fn no_notes(alloc: Global) -> Vec<Note>
    ensures { result.items ≡ [] }
{
    Vec::new(alloc)
}

/// Adds the note, unless no text says where its place is, or it is the report's own place.
pub(crate) fn add_note(
    notes: &mut Vec<Note>,
    at: Option<SourceSpan>,
    place: Option<SourceSpan>,
    message: String,
) -> Result<(), AllocError>
    ensures { OnOk result (map label_of notes.new.items ≡ map label_of notes.old.items ++ labels_beside at (label place (string_bytes message) ∷ [])) }
{
    match place {
        Some(place) if is_other(at, place) => push_note(notes, place, message),
        _ => Ok(()),
    }
}

fn push_note(notes: &mut Vec<Note>, place: SourceSpan, message: String) -> Result<(), AllocError>
    ensures { OnOk result (map label_of notes.new.items ≡ map label_of notes.old.items ++ label (Some place) (string_bytes message) ∷ []) }
{
    notes.push(Note { place, message })?;
    Ok(())
}

/// Whether this is another place than the report's own.
fn is_other(at: Option<SourceSpan>, place: SourceSpan) -> bool
    ensures { result ≡ is_elsewhere at (Some place) }
{
    match at {
        Some(at) => !is_same_part(at, place),
        None => true,
    }
}

fn is_same_part(a: SourceSpan, b: SourceSpan) -> bool
    ensures { result ≡ is_same_part a b }
{
    a.file_id.0 == b.file_id.0 && a.start == b.start && a.end == b.end
}
