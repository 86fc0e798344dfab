//! Notes at each place of a list.

ghost use Rattle.std.specs.Prelude.{◌≡◌, ◌∷◌, ◌++◌, [], IfOk, OnOk, codes, map};
ghost use Rattle.graphql_nodes.specs.Names.{NameText};
ghost use Rattle.graphql_notes.specs.Labels.{AreNotes, label, label_of, labels_beside};
ghost use Rattle.graphql_notes.specs.Notes.{defined, extended};

use crate::notes::{Note, add_note};
use graphql_nodes::{Name, SourceSpan};
use std::alloc::{AllocError, Global};

/// Of a type without members: its definition and its extensions.
pub(crate) fn notes_of_extended(
    alloc: Global,
    at: Option<SourceSpan>,
    name: &Name,
    place: Option<SourceSpan>,
    extensions: &[Option<SourceSpan>],
) -> Result<Vec<Note>, AllocError>
    ensures { IfOk result (λ notes. AreNotes at (extended name.now place extensions.now) notes.items) }
{
    let mut notes = Vec::new(alloc);
    let message = format!(in alloc; "`{name}` is defined here")?;
    add_note(&mut notes, at, place, message)?;
    add_extensions(&mut notes, alloc, at, extensions)?;
    Ok(notes)
}

fn add_extensions(
    notes: &mut Vec<Note>,
    alloc: Global,
    at: Option<SourceSpan>,
    extensions: &[Option<SourceSpan>],
) -> Result<(), AllocError>
    ensures { OnOk result (map label_of notes.new.items ≡ map label_of notes.old.items ++ labels_beside at (map (λ extension. label extension (codes "extended here")) extensions.now)) }
{
    for extension in extensions {
        add_extension(notes, alloc, at, *extension)?;
    }
    Ok(())
}

fn add_extension(
    notes: &mut Vec<Note>,
    alloc: Global,
    at: Option<SourceSpan>,
    extension: Option<SourceSpan>,
) -> Result<(), AllocError>
    ensures { OnOk result (map label_of notes.new.items ≡ map label_of notes.old.items ++ labels_beside at (label extension (codes "extended here") ∷ [])) }
{
    let message = String::from_str(alloc, "extended here")?;
    add_note(notes, at, extension, message)
}

/// Of a subscription with several root fields: each of them.
pub(crate) fn notes_of_fields(
    alloc: Global,
    at: Option<SourceSpan>,
    fields: &[Name],
) -> Result<Vec<Note>, AllocError>
    ensures { IfOk result (λ notes. AreNotes at (map (λ (field : NameText). label field.location (codes "a root field")) fields.now) notes.items) }
{
    let mut notes = Vec::new(alloc);
    for field in fields {
        add_field(&mut notes, alloc, at, field)?;
    }
    Ok(notes)
}

fn add_field(
    notes: &mut Vec<Note>,
    alloc: Global,
    at: Option<SourceSpan>,
    field: &Name,
) -> Result<(), AllocError>
    ensures { OnOk result (map label_of notes.new.items ≡ map label_of notes.old.items ++ labels_beside at (label field.now.location (codes "a root field") ∷ [])) }
{
    let place = field.location();
    let message = String::from_str(alloc, "a root field")?;
    add_note(notes, at, place, message)
}
