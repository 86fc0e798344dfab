//! Notes on rules that keep a schema or a document from being built.

ghost use Rattle.std.specs.Prelude.{IfOk};
ghost use Rattle.graphql_notes.specs.Labels.{AreNotes};
ghost use Rattle.graphql_notes.specs.Notes.{building_labels};

use crate::notes::{Note, no_notes, note_beside};
use graphql_building_reports::BuildingRule;
use graphql_nodes::SourceSpan;
use std::alloc::{AllocError, Global};

/// The notes of a report at this place: where the first of a repetition is, or the definition of the type.
pub fn notes_of_building(
    alloc: Global,
    at: Option<SourceSpan>,
    rule: &BuildingRule,
) -> Result<Vec<Note>, AllocError>
    ensures { IfOk result (λ notes. AreNotes at (building_labels rule.now) notes.items) }
{
    match rule {
        BuildingRule::OperationNameCollision { original, .. }
        | BuildingRule::FragmentNameCollision { original, .. }
        | BuildingRule::SchemaDefinitionCollision { original }
        | BuildingRule::DuplicateRootOperation { original, .. }
        | BuildingRule::TypeDefinitionCollision { original, .. }
        | BuildingRule::DirectiveDefinitionCollision { original, .. }
        | BuildingRule::MemberNameCollision { original, .. }
        | BuildingRule::DuplicateImplementsInterface { original, .. } => {
            note_beside(alloc, at, *original, String::from_str(alloc, "first here")?)
        }
        BuildingRule::TypeExtensionKindMismatch {
            definition,
            original,
            ..
        }
        | BuildingRule::ImplementedNonInterface {
            definition,
            original,
            ..
        } => {
            let kind = definition.with_article();
            let message = format!(in alloc; "defined as {kind} here")?;
            note_beside(alloc, at, *original, message)
        }
        _ => Ok(no_notes(alloc)),
    }
}
