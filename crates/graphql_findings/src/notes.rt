//! The notes of single reports.

ghost use Rattle.std.specs.Prelude.{IfOk};
ghost use Rattle.graphql_findings.specs.Notes.{AreNotesOf, HasBracketNote, repetition_labels, usage_labels};
ghost use Rattle.graphql_findings.specs.Singles.{report_of};
ghost use Rattle.graphql_notes.specs.Labels.{AreNotes};

use crate::singles::Single;
use graphql_input_rules::InputFieldRepetition;
use graphql_nodes::SourceSpan;
use graphql_notes::{Note, note_beside, notes_of_building, notes_of_details};
use graphql_parser::Bounds;
use graphql_shown_reports::frontend::texts::{SourceText, SyntaxReport};
use graphql_shown_reports::text_of;
use graphql_syntax_helps::unclosed_place;
use graphql_usage_rules::VariableMisuse;
use std::alloc::{AllocError, Global};

/// The notes of a report at this place: of each other place, what is there. The only error is a failed allocation.
pub fn notes_of(
    alloc: Global,
    sources: &[SourceText<'_>],
    bounds: Bounds,
    at: Option<SourceSpan>,
    single: Single<'_>,
) -> Result<Vec<Note>, AllocError>
    ensures { IfOk result (λ notes. AreNotesOf sources.now bounds at (report_of single.entry) notes.items) }
{
    match single {
        Single::Syntax(report) => notes_of_error(alloc, sources, bounds, at, report),
        Single::Building(report) => notes_of_building(alloc, at, &report.rule),
        Single::Validation(entry) => notes_of_details(alloc, at, &entry.details),
        Single::InputField(repetition) => notes_of_repetition(alloc, at, repetition),
        Single::Usage(misuse) => notes_of_misuse(alloc, at, misuse),
        _ => Ok(Vec::new(alloc)),
    }
}

/// Where the innermost bracket is that is not closed before a syntax error.
fn notes_of_error(
    alloc: Global,
    sources: &[SourceText<'_>],
    bounds: Bounds,
    at: Option<SourceSpan>,
    report: &SyntaxReport,
) -> Result<Vec<Note>, AllocError>
    ensures { IfOk result (λ notes. HasBracketNote sources.now bounds at report.now notes.items) }
{
    let text = text_of(sources, report.file_id);
    let place = unclosed_place(alloc, report.file_id, text, report.error, bounds)?;
    let message = String::from_str(alloc, "this bracket is not closed")?;
    note_beside(alloc, at, place, message)
}

/// Where an input field is first given.
fn notes_of_repetition(
    alloc: Global,
    at: Option<SourceSpan>,
    repetition: &InputFieldRepetition,
) -> Result<Vec<Note>, AllocError>
    ensures { IfOk result (λ notes. AreNotes at (repetition_labels repetition.now) notes.items) }
{
    let message = String::from_str(alloc, "first here")?;
    note_beside(alloc, at, repetition.original, message)
}

/// Where a variable is defined, with its type.
fn notes_of_misuse(
    alloc: Global,
    at: Option<SourceSpan>,
    misuse: &VariableMisuse,
) -> Result<Vec<Note>, AllocError>
    ensures { IfOk result (λ notes. AreNotes at (usage_labels misuse.now) notes.items) }
{
    let name = &misuse.name;
    let of = &misuse.variable_type.value;
    let message = format!(in alloc; "`${name}` of type `{of}` is defined here")?;
    note_beside(alloc, at, misuse.definition_location, message)
}
