//! Findings as one JSON object, in the form of the errors of a GraphQL response.
//!
//! Specification: 7.1.2 Errors.

ghost use Rattle.std.specs.Prelude.{◌≡◌, string_bytes};
ghost use Rattle.std.specs.List.{list_any};
ghost use Rattle.std.specs.Option.{option_copied, option_map};
ghost use Rattle.graphql_report_formats.specs.JsonReports.{Appends, error, error_begin, error_end, error_without_place, errors, errors_begin, file, file_of, help_member, is_located, location, locations, note_array, note_at, notes_of, number_member, object_begin, object_end, related, span, text_member};
ghost use Rattle.graphql_report_formats.specs.NamedTexts.{all_texts, part, part_at, path_of};

use crate::named_texts::{Located, Texts};
use graphql_findings::{Finding, FindingHelp, ShownReport};
use graphql_notes::Note;
use graphql_places::Place;
use json::Writer;
use std::alloc::{AllocError, Global};

/// Begins a JSON object, and the list that is its member `errors`.
pub fn begin(json: &mut Writer) -> Result<(), AllocError>
    ensures { Appends result json.old json.new object_begin }
{
    json.begin_object()?;
    begin_errors(json)
}

/// Begins the errors, in an object that was begun.
pub fn begin_errors(json: &mut Writer) -> Result<(), AllocError>
    ensures { Appends result json.old json.new errors_begin }
{
    json.key("errors")?;
    json.begin_array()
}

/// Ends the list of errors, and the JSON object.
pub fn end(json: &mut Writer) -> Result<(), AllocError>
    ensures { Appends result json.old json.new object_end }
{
    json.end_array()?;
    json.end_object()
}

/// Adds findings, in order.
pub fn add_findings(
    json: &mut Writer,
    alloc: Global,
    findings: &[Finding<'_>],
    texts: Texts<'_>,
) -> Result<(), AllocError>
    ensures { Appends result json.old json.new (errors (all_texts texts.entry) (path_of texts.entry.subject.now.path) findings.now) }
{
    for finding in findings {
        add_finding(json, alloc, finding, texts)?;
    }
    Ok(())
}

fn add_finding(
    json: &mut Writer,
    alloc: Global,
    finding: &Finding<'_>,
    texts: Texts<'_>,
) -> Result<(), AllocError>
    ensures { Appends result json.old json.new (error (all_texts texts.entry) (path_of texts.entry.subject.now.path) finding.now) }
{
    begin_finding(json, &finding.report, texts)?;
    add_related(json, &finding.notes, texts)?;
    add_help(json, alloc, finding.help.as_ref())?;
    end_error(json)
}

/// Begins the error of a report, up to its notes.
fn begin_finding(
    json: &mut Writer,
    report: &ShownReport,
    texts: Texts<'_>,
) -> Result<(), AllocError>
    ensures { Appends result json.old json.new (error_begin report.now.rule.now (string_bytes report.now.message) (part_at (all_texts texts.entry) report.now.location) (path_of texts.entry.subject.now.path)) }
{
    let located = texts.locate(report.location);
    begin_error(
        json,
        report.rule,
        report.message.as_str(),
        located,
        texts.path(),
    )
}

/// Adds an error that has no place, of this file.
pub fn add_error(
    json: &mut Writer,
    rule: &str,
    message: &str,
    path: Option<&str>,
) -> Result<(), AllocError>
    ensures { Appends result json.old json.new (error_without_place rule.now message.now (path_of path.entry)) }
{
    begin_error(json, rule, message, None, path)?;
    end_error(json)
}

/// Begins an error, up to its notes.
fn begin_error(
    json: &mut Writer,
    rule: &str,
    message: &str,
    located: Option<Located<'_>>,
    path: Option<&str>,
) -> Result<(), AllocError>
    ensures { Appends result json.old json.new (error_begin rule.now message.now (option_map part located.entry) (path_of path.entry)) }
{
    json.begin_object()?;
    add_text(json, "message", message)?;
    add_locations(json, located)?;
    json.key("extensions")?;
    json.begin_object()?;
    add_file_of(json, located, path)?;
    add_text(json, "rule", rule)?;
    add_span(json, located)
}

fn end_error(json: &mut Writer) -> Result<(), AllocError>
    ensures { Appends result json.old json.new error_end }
{
    json.end_object()?;
    json.end_object()
}

/// Adds where the report is, if it has a place.
fn add_locations(json: &mut Writer, located: Option<Located<'_>>) -> Result<(), AllocError>
    ensures { Appends result json.old json.new (locations (option_map part located.entry)) }
{
    let Some(located) = located else {
        return Ok(());
    };
    json.key("locations")?;
    json.begin_array()?;
    json.begin_object()?;
    add_place(json, located.start)?;
    json.end_object()?;
    json.end_array()
}

/// Adds a line and a column.
fn add_place(json: &mut Writer, place: Place) -> Result<(), AllocError>
    ensures { Appends result json.old json.new (location place) }
{
    add_number(json, "line", place.line)?;
    add_number(json, "column", place.column)
}

/// Adds the file of the report; of one without a place, this one.
fn add_file_of(
    json: &mut Writer,
    located: Option<Located<'_>>,
    path: Option<&str>,
) -> Result<(), AllocError>
    ensures { Appends result json.old json.new (file_of (option_map part located.entry) (path_of path.entry)) }
{
    match located {
        Some(located) => add_file(json, located.path),
        None => add_file(json, path),
    }
}

/// Adds the path of the file, if there is one.
fn add_file(json: &mut Writer, path: Option<&str>) -> Result<(), AllocError>
    ensures { Appends result json.old json.new (file (path_of path.entry)) }
{
    let Some(path) = path else {
        return Ok(());
    };
    add_text(json, "file", path)
}

/// Adds the bytes of the report, if it has a place.
fn add_span(json: &mut Writer, located: Option<Located<'_>>) -> Result<(), AllocError>
    ensures { Appends result json.old json.new (span (option_map part located.entry)) }
{
    let Some(located) = located else {
        return Ok(());
    };
    json.key("span")?;
    json.begin_object()?;
    add_number(json, "start", located.span.start as usize)?;
    add_number(json, "end", located.span.end as usize)?;
    json.end_object()
}

/// Adds the notes at places in these texts, if there are any.
fn add_related(json: &mut Writer, notes: &[Note], texts: Texts<'_>) -> Result<(), AllocError>
    ensures { Appends result json.old json.new (related (all_texts texts.entry) notes.now) }
{
    if is_any_located(notes, texts) {
        add_note_array(json, notes, texts)
    } else {
        Ok(())
    }
}

fn add_note_array(json: &mut Writer, notes: &[Note], texts: Texts<'_>) -> Result<(), AllocError>
    ensures { Appends result json.old json.new (note_array (all_texts texts.entry) notes.now) }
{
    json.key("related")?;
    json.begin_array()?;
    add_notes(json, notes, texts)?;
    json.end_array()
}

/// Whether one of these notes is at a place in these texts.
fn is_any_located(notes: &[Note], texts: Texts<'_>) -> bool
    ensures { result ≡ list_any (is_located (all_texts texts.entry)) notes.now }
{
    for note in notes {
        if is_located(note, texts) {
            return true;
        }
    }
    false
}

/// Whether this note is at a place in these texts.
fn is_located(note: &Note, texts: Texts<'_>) -> bool
    ensures { result ≡ is_located (all_texts texts.entry) note.now }
{
    texts.locate(Some(note.place)).is_some()
}

/// Adds the notes at places in these texts, in order.
fn add_notes(json: &mut Writer, notes: &[Note], texts: Texts<'_>) -> Result<(), AllocError>
    ensures { Appends result json.old json.new (notes_of (all_texts texts.entry) notes.now) }
{
    for note in notes {
        add_note(json, note, texts.locate(Some(note.place)))?;
    }
    Ok(())
}

/// Adds the note, if its place is in these texts.
fn add_note(json: &mut Writer, note: &Note, located: Option<Located<'_>>) -> Result<(), AllocError>
    ensures { Appends result json.old json.new (note_at note.now (option_map part located.entry)) }
{
    let Some(at) = located else {
        return Ok(());
    };
    json.begin_object()?;
    add_text(json, "message", note.message.as_str())?;
    add_file(json, at.path)?;
    add_place(json, at.start)?;
    add_span(json, Some(at))?;
    json.end_object()
}

/// Adds what helps, if something does.
fn add_help(
    json: &mut Writer,
    alloc: Global,
    help: Option<&FindingHelp<'_>>,
) -> Result<(), AllocError>
    ensures { Appends result json.old json.new (help_member (option_copied help.entry)) }
{
    let Some(help) = help else {
        return Ok(());
    };
    let words = help.to_string(alloc)?;
    json.key("help")?;
    json.begin_array()?;
    json.string(words.as_str())?;
    json.end_array()
}

fn add_text(json: &mut Writer, name: &str, text: &str) -> Result<(), AllocError>
    ensures { Appends result json.old json.new (text_member name.now text.now) }
{
    json.key(name)?;
    json.string(text)
}

fn add_number(json: &mut Writer, name: &str, number: usize) -> Result<(), AllocError>
    ensures { Appends result json.old json.new (number_member name.now number) }
{
    json.key(name)?;
    json.u64(number as u64)
}
