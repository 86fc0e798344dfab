//! Findings as one JSON object, version 1: `docs/report.schema.json` describes it.

use crate::severities::Severity;
use gqlvalidate_levels::Levels;
use gqlvalidate_texts::named_texts::{Located, shown_name};
use gqlvalidate_texts::{Finding, FindingHelp, Note, OperationMark, Run, Texts, file_of, place_of};
use graphql_places::Place;
use json::Writer;
use std::alloc::{AllocError, Global};

/// The version of the form.
const VERSION: u64 = 1;

/// Begins the object, up to its first finding.
pub fn begin(json: &mut Writer) -> Result<(), AllocError> {
    json.begin_object()?;
    json.key("version")?;
    json.u64(VERSION)?;
    json.key("findings")?;
    json.begin_array()
}

/// Adds findings, in order.
pub fn add_findings(
    json: &mut Writer,
    alloc: Global,
    findings: &[Finding<'_>],
    levels: &Levels,
    texts: Texts<'_>,
) -> Result<(), AllocError> {
    for finding in findings {
        let severity = Severity::of(levels, finding.report.rule);
        add_finding(json, alloc, finding, severity, texts)?;
    }
    Ok(())
}

/// Ends the object, with what the run was.
pub fn end(json: &mut Writer, run: Run<'_>) -> Result<(), AllocError> {
    json.end_array()?;
    add_number(json, "notShown", run.not_shown)?;
    if run.ignored > 0 {
        add_number(json, "ignored", run.ignored)?;
    }
    json.key("checked")?;
    json.begin_object()?;
    add_number(json, "schemaFiles", run.schema_files)?;
    add_number(json, "documents", run.documents)?;
    add_number(json, "emptyFiles", run.empty)?;
    json.end_object()?;
    json.key("unreadable")?;
    json.begin_array()?;
    add_paths(json, run.unreadable)?;
    json.end_array()?;
    json.end_object()
}

fn add_paths(json: &mut Writer, paths: &[&str]) -> Result<(), AllocError> {
    for path in paths {
        json.string(path)?;
    }
    Ok(())
}

fn add_finding(
    json: &mut Writer,
    alloc: Global,
    finding: &Finding<'_>,
    severity: Severity,
    texts: Texts<'_>,
) -> Result<(), AllocError> {
    let report = &finding.report;
    let located = texts.locate(report.location);
    json.begin_object()?;
    add_text(json, "file", file_of(finding, texts))?;
    add_text(json, "rule", report.rule)?;
    add_text(json, "severity", severity.name())?;
    add_text(json, "message", report.message.as_str())?;
    if let Some(located) = located {
        add_span(json, located)?;
    }
    json.key("related")?;
    json.begin_array()?;
    add_notes(json, &finding.notes, texts)?;
    json.end_array()?;
    json.key("operations")?;
    json.begin_array()?;
    add_operations(json, &finding.operations, texts)?;
    json.end_array()?;
    json.key("help")?;
    json.begin_array()?;
    add_help(json, alloc, finding.help.as_ref())?;
    json.end_array()?;
    json.end_object()
}

fn add_help(
    json: &mut Writer,
    alloc: Global,
    help: Option<&FindingHelp<'_>>,
) -> Result<(), AllocError> {
    match help {
        Some(help) => json.string(help.to_string(alloc)?.as_str()),
        None => Ok(()),
    }
}

fn add_notes(json: &mut Writer, notes: &[Note], texts: Texts<'_>) -> Result<(), AllocError> {
    for note in notes {
        if let Some(located) = texts.locate(Some(note.place)) {
            json.begin_object()?;
            add_text(json, "file", shown_name(located.path))?;
            add_text(json, "message", note.message.as_str())?;
            add_span(json, located)?;
            json.end_object()?;
        }
    }
    Ok(())
}

/// Adds the operations on which a finding depends.
fn add_operations(
    json: &mut Writer,
    operations: &[&OperationMark],
    texts: Texts<'_>,
) -> Result<(), AllocError> {
    for operation in operations {
        if let Some(located) = texts.locate(place_of(operation)) {
            json.begin_object()?;
            if let Some(name) = &operation.name {
                add_text(json, "name", name.as_str())?;
            }
            add_text(json, "file", shown_name(located.path))?;
            add_span(json, located)?;
            json.end_object()?;
        }
    }
    Ok(())
}

/// Adds the part of the file.
fn add_span(json: &mut Writer, located: Located<'_>) -> Result<(), AllocError> {
    json.key("span")?;
    json.begin_object()?;
    json.key("start")?;
    add_end(json, located.start, located.span.start)?;
    json.key("end")?;
    add_end(json, located.end, located.span.end)?;
    json.end_object()
}

fn add_text(json: &mut Writer, name: &str, text: &str) -> Result<(), AllocError> {
    json.key(name)?;
    json.string(text)
}

/// Adds one end of a part: its line, its column, and its byte.
fn add_end(json: &mut Writer, place: Place, byte: u32) -> Result<(), AllocError> {
    json.begin_object()?;
    add_number(json, "line", place.line)?;
    add_number(json, "column", place.column)?;
    add_number(json, "byte", byte as usize)?;
    json.end_object()
}

fn add_number(json: &mut Writer, name: &str, number: usize) -> Result<(), AllocError> {
    json.key(name)?;
    json.u64(number as u64)
}
