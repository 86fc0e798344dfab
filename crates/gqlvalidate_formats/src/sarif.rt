//! Findings in the Static Analysis Results Interchange Format, version 2.1.0.

use crate::helped::Helped;
use crate::severities::Severity;
use gqlvalidate_levels::Levels;
use gqlvalidate_texts::named_texts::{Located, shown_name};
use gqlvalidate_texts::{Finding, Note, Run, Texts, UNREADABLE, operation_notes};
use graphql_places::Place;
use json::Writer;
use std::alloc::{AllocError, Global};
use std::fmt;

const SCHEMA: &str = "https://json.schemastore.org/sarif-2.1.0.json";

/// Begins the log, up to its first result. Columns count characters.
pub fn begin(json: &mut Writer) -> Result<(), AllocError> {
    json.begin_object()?;
    add_text(json, "$schema", SCHEMA)?;
    add_text(json, "version", "2.1.0")?;
    json.key("runs")?;
    json.begin_array()?;
    json.begin_object()?;
    json.key("tool")?;
    json.begin_object()?;
    json.key("driver")?;
    json.begin_object()?;
    add_text(json, "name", "gqlvalidate")?;
    add_text(json, "version", "0.1.0")?;
    json.end_object()?;
    json.end_object()?;
    add_text(json, "columnKind", "unicodeCodePoints")?;
    json.key("results")?;
    json.begin_array()
}

/// Adds findings as results, in order.
pub fn add_findings(
    json: &mut Writer,
    alloc: Global,
    findings: &[Finding<'_>],
    levels: &Levels,
    texts: Texts<'_>,
) -> Result<(), AllocError> {
    for finding in findings {
        let severity = Severity::of(levels, finding.report.rule);
        add_finding(json, alloc, finding, severity, texts)?;
    }
    Ok(())
}

/// Ends the log. Files that could not be read are notifications of the invocation.
pub fn end(json: &mut Writer, alloc: Global, run: Run<'_>) -> Result<(), AllocError> {
    json.end_array()?;
    json.key("invocations")?;
    json.begin_array()?;
    json.begin_object()?;
    json.key("executionSuccessful")?;
    json.boolean(run.unreadable.is_empty())?;
    json.key("toolExecutionNotifications")?;
    json.begin_array()?;
    add_unreadable(json, alloc, run.unreadable)?;
    json.end_array()?;
    json.end_object()?;
    json.end_array()?;
    json.end_object()?;
    json.end_array()?;
    json.end_object()
}

fn add_unreadable(json: &mut Writer, alloc: Global, unreadable: &[&str]) -> Result<(), AllocError> {
    for path in unreadable {
        json.begin_object()?;
        add_text(json, "level", "error")?;
        add_message(json, UNREADABLE)?;
        json.key("locations")?;
        json.begin_array()?;
        json.begin_object()?;
        json.key("physicalLocation")?;
        json.begin_object()?;
        add_file(json, alloc, path)?;
        json.end_object()?;
        json.end_object()?;
        json.end_array()?;
        json.end_object()?;
    }
    Ok(())
}

fn add_finding(
    json: &mut Writer,
    alloc: Global,
    finding: &Finding<'_>,
    severity: Severity,
    texts: Texts<'_>,
) -> Result<(), AllocError> {
    let report = &finding.report;
    json.begin_object()?;
    add_text(json, "ruleId", report.rule)?;
    add_text(json, "level", severity.name())?;
    let message = Helped(finding).to_string(alloc)?;
    add_message(json, message.as_str())?;
    json.key("locations")?;
    json.begin_array()?;
    json.begin_object()?;
    match texts.locate(report.location) {
        Some(located) => add_place(json, alloc, located)?,
        None => add_whole_file(json, alloc, shown_name(texts.path()))?,
    }
    json.end_object()?;
    json.end_array()?;
    json.key("relatedLocations")?;
    json.begin_array()?;
    add_notes(json, alloc, &finding.notes, texts)?;
    add_notes(json, alloc, &operation_notes(alloc, finding)?, texts)?;
    json.end_array()?;
    json.end_object()
}

fn add_notes(
    json: &mut Writer,
    alloc: Global,
    notes: &[Note],
    texts: Texts<'_>,
) -> Result<(), AllocError> {
    for note in notes {
        if let Some(located) = texts.locate(Some(note.place)) {
            json.begin_object()?;
            add_place(json, alloc, located)?;
            add_message(json, note.message.as_str())?;
            json.end_object()?;
        }
    }
    Ok(())
}

/// Adds a part of a file.
fn add_place(json: &mut Writer, alloc: Global, located: Located<'_>) -> Result<(), AllocError> {
    json.key("physicalLocation")?;
    json.begin_object()?;
    add_file(json, alloc, shown_name(located.path))?;
    json.key("region")?;
    json.begin_object()?;
    add_end(json, "startLine", "startColumn", located.start)?;
    add_end(json, "endLine", "endColumn", located.end)?;
    json.end_object()?;
    json.end_object()
}

/// Adds a file, without a part of it.
fn add_whole_file(json: &mut Writer, alloc: Global, path: &str) -> Result<(), AllocError> {
    json.key("physicalLocation")?;
    json.begin_object()?;
    add_file(json, alloc, path)?;
    json.end_object()
}

/// Adds which file it is.
fn add_file(json: &mut Writer, alloc: Global, path: &str) -> Result<(), AllocError> {
    json.key("artifactLocation")?;
    json.begin_object()?;
    let uri = Reference(path).to_string(alloc)?;
    add_text(json, "uri", uri.as_str())?;
    json.end_object()
}

fn add_end(json: &mut Writer, line: &str, column: &str, place: Place) -> Result<(), AllocError> {
    json.key(line)?;
    json.u64(place.line as u64)?;
    json.key(column)?;
    json.u64(place.column as u64)
}

fn add_message(json: &mut Writer, message: &str) -> Result<(), AllocError> {
    json.key("message")?;
    json.begin_object()?;
    add_text(json, "text", message)?;
    json.end_object()
}

fn add_text(json: &mut Writer, name: &str, text: &str) -> Result<(), AllocError> {
    json.key(name)?;
    json.string(text)
}

/// A path as a reference of a URI: each byte that may not be in a path there is escaped.
#[derive(Clone, Copy)]
struct Reference<'a>(&'a str);

impl fmt::Display for Reference<'_> {
    fn fmt<W: fmt::Write>(&self, f: &mut fmt::Formatter<W>) -> fmt::Result {
        for byte in self.0.as_bytes() {
            write_byte(f, *byte)?;
        }
        Ok(())
    }
}

fn write_byte<W: fmt::Write>(f: &mut fmt::Formatter<W>, byte: u8) -> fmt::Result {
    match byte {
        b'a'..=b'z' | b'A'..=b'Z' | b'0'..=b'9' | b'-' | b'.' | b'_' | b'~' | b'/' => {
            f.write_char(char::from(byte))
        }
        _ => write!(f, "%{byte:02X}"),
    }
}
