//! Findings as workflow commands of GitHub Actions, a line a finding, which become annotations.

use crate::severities::Severity;
use gqlvalidate_inputs::printable::printable_character;
use gqlvalidate_levels::Levels;
use gqlvalidate_texts::named_texts::{Located, shown_name};
use gqlvalidate_texts::{
    Finding, FindingHelp, Note, ShownReport, Texts, UNREADABLE, UNREADABLE_RULE, operation_notes,
};
use std::alloc::{AllocError, Global};
use std::fmt;

/// What an annotation says, and of which part of a file.
#[derive(Clone, Copy)]
pub struct Annotation<'a> {
    /// `error`, `warning` or `notice`.
    pub command: &'static str,
    pub title: &'a str,
    pub message: &'a str,
    pub located: Option<Located<'a>>,
    /// The file of what has no place.
    pub path: Option<&'a str>,
}

/// The findings, in order: each with its notes and help, which are lines of its message.
pub fn annotations_of(
    alloc: Global,
    findings: &[Finding<'_>],
    levels: &Levels,
    texts: Texts<'_>,
) -> Result<String, AllocError> {
    let mut out = String::new(alloc);
    for finding in findings {
        let severity = Severity::of(levels, finding.report.rule);
        push_report(&mut out, &finding.report, severity, texts)?;
        push_notes(&mut out, &finding.notes, texts)?;
        push_notes(&mut out, &operation_notes(alloc, finding)?, texts)?;
        push_help(&mut out, alloc, finding.help.as_ref())?;
        out.push('\n')?;
    }
    Ok(out)
}

/// The files that could not be read.
pub fn annotations_of_unreadable(alloc: Global, unreadable: &[&str]) -> Result<String, AllocError> {
    let mut out = String::new(alloc);
    for path in unreadable {
        let path = Property(path);
        writeln!(
            &mut out,
            "::error file={path},title={UNREADABLE_RULE}::{UNREADABLE}"
        )?;
    }
    Ok(out)
}

/// Adds the line of a report, without its end.
fn push_report<'a>(
    out: &mut String,
    report: &'a ShownReport,
    severity: Severity,
    texts: Texts<'a>,
) -> Result<(), AllocError> {
    let annotation = Annotation {
        command: severity.name(),
        title: report.rule,
        message: report.message.as_str(),
        located: texts.locate(report.location),
        path: texts.path(),
    };
    push_annotation(out, annotation)
}

/// Adds the line of an annotation, without its end.
pub fn push_annotation(out: &mut String, annotation: Annotation<'_>) -> Result<(), AllocError> {
    let command = annotation.command;
    let title = Property(annotation.title);
    let message = Message(annotation.message);
    match annotation.located {
        Some(located) => {
            let path = Property(shown_name(located.path));
            let line = located.start.line;
            let column = located.start.column;
            let end_line = located.end.line;
            let end_column = located.end.column;
            write!(
                out,
                "::{command} file={path},line={line},endLine={end_line},col={column},endColumn={end_column},title={title}::{message}"
            )
        }
        None => {
            let path = Property(shown_name(annotation.path));
            write!(out, "::{command} file={path},title={title}::{message}")
        }
    }
}

/// Adds notes, each as a further line of the message.
fn push_notes(out: &mut String, notes: &[Note], texts: Texts<'_>) -> Result<(), AllocError> {
    for note in notes {
        if let Some(located) = texts.locate(Some(note.place)) {
            let path = Message(shown_name(located.path));
            let line = located.start.line;
            let column = located.start.column;
            let label = Message(note.message.as_str());
            write!(out, "%0A{path}:{line}:{column}: note: {label}")?;
        }
    }
    Ok(())
}

/// Adds what helps, if something does, as a further line of the message.
fn push_help(
    out: &mut String,
    alloc: Global,
    help: Option<&FindingHelp<'_>>,
) -> Result<(), AllocError> {
    let Some(help) = help else {
        return Ok(());
    };
    let words = help.to_string(alloc)?;
    let words = Message(words.as_str());
    write!(out, "%0Ahelp: {words}")
}

/// A value of a property, with escapes.
#[derive(Clone, Copy)]
struct Property<'a>(&'a str);

impl fmt::Display for Property<'_> {
    fn fmt<W: fmt::Write>(&self, f: &mut fmt::Formatter<W>) -> fmt::Result {
        for character in self.0.chars() {
            match character {
                ':' => f.write_str("%3A")?,
                ',' => f.write_str("%2C")?,
                _ => write_data(f, character)?,
            }
        }
        Ok(())
    }
}

/// A message, with escapes.
#[derive(Clone, Copy)]
struct Message<'a>(&'a str);

impl fmt::Display for Message<'_> {
    fn fmt<W: fmt::Write>(&self, f: &mut fmt::Formatter<W>) -> fmt::Result {
        for character in self.0.chars() {
            write_data(f, character)?;
        }
        Ok(())
    }
}

fn write_data<W: fmt::Write>(f: &mut fmt::Formatter<W>, character: char) -> fmt::Result {
    match character {
        '%' => f.write_str("%25"),
        '\r' => f.write_str("%0D"),
        '\n' => f.write_str("%0A"),
        _ => f.write_char(printable_character(character)),
    }
}
