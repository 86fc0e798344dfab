//! Findings for people: `path:line:column: error: message [Rule]`, or `warning:` in its place, and the line of source; then each note with its own, and what helps.

use crate::excerpts::{Line, shown_beginning, shown_end};
use crate::severities::Severity;
use crate::styles::Style;
use gqlvalidate_inputs::printable::Printable;
use gqlvalidate_levels::Levels;
use gqlvalidate_texts::named_texts::{Located, shown_name};
use gqlvalidate_texts::{Finding, FindingHelp, Note, ShownReport, Texts, operation_notes};
use std::alloc::{AllocError, Global};
use unicode_width::UnicodeWidthStr;

/// How many columns stand between the number of a line and the line.
const MARGIN: usize = 3;

/// As many characters of a line are shown at least, if it has them.
const LEAST_SHOWN: usize = 20;

/// The findings, in order.
pub fn text_of(
    alloc: Global,
    findings: &[Finding<'_>],
    levels: &Levels,
    texts: Texts<'_>,
    style: Style,
) -> Result<String, AllocError> {
    let mut out = String::new(alloc);
    for finding in findings {
        let severity = Severity::of(levels, finding.report.rule);
        push_report(&mut out, &finding.report, severity, texts, style, alloc)?;
        push_notes(&mut out, &finding.notes, texts, style, alloc)?;
        push_notes(
            &mut out,
            &operation_notes(alloc, finding)?,
            texts,
            style,
            alloc,
        )?;
        push_help(&mut out, finding.help.as_ref(), style, alloc)?;
    }
    Ok(out)
}

/// Adds the lines of a report.
fn push_report(
    out: &mut String,
    report: &ShownReport,
    severity: Severity,
    texts: Texts<'_>,
    style: Style,
    alloc: Global,
) -> Result<(), AllocError> {
    match texts.locate(report.location) {
        Some(located) => {
            push_place(out, located, style)?;
            push_message(out, report, severity, style)?;
            push_line(out, located, color_of(severity, style), style, alloc)
        }
        None => {
            let Style { strong, end, .. } = style;
            let path = Printable(shown_name(texts.path()));
            write!(out, "{strong}{path}:{end}")?;
            push_message(out, report, severity, style)
        }
    }
}

/// Adds the lines of the notes.
fn push_notes(
    out: &mut String,
    notes: &[Note],
    texts: Texts<'_>,
    style: Style,
    alloc: Global,
) -> Result<(), AllocError> {
    for note in notes {
        if let Some(located) = texts.locate(Some(note.place)) {
            push_place(out, located, style)?;
            push_label(out, note.message.as_str(), style)?;
            push_line(out, located, style.note, style, alloc)?;
        }
    }
    Ok(())
}

/// Adds the line of what helps, if something does.
fn push_help(
    out: &mut String,
    help: Option<&FindingHelp<'_>>,
    style: Style,
    alloc: Global,
) -> Result<(), AllocError> {
    let Some(help) = help else {
        return Ok(());
    };
    let words = help.to_string(alloc)?;
    let words = Printable(words.as_str());
    let Style {
        strong,
        margin,
        end,
        ..
    } = style;
    writeln!(out, "  {margin}={end} {strong}help:{end} {words}")
}

/// The colour of reports of this severity.
fn color_of(severity: Severity, style: Style) -> &'static str {
    match severity {
        Severity::Error => style.error,
        Severity::Warning => style.warning,
    }
}

/// Adds what is wrong, how grave it is, and which rule says so, after its place.
fn push_message(
    out: &mut String,
    report: &ShownReport,
    severity: Severity,
    style: Style,
) -> Result<(), AllocError> {
    let Style { strong, end, .. } = style;
    let color = color_of(severity, style);
    let name = severity.name();
    let message = Printable(report.message.as_str());
    let rule = report.rule;
    writeln!(out, " {color}{name}:{end} {strong}{message}{end} [{rule}]")
}

/// Adds what is at another place, behind that place.
fn push_label(out: &mut String, label: &str, style: Style) -> Result<(), AllocError> {
    let Style { note, end, .. } = style;
    let label = Printable(label);
    writeln!(out, " {note}note:{end} {label}")
}

fn push_place(out: &mut String, located: Located<'_>, style: Style) -> Result<(), AllocError> {
    let Style { strong, end, .. } = style;
    let path = Printable(shown_name(located.path));
    let line = located.start.line;
    let column = located.start.column;
    write!(out, "{strong}{path}:{line}:{column}:{end}")
}

/// Adds the line that a part of a text begins on, with what of the part is on it underlined in this colour.
fn push_line(
    out: &mut String,
    located: Located<'_>,
    color: &str,
    style: Style,
    alloc: Global,
) -> Result<(), AllocError> {
    let number = located.start.line.to_string(alloc)?;
    let line = shown_line(alloc, located, style.columns.saturating_sub(number.len()))?;
    let pushed = push_shown_line(out, &line, number.as_str(), color, style);
    drop(line);
    drop(number);
    pushed
}

/// Adds a line of this number, with its part underlined in this colour.
fn push_shown_line(
    out: &mut String,
    line: &ShownLine,
    number: &str,
    color: &str,
    style: Style,
) -> Result<(), AllocError> {
    let Style { margin, end, .. } = style;
    let ShownLine {
        before,
        marked,
        behind,
    } = line;
    push_repeated(out, ' ', number.len())?;
    writeln!(out, " {margin}|{end}")?;
    writeln!(out, "{margin}{number} |{end} {before}{marked}{behind}")?;
    push_repeated(out, ' ', number.len())?;
    write!(out, " {margin}|{end} ")?;
    push_repeated(out, ' ', before.as_str().width())?;
    out.push_str(color)?;
    push_repeated(out, '^', marked.as_str().width().max(1))?;
    writeln!(out, "{end}")
}

/// A line as it is shown, in three parts.
#[derive(Drop)]
struct ShownLine {
    before: String,
    marked: String,
    behind: String,
}

/// The line that a part of a text begins on, in so many columns with the margin: the part first has room, then what is before it.
fn shown_line(
    alloc: Global,
    located: Located<'_>,
    columns: usize,
) -> Result<ShownLine, AllocError> {
    let start = located.span.start as usize;
    let room = columns.saturating_sub(MARGIN).max(LEAST_SHOWN);
    let line = Line::of(located.text, start, located.span.end as usize, room);
    let marked = shown_beginning(alloc, line.marked, room)?;
    let room = room.saturating_sub(line.marked.chars().count());
    let before = shown_end(alloc, line.before, room)?;
    let room = room.saturating_sub(line.before.chars().count());
    let behind = shown_beginning(alloc, line.behind, room)?;
    Ok(ShownLine {
        before,
        marked,
        behind,
    })
}

fn push_repeated(out: &mut String, character: char, count: usize) -> Result<(), AllocError> {
    for _ in 0..count {
        out.push(character)?;
    }
    Ok(())
}
