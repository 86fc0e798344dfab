//! Changes for people: `path:line:column: breaking: message [Change]`, the place before, and a document that shows it.

use crate::shown_changes::{ChangeTally, ComparedTexts, ShownChange};
use crate::verdicts::ChangeVerdict;
use graphql_report_formats::named_texts::{Located, shown_name};
use std::alloc::AllocError;

/// Adds the lines of the changes that are listed, in order.
pub fn push_changes(
    out: &mut String,
    changes: &[ShownChange<'_>],
    texts: &ComparedTexts<'_>,
) -> Result<(), AllocError> {
    for shown in changes {
        if shown.is_listed() {
            push_change(out, shown, texts)?;
        }
    }
    Ok(())
}

fn push_change(
    out: &mut String,
    shown: &ShownChange<'_>,
    texts: &ComparedTexts<'_>,
) -> Result<(), AllocError> {
    if let Some(located) = texts.place_of(shown.change) {
        push_place(out, located)?;
    }
    push_message(out, shown)?;
    if let Some(located) = texts.earlier_place_of(shown.change) {
        push_place(out, located)?;
        out.push_str("note: before\n")?;
    }
    push_witness(out, shown)
}

fn push_place(out: &mut String, located: Located<'_>) -> Result<(), AllocError> {
    let path = shown_name(located.path);
    let line = located.start.line;
    let column = located.start.column;
    write!(out, "{path}:{line}:{column}: ")
}

/// Adds what changes, with the name of the change. That documents break is not said again.
fn push_message(out: &mut String, shown: &ShownChange<'_>) -> Result<(), AllocError> {
    let level = shown.level_name();
    let message = &shown.change.change;
    let name = shown.change.change.name();
    match shown.reason_name() {
        Some(reason) if reason != "documents" => {
            writeln!(out, "{level}: {message} [{name}, {reason}]")
        }
        _ => writeln!(out, "{level}: {message} [{name}]"),
    }
}

fn push_witness(out: &mut String, shown: &ShownChange<'_>) -> Result<(), AllocError> {
    match &shown.witness {
        Some(text) => {
            let text = text.as_str();
            writeln!(out, "  valid before and not after: {text}")
        }
        None => Ok(()),
    }
}

/// Adds the last line: how many changes there are of each level, and what that means for documents.
pub fn push_summary(
    out: &mut String,
    tally: ChangeTally,
    verdict: ChangeVerdict,
) -> Result<(), AllocError> {
    let sentence = verdict.sentence();
    writeln!(out, "{tally}; {sentence}")
}
