//! Changes as a table, as comments of pull requests have it.

use crate::shown_changes::{ChangeTally, ComparedTexts, ShownChange};
use crate::verdicts::ChangeVerdict;
use graphql_report_formats::named_texts::{Located, shown_name};
use std::alloc::AllocError;
use std::fmt;

/// Adds the table of the changes that are listed, in order, and below it how many there are of each level, and what that means for documents.
pub fn push_changes(
    out: &mut String,
    changes: &[ShownChange<'_>],
    texts: &ComparedTexts<'_>,
    verdict: ChangeVerdict,
) -> Result<(), AllocError> {
    if changes.iter().any(|shown| shown.is_listed()) {
        out.push_str(
            "| Level | Change | Place | Valid before and not after |\n|---|---|---|---|\n",
        )?;
        push_rows(out, changes, texts)?;
        out.push('\n')?;
    }
    let tally = ChangeTally::of(changes);
    let sentence = verdict.sentence();
    writeln!(out, "**{tally}**; {sentence}")
}

fn push_rows(
    out: &mut String,
    changes: &[ShownChange<'_>],
    texts: &ComparedTexts<'_>,
) -> Result<(), AllocError> {
    for shown in changes {
        if shown.is_listed() {
            push_row(out, shown, texts)?;
        }
    }
    Ok(())
}

fn push_row(
    out: &mut String,
    shown: &ShownChange<'_>,
    texts: &ComparedTexts<'_>,
) -> Result<(), AllocError> {
    let level = shown.level_name();
    let message = &shown.change.change;
    write!(out, "| {level} | {message} | ")?;
    if let Some(located) = texts.place_of(shown.change) {
        push_place(out, located)?;
    }
    out.push_str(" | ")?;
    if let Some(text) = &shown.witness {
        // It has names, literals and punctuation of GraphQL, but neither `|` nor a backtick.
        let text = text.as_str();
        write!(out, "`{text}`")?;
    }
    out.push_str(" |\n")
}

fn push_place(out: &mut String, located: Located<'_>) -> Result<(), AllocError> {
    let path = Cell(shown_name(located.path));
    let line = located.start.line;
    let column = located.start.column;
    write!(out, "{path}:{line}:{column}")
}

/// A text in a cell of a table: what would end the cell, begin code, a link or an element is escaped.
#[derive(Clone, Copy)]
struct Cell<'a>(&'a str);

impl fmt::Display for Cell<'_> {
    fn fmt<W: fmt::Write>(&self, f: &mut fmt::Formatter<W>) -> fmt::Result {
        for character in self.0.chars() {
            if matches!(
                character,
                '|' | '`' | '\\' | '[' | ']' | '<' | '>' | '*' | '_'
            ) {
                f.write_char('\\')?;
            }
            f.write_char(character)?;
        }
        Ok(())
    }
}
