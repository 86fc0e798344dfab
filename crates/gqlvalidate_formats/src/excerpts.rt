//! What is shown of a line of a text.

use gqlvalidate_inputs::printable::printable_character;
use std::alloc::{AllocError, Global};

/// What stands for characters that are left out.
const LEFT_OUT: &str = "...";

/// A tab is shown as these spaces.
const TAB: &str = "    ";

/// The line that a part of a text begins on, cut around what of the part is on it. Of a long line it has only what may be shown.
#[derive(Clone, Copy)]
pub struct Line<'a> {
    pub before: &'a str,
    pub marked: &'a str,
    pub behind: &'a str,
}

impl<'a> Line<'a> {
    /// The line of the bytes from `start` up to `end`: on either side of `start`, so many characters at most, and one more if there
    /// are more, so that these are seen to be left out. A line may be as long as its text, and many parts may begin on it.
    pub fn of(text: &'a str, start: usize, end: usize, most: usize) -> Line<'a> {
        let few = most.saturating_add(1);
        let head = last_characters(text.get(..start).unwrap_or(""), few);
        let rest = first_line(first_characters(text.get(start..).unwrap_or(""), few));
        let marked = rest.get(..end.saturating_sub(start)).unwrap_or(rest);
        Line {
            before: last_line(head),
            marked,
            behind: rest.get(marked.len()..).unwrap_or(""),
        }
    }
}

/// The text up to the first line terminator.
fn first_line(text: &str) -> &str {
    match text.find(['\n', '\r']) {
        Some(at) => text.get(..at).unwrap_or(text),
        None => text,
    }
}

/// The text behind the last line terminator.
fn last_line(text: &str) -> &str {
    match text.rsplit(['\n', '\r']).next() {
        Some(line) => line,
        None => text,
    }
}

/// The end of a text as it is shown: so many characters at most.
pub fn shown_end(alloc: Global, text: &str, most: usize) -> Result<String, AllocError> {
    let mut shown = String::new(alloc);
    let end = last_characters(text, most);
    if end.len() < text.len() {
        shown.push_str(LEFT_OUT)?;
    }
    push_shown(&mut shown, end)?;
    Ok(shown)
}

/// The beginning of a text as it is shown: so many characters at most.
pub fn shown_beginning(alloc: Global, text: &str, most: usize) -> Result<String, AllocError> {
    let mut shown = String::new(alloc);
    let beginning = first_characters(text, most);
    push_shown(&mut shown, beginning)?;
    if beginning.len() < text.len() {
        shown.push_str(LEFT_OUT)?;
    }
    Ok(shown)
}

/// The last characters, at most so many.
fn last_characters(text: &str, most: usize) -> &str {
    let Some(others) = most.checked_sub(1) else {
        return "";
    };
    match text.char_indices().rev().nth(others) {
        Some((at, _)) => text.get(at..).unwrap_or(text),
        None => text,
    }
}

/// The first characters, at most so many.
fn first_characters(text: &str, most: usize) -> &str {
    match text.char_indices().nth(most) {
        Some((at, _)) => text.get(..at).unwrap_or(text),
        None => text,
    }
}

/// Adds a text with spaces for tabs, and a replacement character for what else controls a terminal.
fn push_shown(shown: &mut String, text: &str) -> Result<(), AllocError> {
    for character in text.chars() {
        if character == '\t' {
            shown.push_str(TAB)?;
        } else {
            shown.push(printable_character(character))?;
        }
    }
    Ok(())
}
