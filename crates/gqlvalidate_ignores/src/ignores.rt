//! What the comments of a text ignore.

use crate::comments::{Comment, WORD, comment_of};
use graphql_places::LineIndex;
use std::alloc::{AllocError, Global};

/// A name in a comment that ignores reports.
#[derive(Clone, Copy, Debug)]
pub struct Ignore<'a> {
    /// The name; empty, if the comment has none.
    pub name: &'a str,
    /// The byte of the text where it begins; the `#` of the comment, if that has none.
    pub start: usize,
    /// The byte after it.
    pub end: usize,
    /// The line whose reports it ignores, from 1: that of the comment, or the next one if no code comes before the comment on its line.
    pub line: usize,
}

/// What the comments of a text ignore, in order. The only error is a failed allocation.
///
/// Specification: 2.1.3 Line Terminators, 2.1.4 Comments.
pub fn ignores_in<'a>(alloc: Global, text: &'a str) -> Result<Vec<Ignore<'a>>, AllocError> {
    let mut ignores = Vec::new(alloc);
    if text.find(WORD).is_none() {
        return Ok(ignores);
    }
    let lines = LineIndex::new(alloc, text)?;
    let mut begin = 0_usize;
    for line in text.split(['\n', '\r']) {
        if let Some(comment) = comment_of(line) {
            add_ignores(&lines, begin, comment, &mut ignores)?;
        }
        begin = begin.saturating_add(line.len()).saturating_add(1);
    }
    Ok(ignores)
}

/// Adds the names of a comment on the line that begins at this byte.
fn add_ignores<'a>(
    lines: &LineIndex<'a>,
    begin: usize,
    comment: Comment<'a>,
    ignores: &mut Vec<Ignore<'a>>,
) -> Result<(), AllocError> {
    let at = begin.saturating_add(comment.at);
    let own = lines.place(at.min(lines.text().len())).line;
    let line = if comment.is_alone {
        own.saturating_add(1)
    } else {
        own
    };
    let before = ignores.len();
    let names_at = begin.saturating_add(comment.names_at);
    add_names(names_at, comment.names, line, ignores)?;
    if ignores.len() == before {
        ignores.push(Ignore {
            name: "",
            start: at,
            end: at.saturating_add(1),
            line,
        })?;
    }
    Ok(())
}

/// Adds these names of a comment, which begin at this byte.
fn add_names<'a>(
    at: usize,
    names: &'a str,
    line: usize,
    ignores: &mut Vec<Ignore<'a>>,
) -> Result<(), AllocError> {
    let mut start = at;
    for name in names.split([' ', '\t', ',']) {
        let end = start.saturating_add(name.len());
        if !name.is_empty() {
            ignores.push(Ignore {
                name,
                start,
                end,
                line,
            })?;
        }
        start = end.saturating_add(1);
    }
    Ok(())
}
