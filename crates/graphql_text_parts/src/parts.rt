//! Parts of a text.

ghost use Rattle.std.specs.Prelude.{◌≡◌, IfOk, IfSome, string_bytes};
ghost use Rattle.graphql_blanks.specs.Blanks.{part_text};

use crate::groups::{Group, first_groups};
use crate::heads::part_starts;
use crate::schema_heads::schema_part_starts;
use graphql_blanks::{Part, blank};
use graphql_nodes::{FileId, ValidationError};
use graphql_parser::{Bounds, SyntaxError, parse_document};
use graphql_tokens::has_no_token;
use std::alloc::{AllocError, Global};

/// The file of trees whose places are not used.
const NO_FILE: FileId = FileId(u32::MAX);

/// As many texts are read at most to find the parts of one.
const MOST_TRIES: usize = 96;

/// What a part is by itself.
enum Reading {
    /// It has no token.
    Empty,
    Document,
    Refused,
}

/// A part that was read.
#[derive(Clone, Copy)]
struct ReadPart {
    part: Part,
    is_document: bool,
}

/// A text, and where its parts begin.
#[derive(Clone, Copy)]
struct Cut<'a> {
    text: &'a str,
    starts: &'a [usize],
    bounds: Bounds,
}

impl Cut<'_> {
    /// The parts of a group as one part, which ends before the blanks at its end.
    fn part(self, group: Group) -> Part {
        let length = self.text.len();
        let start = self.starts.get(group.first).copied().unwrap_or(length);
        let end = self.starts.get(group.end).copied().unwrap_or(length);
        let own = self.text.get(start..end).unwrap_or("");
        Part {
            start,
            end: start.saturating_add(own.trim_end().len()),
        }
    }
}

/// The text up to the end of a part, in which all before the part is blank: so all that is in the part has its own place. None, if the text has no
/// such part. The only error is a failed allocation.
pub fn text_of_part(alloc: Global, text: &str, part: Part) -> Result<Option<String>, AllocError>
    ensures { IfOk result (λ text_of. IfSome text_of (λ it. string_bytes it ≡ part_text text.now part.start part.end)) }
{
    let Some((before, _)) = text.as_bytes().split_at_checked(part.start) else {
        return Ok(None);
    };
    let Some(own) = text.as_bytes().get(part.start..part.end) else {
        return Ok(None);
    };
    let mut bytes = blank(alloc, before)?;
    bytes.extend_from_slice(own)?;
    match String::from_utf8(bytes) {
        Ok(text) => Ok(Some(text)),
        Err(_) => Ok(None),
    }
}

/// The parts of a text that is no document for this reason, which are to be read beside it: those that are documents by themselves, and those that
/// are none, but for the one in which the text's own error begins. A part begins at a line with a word that begins a definition, and ends before blanks. The parts
/// are in order. Of a text with many faults not all parts are found. The only error is a failed allocation.
///
/// Specification: 2.2 Document.
pub fn parts_beside(
    alloc: Global,
    text: &str,
    error: SyntaxError,
    bounds: Bounds,
) -> Result<Vec<Part>, ValidationError> {
    if is_of_whole(error) {
        return Ok(Vec::new(alloc));
    }
    let starts = part_starts(alloc, text)?;
    let read = read_parts(alloc, text, &starts, bounds)?;
    others(alloc, &read, error.at(text))
}

/// The parts of the text of a schema, which is no document for this reason, that are no documents by themselves, but for the one in which the
/// text's own error begins. A part begins at a line with a word that begins a definition of the type system, or with its description, and ends
/// before blanks. The parts are in order. Of a text with many faults not all parts are found. The only error is a failed allocation.
///
/// Specification: 2.2 Document, 3 Type System.
pub fn faulty_schema_parts_beside(
    alloc: Global,
    text: &str,
    error: SyntaxError,
    bounds: Bounds,
) -> Result<Vec<Part>, ValidationError> {
    if is_of_whole(error) {
        return Ok(Vec::new(alloc));
    }
    let starts = schema_part_starts(alloc, text)?;
    let mut read = read_parts(alloc, text, &starts, bounds)?;
    read.retain(|it| !it.is_document);
    others(alloc, &read, error.at(text))
}

/// Whether the error is of the whole text, and of no part of it.
fn is_of_whole(error: SyntaxError) -> bool {
    matches!(
        error,
        SyntaxError::OutOfMemory | SyntaxError::TooManyTokens(_)
    )
}

/// The parts that are documents or single, in order: each group that is none is cut in two. None, if the text has one part alone.
fn read_parts(
    alloc: Global,
    text: &str,
    starts: &[usize],
    bounds: Bounds,
) -> Result<Vec<ReadPart>, ValidationError> {
    let mut read = Vec::new(alloc);
    if starts.len() < 2 {
        return Ok(read);
    }
    let cut = Cut {
        text,
        starts,
        bounds,
    };
    let mut waiting = first_groups(alloc, starts.len())?;
    for _ in 0..MOST_TRIES {
        let Some(group) = waiting.pop() else {
            break;
        };
        read_group(alloc, cut, group, &mut waiting, &mut read)?;
    }
    Ok(read)
}

fn read_group(
    alloc: Global,
    cut: Cut<'_>,
    group: Group,
    waiting: &mut Vec<Group>,
    read: &mut Vec<ReadPart>,
) -> Result<(), ValidationError> {
    let part = cut.part(group);
    match reading_of(alloc, cut, part)? {
        Reading::Empty => {}
        Reading::Document => read.push(ReadPart {
            part,
            is_document: true,
        })?,
        Reading::Refused if group.is_single() => read.push(ReadPart {
            part,
            is_document: false,
        })?,
        Reading::Refused => {
            let (first, second) = group.halves();
            waiting.push(second)?;
            waiting.push(first)?;
        }
    }
    Ok(())
}

/// What the part is by itself.
fn reading_of(alloc: Global, cut: Cut<'_>, part: Part) -> Result<Reading, ValidationError> {
    let Some(text) = text_of_part(alloc, cut.text, part)? else {
        return Ok(Reading::Empty);
    };
    if has_no_token(text.as_str()) {
        return Ok(Reading::Empty);
    }
    match parse_document(alloc, NO_FILE, text.as_str(), cut.bounds) {
        Ok(document) => {
            drop(document);
            Ok(Reading::Document)
        }
        Err(SyntaxError::OutOfMemory) => Err(ValidationError::OutOfMemory),
        Err(_) => Ok(Reading::Refused),
    }
}

/// The parts but for the last one that is no document and begins before this byte.
fn others(alloc: Global, read: &[ReadPart], at: usize) -> Result<Vec<Part>, ValidationError> {
    let faulty = read
        .iter()
        .rposition(|it| !it.is_document && it.part.start <= at);
    let mut parts = Vec::new(alloc);
    for (position, it) in read.iter().enumerate() {
        if faulty != Some(position) {
            parts.push(it.part)?;
        }
    }
    Ok(parts)
}
