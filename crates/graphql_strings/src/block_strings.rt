//! The values of block strings.

ghost use Rattle.std.specs.Prelude.{◌≡◌, ◌∷◌, ◌++◌, map, drop, flat_map, unwrap_or, IfOk, OnOk};
ghost use Rattle.graphql_strings.specs.BlockStrings.{block_string_value, least_indent, common_indent, without_common_indent, without_first_blanks, without_last_blanks, join_lines};

use crate::lines::{indent, is_blank, is_one_line, split_lines};
use std::alloc::{AllocError, Global};

/// What a block string with this raw value stands for. A raw value of one line is not cut up.
///
/// Specification: 2.9.4 String Value, BlockStringValue().
pub(crate) fn block_value(alloc: Global, raw: &[u8]) -> Result<Vec<u8>, AllocError>
    ensures { IfOk result (λ value. value.items ≡ block_string_value raw.now) }
{
    if !is_one_line(raw) {
        block_string_value(alloc, raw)
    } else if is_blank(raw) {
        Ok(Vec::new(alloc))
    } else {
        Vec::from_slice(alloc, raw)
    }
}

/// What a block string with this raw value stands for.
///
/// Specification: 2.9.4 String Value, BlockStringValue().
#[tactic(auto, unfolding(crate::specs::BlockStrings::block_string_value))]
pub(crate) fn block_string_value(alloc: Global, raw: &[u8]) -> Result<Vec<u8>, AllocError>
    ensures { IfOk result (λ value. value.items ≡ block_string_value raw.now) }
{
    let lines = without_common_indent(split_lines(alloc, raw)?);
    join_lines(
        alloc,
        without_last_blanks(without_first_blanks(lines.as_slice())),
        raw.len(),
    )
}

/// The lines, all but the first without the indent that they have in common.
fn without_common_indent(mut lines: Vec<&[u8]>) -> Vec<&[u8]>
    ensures { map (λ line. line.now) result.items ≡ without_common_indent (map (λ line. line.now) lines.entry.items) }
{
    let indent = indent_behind_first(lines.as_slice());
    for i in 1..lines.len() {
        lines[i] = without_front(lines[i], indent);
    }
    lines
}

/// The indent that all lines but the first have in common, or none.
fn indent_behind_first(lines: &[&[u8]]) -> usize
    ensures { result ≡ unwrap_or (common_indent (map (λ line. line.now) (drop 1 lines.now))) 0 }
{
    match lines {
        [] => 0,
        [_, rest @ ..] => common_indent(rest).unwrap_or(0),
    }
}

fn without_front(line: &[u8], count: usize) -> &[u8]
    ensures { result.now ≡ drop count line.now }
{
    &line[count.min(line.len())..]
}

/// The least indent of the lines that are not blank.
fn common_indent(lines: &[&[u8]]) -> Option<usize>
    ensures { result ≡ common_indent (map (λ line. line.now) lines.now) }
{
    let mut common = None;
    for line in lines {
        common = least_indent(common, line);
    }
    common
}

fn least_indent(common: Option<usize>, line: &[u8]) -> Option<usize>
    ensures { result ≡ least_indent common line.now }
{
    let indent = indent(line);
    match common {
        None => {
            if indent < line.len() {
                Some(indent)
            } else {
                None
            }
        }
        Some(least) => {
            if indent < line.len() && indent < least {
                Some(indent)
            } else {
                Some(least)
            }
        }
    }
}

fn without_first_blanks<'a, 'b>(lines: &'a [&'b [u8]]) -> &'a [&'b [u8]]
    ensures { map (λ line. line.now) result.now ≡ without_first_blanks (map (λ line. line.now) lines.now) }
{
    let mut rest = lines;
    while let [line, behind @ ..] = rest {
        if !is_blank(line) {
            break;
        }
        rest = behind;
    }
    rest
}

fn without_last_blanks<'a, 'b>(lines: &'a [&'b [u8]]) -> &'a [&'b [u8]]
    ensures { map (λ line. line.now) result.now ≡ without_last_blanks (map (λ line. line.now) lines.now) }
{
    let mut rest = lines;
    while let [before @ .., line] = rest {
        if !is_blank(line) {
            break;
        }
        rest = before;
    }
    rest
}

/// The lines, joined by line feeds. Room is made once: for a line alone as much as it takes, for more
/// lines `at_most` bytes.
fn join_lines(alloc: Global, lines: &[&[u8]], at_most: usize) -> Result<Vec<u8>, AllocError>
    ensures { IfOk result (λ joined. joined.items ≡ join_lines (map (λ line. line.now) lines.now)) }
{
    let [first, rest @ ..] = lines else {
        return Ok(Vec::new(alloc));
    };
    let capacity = if rest.is_empty() {
        first.len()
    } else {
        at_most
    };
    let mut joined = Vec::with_capacity(alloc, capacity)?;
    joined.extend_from_slice(first)?;
    push_lines(&mut joined, rest)?;
    Ok(joined)
}

/// Appends the lines, each behind a line feed.
fn push_lines(joined: &mut Vec<u8>, lines: &[&[u8]]) -> Result<(), AllocError>
    ensures { OnOk result (joined.new.items ≡ joined.old.items ++ flat_map (λ line. 10 ∷ line) (map (λ line. line.now) lines.now)) }
{
    for line in lines {
        joined.push(b'\n')?;
        joined.extend_from_slice(line)?;
    }
    Ok(())
}
