//! Lines of a text, and their white space.

ghost use Rattle.std.specs.Prelude.{◌≡◌, ◌≤◌, not, map, length, position, IfOk, OnOk};
ghost use Rattle.std.specs.List.{list_all};
ghost use Rattle.graphql_tokens.specs.Characters.{is_line_byte};
ghost use Rattle.graphql_tokens.specs.Scans.{Gives};
ghost use Rattle.graphql_strings.specs.BlockStrings.{is_white_space, is_blank, split_lines, indent};
ghost use Rattle.graphql_strings.specs.Scans.{after_terminator, line_at};

use graphql_tokens::characters::is_line_byte;
use std::alloc::{AllocError, Global};

/// The lines of the text, without their line terminators.
///
/// Specification: 2.1.3 Line Terminators.
pub(crate) fn split_lines(alloc: Global, text: &[u8]) -> Result<Vec<&[u8]>, AllocError>
    ensures { IfOk result (λ lines. map (λ line. line.now) lines.items ≡ split_lines text.now) }
{
    let mut lines = Vec::new(alloc);
    let mut rest = text;
    while let Some((line, behind)) = line(rest) {
        lines.push(line)?;
        rest = behind;
    }
    lines.push(rest)?;
    Ok(lines)
}

/// The line up to the first line terminator, and the text behind that.
#[tactic(auto, unfolding(crate::specs::Scans::line_at))]
fn line(text: &[u8]) -> Option<(&[u8], &[u8])>
    ensures { Gives (λ found. (found.0.now, found.1.now)) result (line_at text.now) }
{
    let end = line_end(text)?;
    let (line, behind) = text.split_at(end);
    Some((line, after_terminator(behind)))
}

fn line_end(text: &[u8]) -> Option<usize>
    ensures { result ≡ position is_line_byte text.now }
{
    text.iter().position(|c| is_line_byte(*c))
}

fn after_terminator(text: &[u8]) -> &[u8]
    ensures { result.now ≡ after_terminator text.now }
{
    match text {
        [] => text,
        [_] => &text[1..],
        [c, d, ..] => {
            if *c == b'\r' && *d == b'\n' {
                &text[2..]
            } else {
                &text[1..]
            }
        }
    }
}

/// How many bytes of white space the line begins with.
pub(crate) fn indent(line: &[u8]) -> usize
    ensures count { result ≡ indent line.now }
    ensures within { result ≤ length line.now }
{
    let mut count = 0;
    let mut rest = line;
    while let [c, behind @ ..] = rest {
        if !is_white_space(*c) {
            break;
        }
        count += 1;
        rest = behind;
    }
    count
}

/// Whether the text contains no line terminator.
pub(crate) fn is_one_line(text: &[u8]) -> bool
    ensures { result ≡ list_all (λ c. not (is_line_byte c)) text.now }
{
    text.iter().all(|c| !is_line_byte(*c))
}

/// Whether the line contains only white space.
pub(crate) fn is_blank(line: &[u8]) -> bool
    ensures { result ≡ is_blank line.now }
{
    line.iter().all(|c| is_white_space(*c))
}

fn is_white_space(c: u8) -> bool
    ensures { result ≡ is_white_space c }
{
    c == b'\t' || c == b' '
}
