//! The literals of a program.

ghost use Rattle.std.specs.Prelude.{◌≤◌, length, All, IfOk, IfSome};
ghost use Rattle.graphql_literals.specs.Literals.{IsFound, IsPlucked, StartsAfter};

use crate::contents::{Contents, read_contents};
use crate::tags::Tag;
use crate::templates::{Opened, closing};
use crate::tokens::token_at;
use graphql_blanks::Part;
use std::alloc::{AllocError, Global};

/// A literal of a program: the bytes between its backticks, from the start up to the end.
#[derive(Drop)]
pub struct Literal {
    pub start: usize,
    pub end: usize,
    /// The parts of it that are no GraphQL: interpolations between definitions, and backslashes before backticks. They are in order.
    pub holes: Vec<Part>,
}

/// Why a literal is skipped.
#[derive(Clone, Copy, Debug, PartialEq, Eq)]
pub enum SkipReason {
    /// An interpolation is in a definition, so the text of the literal is not known.
    Interpolation,
    /// No backtick closes it.
    Unclosed,
}

/// A literal whose text is not known: the interpolation that is the reason, or the literal from its backtick to the end of the program.
#[derive(Clone, Copy, Debug, PartialEq, Eq)]
pub struct Skipped {
    pub part: Part,
    pub reason: SkipReason,
}

/// A literal that was found in a program.
#[derive(Drop)]
pub enum Plucked {
    Literal(Literal),
    Skipped(Skipped),
}

/// A literal, and where the program goes on after it.
struct Found {
    plucked: Plucked,
    end: usize,
}

/// The literals of a program, in order. The number of steps is in proportion to the length of the program.
/// The only error is a failed allocation.
///
/// An interpolation between definitions is a hole of its literal: before it, apart from blanks, comments and other holes, is nothing or the brace
/// that ends a definition. A literal with an interpolation anywhere else, also in a comment or a string of the GraphQL text, is skipped, with its
/// first such interpolation; so is a literal that is not closed. Escapes stay as they are written, but the backslash of an escaped backtick is a hole.
pub fn literals_in(alloc: Global, program: &str) -> Result<Vec<Plucked>, AllocError>
    ensures { IfOk result (λ plucked. All (IsPlucked program.now) plucked.items) }
{
    let bytes = program.as_bytes();
    let mut all = Vec::new(alloc);
    let mut at = 0;
    while let Some(start) = next_literal(alloc, bytes, at)? {
        let Found { plucked, end } = literal_at(alloc, bytes, start)?;
        all.push(plucked)?;
        at = end;
    }
    Ok(all)
}

/// Where the text of the next literal begins, if there is one. The only error is a failed allocation.
fn next_literal(alloc: Global, bytes: &[u8], from: usize) -> Result<Option<usize>, AllocError>
    requires { from ≤ length bytes.now }
    ensures { IfOk result (λ found. IfSome found (λ start. StartsAfter bytes.now from start)) }
{
    let mut at = from;
    let mut tag = Tag::Absent;
    while at < bytes.len() {
        if bytes[at] != b'`' {
            let token = token_at(bytes, at);
            at = token.end;
            tag = tag.after(token.kind);
        } else if tag.is_complete() {
            return Ok(Some(at + 1));
        } else {
            let Some(end) = closing(alloc, bytes, at + 1, Opened::Template)? else {
                return Ok(None);
            };
            at = end + 1;
            tag = Tag::Absent;
        }
    }
    Ok(None)
}

/// The literal whose text begins at this byte. The only error is a failed allocation.
fn literal_at(alloc: Global, bytes: &[u8], start: usize) -> Result<Found, AllocError>
    requires { StartsAfter bytes.now 0 start }
    ensures { IfOk result (λ found. IsFound bytes.now start found) }
{
    let length = bytes.len();
    let Some(end) = closing(alloc, bytes, start, Opened::Template)? else {
        let part = Part {
            start: start - 1,
            end: length,
        };
        let reason = SkipReason::Unclosed;
        return Ok(Found {
            plucked: Plucked::Skipped(Skipped { part, reason }),
            end: length,
        });
    };
    let plucked = match read_contents(alloc, bytes, Part { start, end })? {
        Contents::Known(holes) => Plucked::Literal(Literal { start, end, holes }),
        Contents::Unknown(part) => Plucked::Skipped(Skipped {
            part,
            reason: SkipReason::Interpolation,
        }),
    };
    Ok(Found {
        plucked,
        end: end + 1,
    })
}
