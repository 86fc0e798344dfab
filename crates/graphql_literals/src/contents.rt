//! What is known of the texts of literals.

ghost use Rattle.std.specs.Prelude.{◌≡◌, ◌+◌, ◌<◌, ◌≤◌, length, slice_index, IfOk, IsTrue};
ghost use Rattle.graphql_literals.specs.Literals.{AreContents, BeginsInterpolation, IsFoundAt};

use crate::places::Place;
use crate::templates::{Opened, begins_interpolation, closing};
use crate::tokens::follows;
use graphql_blanks::Part;
use std::alloc::{AllocError, Global};

/// What is known of the text of a literal.
#[derive(Drop)]
pub(crate) enum Contents {
    /// All but these holes.
    Known(Vec<Part>),
    /// Nothing: this interpolation is in a definition.
    Unknown(Part),
}

/// What is known of the text of the literal in this part of a program.
/// The only error is a failed allocation.
pub(crate) fn read_contents(
    alloc: Global,
    bytes: &[u8],
    literal: Part,
) -> Result<Contents, AllocError>
    requires { literal.end ≤ length bytes.now }
    ensures { IfOk result (λ contents. AreContents bytes.now literal contents) }
{
    let mut holes = Vec::new(alloc);
    let mut place = Place::START;
    let mut at = literal.start;
    while at < literal.end {
        if begins_interpolation(bytes, at) {
            let found = interpolation_at(alloc, bytes, at, literal.end)?;
            if !place.is_between() || !found.is_closed {
                return Ok(Contents::Unknown(found.part));
            }
            holes.push(found.part)?;
            at = found.part.end;
        } else if escapes_backtick(bytes, at) {
            holes.push(Part {
                start: at,
                end: at + 1,
            })?;
            at += 2;
        } else {
            let step = place.step(bytes, at);
            at = step.end;
            place = step.place;
        }
    }
    Ok(Contents::Known(holes))
}

/// An interpolation, and whether it is closed in its literal.
#[derive(Clone, Copy)]
struct Interpolation {
    part: Part,
    is_closed: bool,
}

/// The interpolation that begins at this byte of a literal that ends there, as far as it is in the literal.
/// The only error is a failed allocation.
fn interpolation_at(
    alloc: Global,
    bytes: &[u8],
    at: usize,
    literal_end: usize,
) -> Result<Interpolation, AllocError>
    requires begins { BeginsInterpolation bytes.now at }
    requires here { at < literal_end }
    requires room { at + 1 < length bytes.now }
    requires within { literal_end ≤ length bytes.now }
    ensures { IfOk result (λ found. IsFoundAt bytes.now at literal_end found) }
{
    match closing(alloc, bytes, at + 2, Opened::Braces)? {
        Some(close) if close < literal_end => Ok(Interpolation {
            part: Part {
                start: at,
                end: close + 1,
            },
            is_closed: true,
        }),
        _ => Ok(Interpolation {
            part: Part {
                start: at,
                end: literal_end,
            },
            is_closed: false,
        }),
    }
}

/// Whether a backslash before a backtick is at this byte.
fn escapes_backtick(bytes: &[u8], at: usize) -> bool
    requires { at < length bytes.now }
    ensures within { IsTrue result → at + 1 < length bytes.now }
    ensures backslash { IsTrue result → slice_index bytes.now at ≡ 92 }
    ensures backtick { IsTrue result → slice_index bytes.now (at + 1) ≡ 96 }
{
    bytes[at] == b'\\' && follows(bytes, at, b'`')
}
