//! Where template strings and their interpolations end.

ghost use Rattle.std.specs.Prelude.{◌≡◌, ◌+◌, ◌<◌, ◌≤◌, length, slice_index, IfOk, IfSome, IsTrue};
ghost use Rattle.graphql_literals.specs.Templates.{ClosesAt, closing_byte};

use crate::tokens::{follows, pair_end, token_at};
use std::alloc::{AllocError, Global};

/// What a byte of a template string may be in.
#[derive(Clone, Copy, Debug, PartialEq, Eq)]
pub(crate) enum Opened {
    Template,
    /// An interpolation, or braces in one.
    Braces,
}

impl Opened {
    /// The byte that closes it.
    fn closing_byte(self) -> u8
        ensures { result ≡ closing_byte self }
    {
        match self {
            Opened::Template => b'`',
            Opened::Braces => b'}',
        }
    }
}

/// A step over a program: where it ends, and what it opens.
#[derive(Clone, Copy)]
struct Step {
    end: usize,
    opens: Option<Opened>,
}

/// Where the template string or the braces are closed whose text begins at this byte: the place of the backtick or brace, if there is one.
/// The only error is a failed allocation.
pub(crate) fn closing(
    alloc: Global,
    bytes: &[u8],
    from: usize,
    outermost: Opened,
) -> Result<Option<usize>, AllocError>
    requires { from ≤ length bytes.now }
    ensures { IfOk result (λ found. IfSome found (λ end. ClosesAt bytes.now from outermost end)) }
{
    let mut inner = Vec::new(alloc);
    let mut at = from;
    while at < bytes.len() {
        let opened = inner.last().copied().unwrap_or(outermost);
        if bytes[at] != opened.closing_byte() {
            let step = step_at(bytes, at, opened);
            at = step.end;
            if let Some(opened) = step.opens {
                inner.push(opened)?;
            }
        } else if inner.pop().is_some() {
            at += 1;
        } else {
            return Ok(Some(at));
        }
    }
    Ok(None)
}

/// Whether an interpolation begins at this byte.
pub(crate) fn begins_interpolation(bytes: &[u8], at: usize) -> bool
    requires { at < length bytes.now }
    ensures dollar { IsTrue result → slice_index bytes.now at ≡ 36 }
    ensures within { IsTrue result → at + 1 < length bytes.now }
    ensures brace { IsTrue result → slice_index bytes.now (at + 1) ≡ 123 }
{
    bytes[at] == b'$' && follows(bytes, at, b'{')
}

fn step_at(bytes: &[u8], at: usize, opened: Opened) -> Step
    requires { at < length bytes.now }
    ensures further { at < result.end }
    ensures within { result.end ≤ length bytes.now }
{
    match opened {
        Opened::Template => step_in_template(bytes, at),
        Opened::Braces => step_in_code(bytes, at),
    }
}

fn step_in_template(bytes: &[u8], at: usize) -> Step
    requires { at < length bytes.now }
    ensures further { at < result.end }
    ensures within { result.end ≤ length bytes.now }
{
    if bytes[at] == b'\\' {
        Step {
            end: pair_end(bytes, at),
            opens: None,
        }
    } else if begins_interpolation(bytes, at) {
        Step {
            end: at + 2,
            opens: Some(Opened::Braces),
        }
    } else {
        Step {
            end: at + 1,
            opens: None,
        }
    }
}

fn step_in_code(bytes: &[u8], at: usize) -> Step
    requires { at < length bytes.now }
    ensures further { at < result.end }
    ensures within { result.end ≤ length bytes.now }
{
    let byte = bytes[at];
    match byte {
        b'`' => Step {
            end: at + 1,
            opens: Some(Opened::Template),
        },
        b'{' => Step {
            end: at + 1,
            opens: Some(Opened::Braces),
        },
        _ => Step {
            end: token_at(bytes, at).end,
            opens: None,
        },
    }
}
