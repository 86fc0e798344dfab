//! Places in the texts of literals.

ghost use Rattle.std.specs.Prelude.{◌≡◌, ◌+◌, ◌<◌, ◌≤◌, ◌^◌, length, IsTrue};

use crate::tokens::{ends_line, follows, pair_end};

/// What a byte of a GraphQL text is in.
#[derive(Clone, Copy, PartialEq, Eq)]
enum Mode {
    Plain,
    Comment,
    Quoted,
    Block,
}

/// A place in a GraphQL text.
#[derive(Clone, Copy)]
pub(crate) struct Place {
    mode: Mode,
    /// How many braces, parentheses and brackets are open.
    depth: usize,
    /// Whether no definition has begun since the last one ended.
    is_outside: bool,
}

/// A step over a GraphQL text: where it ends, and the place there.
#[derive(Clone, Copy)]
pub(crate) struct Step {
    pub end: usize,
    pub place: Place,
}

impl Place {
    /// The place at which a text begins.
    pub(crate) const START: Place = Place {
        mode: Mode::Plain,
        depth: 0,
        is_outside: true,
    };

    /// Whether it is between definitions: the last byte before it that is neither blank nor in a comment is the brace that ends a definition, or
    /// there is none.
    pub(crate) fn is_between(self) -> bool {
        self.mode == Mode::Plain && self.is_outside
    }

    /// The step over what begins at this byte.
    ///
    /// Specification: 2.1 Source Text, 2.9.4 String Value.
    pub(crate) fn step(self, bytes: &[u8], at: usize) -> Step
        requires { at < length bytes.now }
        ensures further { at < result.end }
        ensures within { result.end ≤ length bytes.now }
    {
        if bytes[at] == b'\\' {
            return self.step_over_escape(bytes, at);
        }
        match self.mode {
            Mode::Plain => self.step_in_plain(bytes, at),
            Mode::Comment => self.until(at, ends_line(bytes[at])),
            Mode::Quoted => self.until(at, bytes[at] == b'"' || ends_line(bytes[at])),
            Mode::Block if are_three_quotes(bytes, at) => Step {
                end: at + 3,
                place: self.in_mode(Mode::Plain),
            },
            Mode::Block => self.until(at, false),
        }
    }

    /// The step over a backslash and what it escapes. No line end is escaped.
    fn step_over_escape(self, bytes: &[u8], at: usize) -> Step
        requires { at < length bytes.now }
        ensures further { at < result.end }
        ensures within { result.end ≤ length bytes.now }
    {
        let end = if follows(bytes, at, b'\n') || follows(bytes, at, b'\r') {
            at + 1
        } else if self.mode == Mode::Block
            && at + 1 < bytes.len()
            && are_three_quotes(bytes, at + 1)
        {
            at + 4
        } else {
            pair_end(bytes, at)
        };
        let is_outside = self.is_outside && self.mode != Mode::Plain;
        Step {
            end,
            place: Place { is_outside, ..self },
        }
    }

    fn step_in_plain(self, bytes: &[u8], at: usize) -> Step
        requires { at < length bytes.now }
        ensures further { at < result.end }
        ensures within { result.end ≤ length bytes.now }
    {
        if are_three_quotes(bytes, at) {
            return Step {
                end: at + 3,
                place: self.inside().in_mode(Mode::Block),
            };
        }
        let byte = bytes[at];
        let place = match byte {
            b'#' => self.in_mode(Mode::Comment),
            b'"' => self.inside().in_mode(Mode::Quoted),
            b'{' | b'(' | b'[' => self.deeper(),
            b'}' => self.higher(true),
            b')' | b']' => self.higher(false),
            b',' => self,
            _ if byte.is_ascii_whitespace() => self,
            _ => self.inside(),
        };
        Step { end: at + 1, place }
    }

    /// The step over one byte, which may end what is not plain.
    fn until(self, at: usize, is_end: bool) -> Step
        requires { at < 2 ^ 63 }
        ensures { result.end ≡ at + 1 }
    {
        let mode = if is_end { Mode::Plain } else { self.mode };
        Step {
            end: at + 1,
            place: self.in_mode(mode),
        }
    }

    fn in_mode(self, mode: Mode) -> Place {
        Place { mode, ..self }
    }

    fn inside(self) -> Place {
        Place {
            is_outside: false,
            ..self
        }
    }

    fn deeper(self) -> Place {
        Place {
            depth: self.depth.saturating_add(1),
            is_outside: false,
            ..self
        }
    }

    fn higher(self, is_brace: bool) -> Place {
        let depth = self.depth.saturating_sub(1);
        Place {
            depth,
            is_outside: is_brace && depth == 0,
            ..self
        }
    }
}

/// Whether three quotes are at this byte.
fn are_three_quotes(bytes: &[u8], at: usize) -> bool
    requires { at < length bytes.now }
    ensures { IsTrue result → at + 2 < length bytes.now }
{
    bytes[at] == b'"' && follows(bytes, at, b'"') && follows(bytes, at + 1, b'"')
}
