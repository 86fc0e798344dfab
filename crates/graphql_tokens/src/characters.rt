//! Classes of bytes, and runs of them.

ghost use Rattle.std.specs.Prelude.{◌≡◌, ◌≤◌, length};
ghost use Rattle.graphql_nodes.specs.Names.{starts_name, continues_name};
ghost use Rattle.graphql_tokens.specs.Characters.{is_line_byte, is_source_byte, begins_with, IsRun};
ghost use Rattle.graphql_tokens.specs.Ignored.{is_comment_byte};
ghost use Rattle.graphql_tokens.specs.Lexical.{goes_on_number};
ghost use Rattle.graphql_tokens.specs.Scans.{after_run, belongs, is_blank, strip, Gives};
ghost use Rattle.graphql_tokens.specs.Strings.{is_string_byte, is_plain_byte};

use crate::loads::LANES;

/// What a run of bytes is made of.
#[derive(Clone, Copy)]
pub enum Class {
    /// White space, line feeds and commas.
    Blank,
    /// Bytes of a comment, behind its number sign.
    Comment,
    /// Decimal digits.
    Digit,
    /// Bytes of a name, behind its first.
    NamePart,
    /// Bytes that stand for themselves in a string.
    StringText,
    /// Bytes that stand for themselves in a block string, whatever is behind them.
    BlockText,
}

impl Class {
    #[inline(always)]
    pub(crate) fn contains(self, c: u8) -> bool
        ensures { result ≡ belongs self c }
    {
        match self {
            Class::Blank => is_blank(c),
            Class::Comment => is_comment_byte(c),
            Class::Digit => c.is_ascii_digit(),
            Class::NamePart => c.is_ascii_lowercase() || c.is_ascii_alphanumeric() || c == b'_',
            Class::StringText => is_string_byte(c),
            Class::BlockText => is_plain_byte(c),
        }
    }
}

#[inline(always)]
pub(crate) fn is_blank(c: u8) -> bool
    ensures { result ≡ is_blank c }
{
    c == b' ' || c == b'\n' || c == b',' || c == b'\t'
}

/// Whether this is a byte of a line terminator.
///
/// Specification: 2.1.3 Line Terminators.
pub fn is_line_byte(c: u8) -> bool
    ensures { result ≡ is_line_byte c }
{
    c == b'\n' || c == b'\r'
}

/// Whether this is a byte of a source character.
///
/// Specification: 2.1.1 Source Text.
pub fn is_source_byte(c: u8) -> bool
    ensures { result ≡ is_source_byte c }
{
    c == b'\t' || is_line_byte(c) || 31 < c
}

fn is_comment_byte(c: u8) -> bool
    ensures { result ≡ is_comment_byte c }
{
    is_source_byte(c) && !is_line_byte(c)
}

/// Whether this is a byte of a character that stands for itself in a string.
///
/// Specification: 2.9.4 String Value.
pub(crate) fn is_string_byte(c: u8) -> bool
    ensures { result ≡ is_string_byte c }
{
    // Small letters first: of most texts most bytes are.
    b'\\' < c || (is_source_byte(c) && !is_line_byte(c) && !(c == b'"' || c == b'\\'))
}

fn is_plain_byte(c: u8) -> bool
    ensures { result ≡ is_plain_byte c }
{
    b'\\' < c || (is_source_byte(c) && !(c == b'"' || c == b'\\'))
}

pub(crate) fn is_name_start(c: u8) -> bool
    ensures { result ≡ starts_name c }
{
    c.is_ascii_alphabetic() || c == b'_'
}

/// Whether a number goes on here, so that it has not ended before.
pub(crate) fn number_goes_on(text: &[u8]) -> bool
    ensures { result ≡ begins_with goes_on_number text.now }
{
    match text {
        [] => false,
        [c, ..] => c.is_ascii_digit() || *c == b'.' || is_name_start(*c),
    }
}

/// The text behind its first byte, where it is this one.
#[tactic(auto, unfolding(crate::specs::Scans::strip))]
pub fn strip(text: &[u8], byte: u8) -> Option<&[u8]>
    ensures { Gives (λ rest. rest.now) result (strip byte text.now) }
{
    match text {
        [] => None,
        [c, rest @ ..] => { if *c == byte { Some(rest) } else { None } }
    }
}

/// The text behind the bytes of the class at its start: as many as a load has are tested at a time.
#[inline(always)]
pub(crate) fn after_run(text: &[u8], class: Class) -> &[u8]
    ensures { result.now ≡ after_run (belongs class) text.now }
{
    let mut rest = text;
    while LANES <= rest.len() {
        let run = class.run_in_load(rest);
        let (_, behind) = rest.split_at(run);
        if run < LANES {
            return behind;
        }
        rest = behind;
    }
    after_short_run(rest, class)
}

/// The text after the bytes of the class at its start: one byte is tested at a time.
#[inline(always)]
pub(crate) fn after_short_run(text: &[u8], class: Class) -> &[u8]
    ensures { result.now ≡ after_run (belongs class) text.now }
{
    let mut rest = text;
    while let [c, behind @ ..] = rest {
        if !class.contains(*c) {
            break;
        }
        rest = behind;
    }
    rest
}

/// The bytes of the class at the start of the text, and the text behind them.
#[inline(always)]
pub fn split_run(text: &[u8], class: Class) -> (&[u8], &[u8])
    ensures { IsRun (belongs class) text.now result.0.now result.1.now }
{
    let rest = after_run(text, class);
    let (run, _) = text.split_at(text.len() - rest.len());
    (run, rest)
}
