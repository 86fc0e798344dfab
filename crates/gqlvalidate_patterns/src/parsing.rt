//! How patterns are written.

ghost use Rattle.std.specs.Prelude.{◌<◌, ◌≤◌, IfOk, length};

use super::characters::characters_of;
use super::patterns::{CharacterRange, CharacterSet, Part, Pattern, Piece};
use super::rows::SEPARATOR;
use std::alloc::{AllocError, AllocFailed, Global};
use thiserror::Error;

/// Why a text is no pattern.
#[derive(Clone, Copy, Debug, PartialEq, Eq, Error)]
pub enum PatternError {
    #[error("out of memory")]
    OutOfMemory,
    #[error("`[` has no `]`")]
    UnclosedSet,
    #[error("`{{` has no `}}`")]
    UnclosedBraces,
    #[error("there is no character between `[` and `]`")]
    EmptySet,
    #[error("the last character of a range is before its first")]
    ReversedRange,
    #[error("a bracket or brace closes nothing, or braces are inside braces; write a backslash before a character that is in the name")]
    Unmatched,
    #[error("`**` stands for folders, and not for a part of a name")]
    StarsInName,
    #[error("there is nothing after the backslash")]
    LoneBackslash,
}

impl From<AllocError> for PatternError {
    fn from(_refusal: AllocError) -> PatternError {
        PatternError::OutOfMemory
    }
}

impl<T: Drop> From<AllocFailed<T>> for PatternError {
    fn from(_refusal: AllocFailed<T>) -> PatternError {
        PatternError::OutOfMemory
    }
}

/// Whether a name begins at the place, as far as the character before it tells.
fn begins_name(characters: &[char], place: usize) -> bool
    requires { place ≤ length characters.now }
{
    place == 0 || matches!(characters[place - 1], SEPARATOR | '{' | ',')
}

/// The piece of one or two stars, of which the first is at the place; and the place behind it.
fn parse_stars(characters: &[char], place: usize) -> Result<(Piece, usize), PatternError>
    requires { place < length characters.now }
    ensures { IfOk result (λ r. (place < r.1) × (r.1 ≤ length characters.now)) }
{
    let behind = &characters[place + 1..];
    match behind {
        ['*', SEPARATOR, ..] if begins_name(characters, place) => Ok((Piece::Folders, place + 3)),
        ['*'] | ['*', ',' | '}', ..] if begins_name(characters, place) => Ok((
            Piece::Many(CharacterSet::Every),
            place + 2,
        )),
        ['*', ..] => Err(PatternError::StarsInName),
        _ => Ok((Piece::Many(CharacterSet::OfNames), place + 1)),
    }
}

/// The range that begins at the place, and the place behind it.
fn parse_range(characters: &[char], place: usize) -> Result<(CharacterRange, usize), PatternError>
    requires { place < length characters.now }
    ensures { IfOk result (λ r. (place < r.1) × (r.1 ≤ length characters.now)) }
{
    let first = characters[place];
    match &characters[place + 1..] {
        ['-', last, ..] if *last != ']' => {
            if *last < first {
                return Err(PatternError::ReversedRange);
            }
            Ok((CharacterRange { first, last: *last }, place + 3))
        }
        _ => Ok((CharacterRange { first, last: first }, place + 1)),
    }
}

/// The ranges from the place up to `]`, and the place behind it.
fn parse_ranges(
    alloc: Global,
    characters: &[char],
    from: usize,
) -> Result<(Vec<CharacterRange>, usize), PatternError>
    requires { from ≤ length characters.now }
    ensures { IfOk result (λ r. (from < r.1) × (r.1 ≤ length characters.now)) }
{
    let mut ranges = Vec::new(alloc);
    let mut place = from;
    while place < characters.len() {
        if characters[place] == ']' {
            if ranges.is_empty() {
                return Err(PatternError::EmptySet);
            }
            return Ok((ranges, place + 1));
        }
        let (range, next) = parse_range(characters, place)?;
        ranges.push(range)?;
        place = next;
    }
    Err(PatternError::UnclosedSet)
}

/// The set whose `[` is before the place, and the place behind it.
fn parse_set(
    alloc: Global,
    characters: &[char],
    place: usize,
) -> Result<(Piece, usize), PatternError>
    requires { place ≤ length characters.now }
    ensures { IfOk result (λ r. (place < r.1) × (r.1 ≤ length characters.now)) }
{
    if place < characters.len() && characters[place] == '!' {
        let (ranges, next) = parse_ranges(alloc, characters, place + 1)?;
        return Ok((Piece::One(CharacterSet::NoneOf(ranges)), next));
    }
    let (ranges, next) = parse_ranges(alloc, characters, place)?;
    Ok((Piece::One(CharacterSet::OneOf(ranges)), next))
}

/// The piece at the place, and the place behind it.
fn parse_piece(
    alloc: Global,
    characters: &[char],
    place: usize,
) -> Result<(Piece, usize), PatternError>
    requires { place < length characters.now }
    ensures { IfOk result (λ r. (place < r.1) × (r.1 ≤ length characters.now)) }
{
    match characters[place] {
        '?' => Ok((Piece::One(CharacterSet::OfNames), place + 1)),
        '*' => parse_stars(characters, place),
        '[' => parse_set(alloc, characters, place + 1),
        '\\' => match characters.get(place + 1) {
            Some(c) => Ok((Piece::One(CharacterSet::Only(*c)), place + 2)),
            None => Err(PatternError::LoneBackslash),
        },
        ']' | '{' | '}' => Err(PatternError::Unmatched),
        c => Ok((Piece::One(CharacterSet::Only(c)), place + 1)),
    }
}

/// The pieces from the place up to `,` or `}`, and the place of that.
fn parse_alternative(
    alloc: Global,
    characters: &[char],
    from: usize,
) -> Result<(Vec<Piece>, usize), PatternError>
    requires { from ≤ length characters.now }
    ensures { IfOk result (λ r. (from ≤ r.1) × (r.1 < length characters.now)) }
{
    let mut pieces = Vec::new(alloc);
    let mut place = from;
    while place < characters.len() {
        if matches!(characters[place], ',' | '}') {
            return Ok((pieces, place));
        }
        let (piece, next) = parse_piece(alloc, characters, place)?;
        pieces.push(piece)?;
        place = next;
    }
    Err(PatternError::UnclosedBraces)
}

/// The alternatives whose `{` is before the place, and the place behind their `}`.
fn parse_alternatives(
    alloc: Global,
    characters: &[char],
    from: usize,
) -> Result<(Part, usize), PatternError>
    requires { from ≤ length characters.now }
    ensures { IfOk result (λ r. (from < r.1) × (r.1 ≤ length characters.now)) }
{
    let mut alternatives = Vec::new(alloc);
    let mut place = from;
    while place < characters.len() {
        let (pieces, end) = parse_alternative(alloc, characters, place)?;
        alternatives.push(pieces)?;
        place = end + 1;
        if characters[end] == '}' {
            return Ok((Part::Either(alternatives), place));
        }
    }
    Err(PatternError::UnclosedBraces)
}

/// The part at the place, and the place behind it.
fn parse_part(
    alloc: Global,
    characters: &[char],
    place: usize,
) -> Result<(Part, usize), PatternError>
    requires { place < length characters.now }
    ensures { IfOk result (λ r. (place < r.1) × (r.1 ≤ length characters.now)) }
{
    if characters[place] == '{' {
        return parse_alternatives(alloc, characters, place + 1);
    }
    let (piece, next) = parse_piece(alloc, characters, place)?;
    Ok((Part::One(piece), next))
}

/// The parts of a pattern.
fn parse_parts(alloc: Global, characters: &[char]) -> Result<Vec<Part>, PatternError> {
    let mut parts = Vec::new(alloc);
    let mut place = 0;
    while place < characters.len() {
        let (part, next) = parse_part(alloc, characters, place)?;
        parts.push(part)?;
        place = next;
    }
    Ok(parts)
}

impl Pattern {
    /// The pattern that a text writes: `?` is a character of a name, `*` characters of a name, `**/` folders, `**` at the end all that is
    /// below, `[a-z]` a character of a range, `[!a-z]` another, `{a,b}` one of several, and a backslash takes the meaning from the
    /// character behind it. A `!` at the beginning takes out the paths for which the rest stands.
    ///
    /// The error says why the text is no pattern, or that an allocation failed.
    pub fn parse(alloc: Global, text: &str) -> Result<Pattern, PatternError> {
        let characters = characters_of(alloc, text)?;
        match characters.as_slice() {
            ['!', rest @ ..] => Ok(Pattern {
                takes_out: true,
                parts: parse_parts(alloc, rest)?,
            }),
            all => Ok(Pattern {
                takes_out: false,
                parts: parse_parts(alloc, all)?,
            }),
        }
    }
}
