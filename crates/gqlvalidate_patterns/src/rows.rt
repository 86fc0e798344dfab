//! Rows of marks: one for each place of a path, before its first character, between two, and behind its last. A mark says that what a
//! pattern begins with can end there. A row takes one pass over the path, so that a pattern takes as many passes as it has pieces.

ghost use Rattle.std.specs.Prelude.{◌≡◌, ◌↔◌, ◌+◌, Any, IfOk, IsTrue, false, length, replicate};
ghost use Rattle.gqlvalidate_patterns.specs.Patterns.{EitherMatches, FoldersMatch, IsIn, IsWithin, ManyMatch, OneMatches, PartMatches, PieceMatches, PiecesMatch};
ghost use Rattle.gqlvalidate_patterns.specs.Rows.{IsRowBehind, RowsMeet};

use super::patterns::{CharacterRange, CharacterSet, Part, Piece};
use std::alloc::{AllocError, Global};

/// The character between folders and names in a path.
pub const SEPARATOR: char = '/';

impl CharacterRange {
    /// Whether the character is one of the range.
    pub fn contains(&self, c: char) -> bool
        ensures { IsTrue result ↔ IsWithin self.now c }
    {
        self.first <= c && c <= self.last
    }
}

/// Whether the character is one of these ranges.
fn any_contains(ranges: &[CharacterRange], c: char) -> bool
    ensures { IsTrue result ↔ Any (λ range. IsWithin range c) ranges.now }
{
    ranges.iter().any(|range| range.contains(c))
}

impl CharacterSet {
    /// Whether the character is one of the set.
    pub fn contains(&self, c: char) -> bool
        ensures { IsTrue result ↔ IsIn self.now c }
    {
        match self {
            CharacterSet::Only(only) => c == *only,
            CharacterSet::OfNames => c != SEPARATOR,
            CharacterSet::Every => true,
            CharacterSet::OneOf(ranges) => c != SEPARATOR && any_contains(ranges, c),
            CharacterSet::NoneOf(ranges) => c != SEPARATOR && !any_contains(ranges, c),
        }
    }
}

/// The row behind one character of the set.
fn row_behind_one(
    alloc: Global,
    set: &CharacterSet,
    path: &[char],
    begins: &[bool],
) -> Result<Vec<bool>, AllocError>
    requires { length begins.now ≡ length path.now + 1 }
    ensures { IfOk result (λ row. IsRowBehind (OneMatches set.now) path.now begins.now row.items) }
{
    let mut row = Vec::new(alloc);
    row.push(false)?;
    for (place, c) in path.iter().enumerate() {
        let ends = begins[place] && set.contains(*c);
        row.push(ends)?;
    }
    Ok(row)
}

/// The row behind any number of characters of the set.
fn row_behind_many(
    alloc: Global,
    set: &CharacterSet,
    path: &[char],
    begins: &[bool],
) -> Result<Vec<bool>, AllocError>
    requires { length begins.now ≡ length path.now + 1 }
    ensures { IfOk result (λ row. IsRowBehind (ManyMatch set.now) path.now begins.now row.items) }
{
    let mut row = Vec::new(alloc);
    let mut ends = begins[0];
    row.push(ends)?;
    for (place, c) in path.iter().enumerate() {
        ends = begins[place + 1] || ends && set.contains(*c);
        row.push(ends)?;
    }
    Ok(row)
}

/// The row behind any number of folders.
fn row_behind_folders(
    alloc: Global,
    path: &[char],
    begins: &[bool],
) -> Result<Vec<bool>, AllocError>
    requires { length begins.now ≡ length path.now + 1 }
    ensures { IfOk result (λ row. IsRowBehind FoldersMatch path.now begins.now row.items) }
{
    let mut row = Vec::new(alloc);
    let mut has_begun = begins[0];
    row.push(has_begun)?;
    for (place, c) in path.iter().enumerate() {
        let ends = begins[place + 1] || has_begun && *c == SEPARATOR;
        has_begun = has_begun || begins[place + 1];
        row.push(ends)?;
    }
    Ok(row)
}

/// The row behind a piece.
fn row_behind_piece(
    alloc: Global,
    piece: &Piece,
    path: &[char],
    begins: &[bool],
) -> Result<Vec<bool>, AllocError>
    requires { length begins.now ≡ length path.now + 1 }
    ensures { IfOk result (λ row. IsRowBehind (PieceMatches piece.now) path.now begins.now row.items) }
{
    match piece {
        Piece::One(set) => row_behind_one(alloc, set, path, begins),
        Piece::Many(set) => row_behind_many(alloc, set, path, begins),
        Piece::Folders => row_behind_folders(alloc, path, begins),
    }
}

/// The row behind pieces in turn.
fn row_behind_pieces(
    alloc: Global,
    pieces: &[Piece],
    path: &[char],
    begins: &[bool],
) -> Result<Vec<bool>, AllocError>
    requires { length begins.now ≡ length path.now + 1 }
    ensures { IfOk result (λ row. IsRowBehind (PiecesMatch pieces.now) path.now begins.now row.items) }
{
    let mut row = Vec::from_slice(alloc, begins)?;
    for piece in pieces {
        row = row_behind_piece(alloc, piece, path, &row)?;
    }
    Ok(row)
}

/// A row of so many places without a mark.
pub(crate) fn no_marks(alloc: Global, places: usize) -> Result<Vec<bool>, AllocError>
    ensures { IfOk result (λ row. row.items ≡ replicate places false) }
{
    vec![in alloc; false; places]
}

/// Marks each place that the other row marks.
fn mark_all(row: &mut Vec<bool>, other: &[bool])
    requires { length row.old.items ≡ length other.now }
    ensures { RowsMeet row.old.items other.now row.new.items }
{
    for (place, mark) in other.iter().enumerate() {
        if *mark {
            row[place] = true;
        }
    }
}

/// The row behind one of several, each of which is pieces in turn.
fn row_behind_either(
    alloc: Global,
    alternatives: &[Vec<Piece>],
    path: &[char],
    begins: &[bool],
) -> Result<Vec<bool>, AllocError>
    requires { length begins.now ≡ length path.now + 1 }
    ensures { IfOk result (λ row. IsRowBehind (EitherMatches alternatives.now) path.now begins.now row.items) }
{
    let mut row = no_marks(alloc, begins.len())?;
    for pieces in alternatives {
        let further = row_behind_pieces(alloc, pieces, path, begins)?;
        mark_all(&mut row, &further);
    }
    Ok(row)
}

/// The row behind a part.
pub(crate) fn row_behind_part(
    alloc: Global,
    part: &Part,
    path: &[char],
    begins: &[bool],
) -> Result<Vec<bool>, AllocError>
    requires { length begins.now ≡ length path.now + 1 }
    ensures { IfOk result (λ row. IsRowBehind (PartMatches part.now) path.now begins.now row.items) }
{
    match part {
        Part::One(piece) => row_behind_piece(alloc, piece, path, begins),
        Part::Either(alternatives) => row_behind_either(alloc, alternatives, path, begins),
    }
}
