//! Texts whose lines are counted once.

ghost use Rattle.std.specs.Prelude.{◌≡◌, ◌≤◌, ℕ, List, length, IfOk};
ghost use Rattle.graphql_places.specs.LineIndexes.{AreKeptPlaces};
ghost use Rattle.graphql_places.specs.Places.{column, line};

use crate::Place;
use std::alloc::{AllocError, Global};
use std::marker::Model;

/// How many bytes the places that are kept are apart.
const APART: usize = 256;

/// A text whose lines were counted once: the place of a byte is then found without reading all that is before it.
#[derive(Drop)]
pub struct LineIndex<'a> {
    text: &'a str,
    /// The places of the bytes 0, 256, 512 and so on.
    kept: Vec<Place>,
}

impl<'a> Model for LineIndex<'a> {
    ghost Value = { List ℕ };

    ghost view = { λ index. index.text.now };

    ghost invariant = { λ index. AreKeptPlaces index.text.now index.kept.items };
}

impl<'a> LineIndex<'a> {
    /// Counts the lines of the text.
    pub fn new(alloc: Global, text: &'a str) -> Result<LineIndex<'a>, AllocError>
        ensures { IfOk result (λ index. index ≡ text.now) }
    {
        let bytes = text.as_bytes();
        let mut kept = Vec::new(alloc);
        let mut place = Place::FIRST;
        kept.push(place)?;
        for part in 0..bytes.len() / APART {
            place = place.further(bytes, part * APART, (part + 1) * APART);
            kept.push(place)?;
        }
        Ok(LineIndex { text, kept })
    }

    /// The text whose lines are indexed.
    pub fn text(&self) -> &'a str
        ensures { result.now ≡ self.now }
    {
        self.text
    }

    /// The line and the column of a byte of the text, or of its end, as `Place::of_byte` has them.
    ///
    /// Specification: 2.1.3 Line Terminators.
    pub fn place(&self, at: usize) -> Place
        requires { at ≤ length self.now }
        ensures line { result.line ≡ line self.now at }
        ensures column { result.column ≡ column self.now at }
    {
        let part = at / APART;
        self.kept[part].further(self.text.as_bytes(), part * APART, at)
    }
}
