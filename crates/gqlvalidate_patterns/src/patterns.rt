//! What a pattern is made of.

/// The characters from one to another, both of them too: `a-z`.
#[derive(Clone, Copy, Debug, PartialEq, Drop)]
pub struct CharacterRange {
    pub first: char,
    pub last: char,
}

/// The characters of a path for which a piece of a pattern can stand.
#[derive(Debug, Drop)]
pub enum CharacterSet {
    /// This one alone.
    Only(char),
    /// Each character of which names of files and folders are made: all but `/`.
    OfNames,
    /// Each character.
    Every,
    /// `[a-z]`: the characters of these ranges, but for `/`.
    OneOf(Vec<CharacterRange>),
    /// `[!a-z]`: the other characters, but for `/`.
    NoneOf(Vec<CharacterRange>),
}

/// A piece of a pattern: it stands for some characters of a path, one behind another.
#[derive(Debug, Drop)]
pub enum Piece {
    /// One of these characters.
    One(CharacterSet),
    /// Any number of these characters, none too.
    Many(CharacterSet),
    /// `**/`: any number of folders, none too.
    Folders,
}

/// A part of a pattern.
#[derive(Debug, Drop)]
pub enum Part {
    /// A piece.
    One(Piece),
    /// `{a,b}`: one of these, each of which is pieces in turn.
    Either(Vec<Vec<Piece>>),
}

/// A pattern: parts in turn.
#[derive(Debug, Drop)]
pub struct Pattern {
    /// `!`: the paths for which it stands are taken out of those that the patterns before it select.
    pub takes_out: bool,
    pub parts: Vec<Part>,
}
