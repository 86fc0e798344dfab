//! A place among tokens.

ghost use Rattle.std.specs.Prelude.{◌≡◌, ℕ, List, [], ◌∷◌, IsTrue, MatchOption, length, drop};
ghost use Rattle.graphql_syntax.specs.Inputs.{AreFloats, are_spelled};
ghost use Rattle.graphql_tokens.specs.Lexical.{Lexes};

use graphql_nodes::FileId;
use graphql_tokens::Token;

/// The tokens of a text that are left, and where the last one that was read ended.
#[derive(Clone, Copy)]
pub struct Cursor<'a> {
    pub source: &'a [u8],
    pub tokens: &'a [Token],
    pub ended: u32,
    pub file_id: FileId,
    ghost spelled: { IsTrue (are_spelled source.now tokens.now) },
    ghost floats: { AreFloats source.now tokens.now },
}

impl<'a> Cursor<'a> {
    ghost use Rattle.graphql_syntax.specs.Reading.{input};

    /// Before the first of these tokens, with which the text begins.
    pub fn new(file_id: FileId, source: &'a [u8], tokens: &'a [Token]) -> Cursor<'a>
        requires { (rest : List ℕ) × Lexes (length source.now) source.now tokens.now rest }
        ensures file_id { result.file_id ≡ file_id }
        ensures source { result.source.now ≡ source.now }
        ensures tokens { result.tokens.now ≡ tokens.now }
        ensures ended { result.ended ≡ 0 }
    {
        Cursor {
            source,
            tokens,
            ended: 0,
            file_id,
        }
    }

    /// The next token, if there is one.
    pub fn next(self) -> Option<Token>
        ensures { MatchOption result ((input self.entry).tokens ≡ [])
            (λ token. (input self.entry).tokens ≡ token ∷ drop 1 (input self.entry).tokens) }
    {
        match self.tokens {
            [] => None,
            [token, ..] => Some(*token),
        }
    }
}
