//! Why a text is refused, in words.

ghost use Rattle.std.specs.Prelude.{Some};
ghost use Rattle.graphql_syntax_messages.specs.SyntaxMessages.{message_text};

use crate::words::{CharacterWords, ExpectedWords};
use graphql_syntax::Expected;
use std::fmt;

/// Why a text is refused, with what the message shows of it.
#[derive(Clone, Copy, Debug, PartialEq, Eq)]
pub enum SyntaxMessage<'a> {
    OutOfMemory,
    /// This character begins no token.
    UnexpectedCharacter(char),
    /// What begins as a number is none.
    InvalidNumber,
    /// What begins as a string is none.
    InvalidString,
    /// More tokens than this bound.
    TooManyTokens(usize),
    /// Something else was expected in place of this token.
    Unexpected(Expected, &'a str),
    /// Something was expected where the text ends.
    UnexpectedEnd(Expected),
    /// More levels of brackets and braces than this bound.
    TooDeep(usize),
}

impl fmt::Display for SyntaxMessage<'_> {
    ghost output = { λ refused. Some (message_text refused) };

    fn fmt<W: fmt::Write>(&self, f: &mut fmt::Formatter<W>) -> fmt::Result {
        match *self {
            SyntaxMessage::OutOfMemory => f.write_str("out of memory"),
            SyntaxMessage::UnexpectedCharacter(character) => {
                let words = CharacterWords(character);
                write!(f, "unexpected character {words}")
            }
            SyntaxMessage::InvalidNumber => f.write_str("invalid number"),
            SyntaxMessage::InvalidString => f.write_str("invalid string"),
            SyntaxMessage::TooManyTokens(bound) => write!(f, "more than {bound} tokens"),
            SyntaxMessage::Unexpected(expected, found) => {
                let words = ExpectedWords(expected);
                write!(f, "expected {words}, found `{found}`")
            }
            SyntaxMessage::UnexpectedEnd(expected) => {
                let words = ExpectedWords(expected);
                write!(f, "expected {words}, found the end of the text")
            }
            SyntaxMessage::TooDeep(bound) => {
                write!(f, "more than {bound} levels of brackets and braces")
            }
        }
    }
}
