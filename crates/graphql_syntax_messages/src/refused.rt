//! The messages of texts that are no documents.

ghost use Rattle.std.specs.Prelude.{◌≡◌, MatchOption};
ghost use Rattle.graphql_syntax_messages.specs.SyntaxMessages.{IsMessageOf, IsPart, IsUnexpected};

use crate::excerpts::{excerpt, no_token};
use crate::messages::SyntaxMessage;
use graphql_parser::{Bounds, SyntaxError};
use graphql_syntax::Expected;
use graphql_tokens::Token;

/// Why the text is no document within the bounds, where this is its error.
pub fn refused(error: SyntaxError, text: &str, bounds: Bounds) -> SyntaxMessage<'_>
    ensures { IsMessageOf bounds text.now error result }
{
    match error {
        SyntaxError::OutOfMemory => SyntaxMessage::OutOfMemory,
        SyntaxError::NoToken(at) => no_token(part(text, at, text.len())),
        SyntaxError::TooManyTokens(_) => SyntaxMessage::TooManyTokens(bounds.tokens),
        SyntaxError::Unexpected(token, expected) => unexpected(token, expected, text),
        SyntaxError::TooDeep(_) => SyntaxMessage::TooDeep(bounds.depth),
    }
}

fn unexpected(token: Option<Token>, expected: Expected, text: &str) -> SyntaxMessage<'_>
    ensures { MatchOption token (result ≡ SyntaxMessage.UnexpectedEnd expected) (λ found. IsUnexpected text.now found expected result) }
{
    match token {
        Some(token) => {
            let found = part(text, token.start as usize, token.end as usize);
            SyntaxMessage::Unexpected(expected, excerpt(found))
        }
        None => SyntaxMessage::UnexpectedEnd(expected),
    }
}

/// The text between two bytes, if characters begin or the text ends at both.
fn part(text: &str, start: usize, end: usize) -> &str
    ensures { IsPart text.now start end result.now }
{
    text.get(start..end).unwrap_or("")
}
