//! Why a text is no document.

ghost use Rattle.std.specs.Prelude.{◌≡◌, length};
ghost use Rattle.graphql_parser.specs.Refusals.{error_at};

use graphql_syntax::Expected;
use graphql_tokens::Token;
use thiserror::Error;

/// Why a text is no document within the bounds.
#[derive(Clone, Copy, Debug, PartialEq, Eq, Error)]
pub enum SyntaxError {
    #[error("out of memory")]
    OutOfMemory,
    /// No token begins at this byte.
    #[error("no token begins at byte {0}")]
    NoToken(usize),
    /// At this byte one more token begins than there may be.
    #[error("too many tokens at byte {0}")]
    TooManyTokens(usize),
    /// No document goes on with this token, or ends where there is none; and what was expected there.
    #[error("unexpected token")]
    Unexpected(Option<Token>, Expected),
    /// With this token more brackets and braces are open than may be.
    #[error("too deep")]
    TooDeep(Token),
}

impl SyntaxError {
    /// The byte of the text at which the error is: the end of the text where a token is missing there,
    /// and its beginning where memory was refused.
    pub fn at(self, text: &str) -> usize
        ensures { result ≡ error_at text.now self }
    {
        match self {
            SyntaxError::OutOfMemory => 0,
            SyntaxError::NoToken(at) | SyntaxError::TooManyTokens(at) => at,
            SyntaxError::Unexpected(None, _) => text.len(),
            SyntaxError::Unexpected(Some(token), _) | SyntaxError::TooDeep(token) => {
                token.start as usize
            }
        }
    }
}
