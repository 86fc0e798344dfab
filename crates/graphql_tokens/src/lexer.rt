//! The tokens of a whole text.

ghost use Rattle.std.specs.Prelude.{◌≡◌, ◌^◌, ◌<◌, ◌≤◌, List, [], length, IfOk, IfErr, IsTrue, MatchResult};
ghost use Rattle.graphql_tokens.specs.Lexical.{AreTokens, IsRefusal, Scans, token_between};
ghost use Rattle.graphql_tokens.specs.declared.token.Token.{Token};

use crate::ignored::after_ignored;
use crate::scanner;
use crate::token::{Token, TokenKind};
use std::alloc::{AllocError, Global};
use thiserror::Error;

/// A token and what is ignored before it have about so many bytes: memory is found at once for as many tokens.
const BYTES_OF_TOKEN: usize = 5;

/// Where a scan of a text stops.
#[derive(Clone, Copy, Debug, PartialEq, Eq)]
pub enum Stop {
    /// At the end of the text.
    End,
    /// At this byte, where no token begins.
    NoToken(usize),
    /// At this byte, where one more token begins than there may be.
    TooMany(usize),
}

/// The tokens of a text, up to where a scan stopped.
#[derive(Debug, Drop)]
pub struct Scanned {
    pub tokens: Vec<Token>,
    pub stop: Stop,
}

/// Why a text has no tokens within a bound.
#[derive(Clone, Copy, Debug, PartialEq, Eq, Error)]
pub enum LexicalError {
    #[error("out of memory")]
    OutOfMemory,
    /// No token begins at this byte.
    #[error("no token begins at byte {0}")]
    NoToken(usize),
    /// At this byte one more token begins than there may be.
    #[error("too many tokens at byte {0}")]
    TooManyTokens(usize),
}

/// The tokens of the text. Fails at the first place where no token begins, at the first token above
/// the bound, where an allocation fails, and of a text of 4 GiB or more.
///
/// Specification: 2.1.6 Lexical Tokens.
pub fn tokens(alloc: Global, text: &str, bound: usize) -> Result<Vec<Token>, LexicalError>
    ensures found { IfOk result (λ tokens. AreTokens text.now tokens.items × (length tokens.items ≤ bound)) }
    ensures only { (others : List Token) → AreTokens text.now others → length others ≤ bound →
        MatchResult result (λ tokens. tokens.items ≡ others) (λ error. error ≡ LexicalError.OutOfMemory) }
    ensures refused { IfErr result (IsRefusal bound text.now) }
{
    match scan(alloc, text, bound) {
        Err(_) => Err(LexicalError::OutOfMemory),
        Ok(scanned) => {
            let Scanned { tokens, stop } = scanned;
            match stop {
                Stop::End => Ok(tokens),
                Stop::NoToken(at) => Err(LexicalError::NoToken(at)),
                Stop::TooMany(at) => Err(LexicalError::TooManyTokens(at)),
            }
        }
    }
}

/// The tokens of the text, up to its end, to the first place where no token begins, or to the first
/// token above the bound. Fails where an allocation fails, and of a text of 4 GiB or more.
///
/// Specification: 2.1.6 Lexical Tokens.
pub fn scan(alloc: Global, text: &str, bound: usize) -> Result<Scanned, AllocError>
    ensures { IfOk result (λ scanned. Scans bound text.now scanned.tokens.items scanned.stop) }
{
    if text.len() > u32::MAX as usize {
        return Err(AllocError);
    }
    let mut tokens = Vec::with_capacity(alloc, bound.min(text.len() / BYTES_OF_TOKEN))?;
    let stop = scan_into(text, bound, &mut tokens)?;
    Ok(Scanned { tokens, stop })
}

/// Adds the tokens of the text, and answers where the scan stopped.
fn scan_into(text: &str, bound: usize, tokens: &mut Vec<Token>) -> Result<Stop, AllocError>
    requires small { length text.now < 2 ^ 32 }
    requires none { tokens.old.items ≡ [] }
    ensures { IfOk result (λ stop. Scans bound text.now tokens.new.items stop) }
{
    let source = text.as_bytes();
    let total = source.len();
    let mut rest = after_ignored(source);
    while !rest.is_empty() {
        let Some((kind, behind)) = scanner::token(rest) else {
            return Ok(Stop::NoToken(total - rest.len()));
        };
        if tokens.len() == bound {
            return Ok(Stop::TooMany(total - rest.len()));
        }
        tokens.push(token_between(total, kind, rest, behind))?;
        rest = after_ignored(behind);
    }
    Ok(Stop::End)
}

/// Whether the text has no token: all of it is ignored.
///
/// Specification: 2.1.7 Ignored Tokens.
pub fn has_no_token(text: &str) -> bool
    ensures none { IsTrue result → AreTokens text.now [] }
    ensures only { AreTokens text.now [] → IsTrue result }
{
    after_ignored(text.as_bytes()).is_empty()
}

/// The token of this kind between what is left of a text of so many bytes and what is left after it.
#[inline(always)]
fn token_between(total: usize, kind: TokenKind, text: &[u8], rest: &[u8]) -> Token
    requires small { total < 2 ^ 32 }
    requires text { length text.now ≤ total }
    requires rest { length rest.now ≤ total }
    ensures { result ≡ token_between total kind text.now rest.now }
{
    Token {
        kind,
        start: (total - text.len()) as u32,
        end: (total - rest.len()) as u32,
    }
}
