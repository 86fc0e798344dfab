//! What people write who know other languages.

ghost use Rattle.std.specs.Prelude.{◌≡◌, ◌∷◌, ℕ, IfSome, List, drop, take, true};
ghost use Rattle.graphql_syntax_helps.specs.SyntaxHelps.{HelpsAt, HelpsInNumber, HelpsWithSyntax, HelpsWithToken, IsBehindComma};

use crate::helps::SyntaxHelp;
use crate::strings::help_in_string;
use graphql_parser::SyntaxError;
use graphql_syntax::Expected;
use graphql_tokens::{Token, TokenKind};

/// What helps with a text that is no document, if something is known: why a string or a number is no token, or what stands in the
/// place of a sign that GraphQL has for it.
///
/// Specification: 2.1 Source Text, 2.9.1 Int Value, 2.9.4 String Value.
pub fn help_of_syntax(text: &str, error: SyntaxError) -> Option<SyntaxHelp>
    ensures { IfSome result (HelpsWithSyntax text.now error) }
{
    match error {
        SyntaxError::NoToken(at) => help_at(text.as_bytes(), at),
        SyntaxError::Unexpected(Some(token), expected) => {
            help_with_token(text.as_bytes(), token, expected)
        }
        _ => None,
    }
}

/// What helps where no token begins.
fn help_at(text: &[u8], at: usize) -> Option<SyntaxHelp>
    ensures { IfSome result (HelpsAt (drop at text.now)) }
{
    if text.len() < at {
        return None;
    }
    let (_, rest) = text.split_at(at);
    let (first, behind) = rest.split_first()?;
    help_with_first(*first, behind)
}

/// What helps with no token that begins with this byte.
fn help_with_first(first: u8, behind: &[u8]) -> Option<SyntaxHelp>
    ensures { IfSome result (HelpsAt (first ∷ behind.now)) }
{
    match first {
        b'"' => help_with_quote(behind),
        b'\'' => Some(SyntaxHelp::DoubleQuotes),
        b';' => Some(SyntaxHelp::NoSemicolon),
        b'/' => Some(SyntaxHelp::NumberSign),
        b'-' => help_in_number(behind),
        b'0' => help_with_zero(behind),
        b'1'..=b'9' => Some(SyntaxHelp::UnfinishedNumber),
        _ => None,
    }
}

/// What helps with no token that begins with a quote.
fn help_with_quote(behind: &[u8]) -> Option<SyntaxHelp>
    ensures { IfSome result (HelpsAt (34 ∷ behind.now)) }
{
    if begins_block(behind) {
        Some(SyntaxHelp::BlockString)
    } else {
        help_in_string(behind)
    }
}

/// Whether two more quotes follow a quote.
fn begins_block(behind: &[u8]) -> bool
    ensures { result ≡ true → (rest : List ℕ) × (behind.now ≡ 34 ∷ 34 ∷ rest) }
{
    matches!(behind, [b'"', b'"', ..])
}

/// What helps with no token that begins with a zero.
fn help_with_zero(behind: &[u8]) -> Option<SyntaxHelp>
    ensures { IfSome result (HelpsInNumber (48 ∷ behind.now)) }
{
    match behind {
        [b'0'..=b'9', ..] => Some(SyntaxHelp::LeadingZero),
        _ => Some(SyntaxHelp::UnfinishedNumber),
    }
}

/// What helps with a number that is no token: these are the bytes after its sign.
fn help_in_number(digits: &[u8]) -> Option<SyntaxHelp>
    ensures { IfSome result (HelpsInNumber digits.now) }
{
    match digits {
        [b'0', b'0'..=b'9', ..] => Some(SyntaxHelp::LeadingZero),
        [b'0'..=b'9', ..] => Some(SyntaxHelp::UnfinishedNumber),
        _ => None,
    }
}

/// What helps with a token with which no document goes on.
fn help_with_token(text: &[u8], token: Token, expected: Expected) -> Option<SyntaxHelp>
    ensures { IfSome result (HelpsWithToken text.now token expected) }
{
    match (token.kind, expected) {
        (
            TokenKind::StringValue,
            Expected::Token(TokenKind::Name) | Expected::Selection | Expected::EnumValue,
        ) => Some(SyntaxHelp::NoQuotes),
        (TokenKind::Equals, Expected::Token(TokenKind::Colon)) => Some(SyntaxHelp::Colon),
        (TokenKind::Name, Expected::Definition) if is_behind_comma(text, token) => {
            Some(SyntaxHelp::Ampersand)
        }
        _ => None,
    }
}

/// Whether a comma is before the token, and a space between them at most.
fn is_behind_comma(text: &[u8], token: Token) -> bool
    ensures { result ≡ true → IsBehindComma (take token.start text.now) }
{
    let at = token.start as usize;
    if text.len() < at {
        return false;
    }
    let (before, _) = text.split_at(at);
    matches!(before, [.., b','] | [.., b',', b' '])
}
