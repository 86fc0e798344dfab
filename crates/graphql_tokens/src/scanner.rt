//! The token that a text begins with.

ghost use Rattle.std.specs.Prelude.{◌≡◌};
ghost use Rattle.graphql_tokens.specs.Lexical.{punctuator};
ghost use Rattle.graphql_tokens.specs.Scans.{Gives, token_at, sign_at};

use crate::characters::{Class, after_run, is_name_start, strip};
use crate::numbers::number;
use crate::quoted::quoted;
use crate::token::TokenKind;

/// The kind of the token that the text begins with, and the text behind it.
///
/// Specification: 2.1.6 Lexical Tokens.
#[inline(always)]
#[tactic(auto, unfolding(crate::specs::Scans::token_at))]
pub(crate) fn token(text: &[u8]) -> Option<(TokenKind, &[u8])>
    ensures { Gives (λ found. (found.0, found.1.now)) result (token_at text.now) }
{
    let [first, rest @ ..] = text else {
        return None;
    };
    if is_name_start(*first) {
        Some((TokenKind::Name, after_run(rest, Class::NamePart)))
    } else if *first == b'-' || first.is_ascii_digit() {
        number(text)
    } else if *first == b'"' {
        quoted(rest)
    } else if *first == b'.' {
        let rest = strip(strip(rest, b'.')?, b'.')?;
        Some((TokenKind::Spread, rest))
    } else {
        sign(*first, rest)
    }
}

#[inline(always)]
#[tactic(auto, unfolding(crate::specs::Scans::sign_at))]
fn sign(first: u8, rest: &[u8]) -> Option<(TokenKind, &[u8])>
    ensures { Gives (λ found. (found.0, found.1.now)) result (sign_at first rest.now) }
{
    let kind = punctuator(first)?;
    Some((kind, rest))
}

#[inline(always)]
fn punctuator(c: u8) -> Option<TokenKind>
    ensures { result ≡ punctuator c }
{
    match c {
        b'!' => Some(TokenKind::ExclamationMark),
        b'$' => Some(TokenKind::Dollar),
        b'&' => Some(TokenKind::Ampersand),
        b'(' => Some(TokenKind::LeftParenthesis),
        b')' => Some(TokenKind::RightParenthesis),
        b':' => Some(TokenKind::Colon),
        b'=' => Some(TokenKind::Equals),
        b'@' => Some(TokenKind::At),
        b'[' => Some(TokenKind::LeftBracket),
        b']' => Some(TokenKind::RightBracket),
        b'{' => Some(TokenKind::LeftBrace),
        b'|' => Some(TokenKind::VerticalBar),
        b'}' => Some(TokenKind::RightBrace),
        _ => None,
    }
}
