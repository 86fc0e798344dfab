//! What texts use: variables, and fragments.

use graphql_tokens::{Token, TokenKind};

/// What a token is, together with those around it.
#[derive(Clone, Copy)]
pub(crate) enum Meaning<'a> {
    /// Nothing that is sought.
    Nothing,
    /// A variable of this name is used.
    UsesVariable(&'a str),
    /// A fragment of this name is spread.
    Spreads(&'a str),
    /// A fragment of this name is defined, or a field has that name.
    Defines(&'a str),
}

/// What these tokens of a text mean, which follow one another.
///
/// Specification: 2.8 Fragments, 2.10 Variables.
pub(crate) fn meaning_of<'a>(text: &'a str, tokens: &[Token]) -> Meaning<'a> {
    match tokens {
        [first, name, rest @ ..] => match name.kind {
            TokenKind::Name => named(text, *first, text_of(text, *name), rest),
            _ => Meaning::Nothing,
        },
        _ => Meaning::Nothing,
    }
}

/// What a token means before this name and these tokens.
fn named<'a>(text: &'a str, first: Token, name: &'a str, rest: &[Token]) -> Meaning<'a> {
    match first.kind {
        TokenKind::Dollar if !begins_with_colon(rest) => Meaning::UsesVariable(name),
        TokenKind::Spread if name != "on" => Meaning::Spreads(name),
        TokenKind::Name if text_of(text, first) == "fragment" => Meaning::Defines(name),
        _ => Meaning::Nothing,
    }
}

fn begins_with_colon(tokens: &[Token]) -> bool {
    match tokens {
        [first, ..] => matches!(first.kind, TokenKind::Colon),
        [] => false,
    }
}

/// The bytes of a token.
fn text_of(text: &str, token: Token) -> &str {
    text.get(token.start as usize..token.end as usize)
        .unwrap_or("")
}
