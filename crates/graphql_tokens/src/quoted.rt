//! Where strings and block strings end.

ghost use Rattle.std.specs.Prelude.{◌≡◌};
ghost use Rattle.graphql_tokens.specs.Scans.{Gives, quotes_at, escaped_quotes_at, source_byte_at, block_character_at, past_string_character, after_all, quoted_at};

use crate::characters::{Class, after_run, is_source_byte, strip};
use crate::strings::string_character;
use crate::token::TokenKind;

/// The string that the text begins with, its text without the first quote.
///
/// Specification: 2.9.4 String Value.
#[inline(never)]
#[tactic(auto, unfolding(crate::specs::Scans::quoted_at))]
pub(crate) fn quoted(text: &[u8]) -> Option<(TokenKind, &[u8])>
    ensures { Gives (λ found. (found.0, found.1.now)) result (quoted_at text.now) }
{
    match strip(text, b'"') {
        None => {
            let rest = strip(after_string_characters(text), b'"')?;
            Some((TokenKind::StringValue, rest))
        }
        Some(second) => match strip(second, b'"') {
            None => Some((TokenKind::StringValue, second)),
            Some(third) => {
                let rest = quotes(after_block_characters(third))?;
                Some((TokenKind::BlockString, rest))
            }
        },
    }
}

fn after_string_characters(text: &[u8]) -> &[u8]
    ensures { result.now ≡ after_all past_string_character text.now }
{
    let mut rest = after_run(text, Class::StringText);
    while let Some((_part, behind)) = string_character(rest) {
        rest = after_run(behind, Class::StringText);
    }
    rest
}

fn after_block_characters(text: &[u8]) -> &[u8]
    ensures { result.now ≡ after_all block_character_at text.now }
{
    let mut rest = after_run(text, Class::BlockText);
    while let Some(behind) = block_character(rest) {
        rest = after_run(behind, Class::BlockText);
    }
    rest
}

#[tactic(auto, unfolding(crate::specs::Scans::block_character_at))]
fn block_character(text: &[u8]) -> Option<&[u8]>
    ensures { Gives (λ rest. rest.now) result (block_character_at text.now) }
{
    match escaped_quotes(text) {
        Some(rest) => Some(rest),
        None => match quotes(text) {
            Some(_) => None,
            None => source_byte(text),
        },
    }
}

fn source_byte(text: &[u8]) -> Option<&[u8]>
    ensures { Gives (λ rest. rest.now) result (source_byte_at text.now) }
{
    match text {
        [] => None,
        [c, rest @ ..] => { if is_source_byte(*c) { Some(rest) } else { None } }
    }
}

/// The text behind `\"""` at its start.
#[tactic(auto, unfolding(crate::specs::Scans::escaped_quotes_at))]
pub fn escaped_quotes(text: &[u8]) -> Option<&[u8]>
    ensures { Gives (λ rest. rest.now) result (escaped_quotes_at text.now) }
{
    let rest = strip(text, b'\\')?;
    quotes(rest)
}

/// The text behind three quotes at its start.
#[tactic(auto, unfolding(crate::specs::Scans::quotes_at))]
pub fn quotes(text: &[u8]) -> Option<&[u8]>
    ensures { Gives (λ rest. rest.now) result (quotes_at text.now) }
{
    let first = strip(text, b'"')?;
    let second = strip(first, b'"')?;
    strip(second, b'"')
}
