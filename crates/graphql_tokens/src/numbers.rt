//! Where numbers end.

ghost use Rattle.std.specs.Prelude.{◌≡◌};
ghost use Rattle.graphql_tokens.specs.Scans.{Gives, digits_at, whole_at, integer_at, fraction_at, after_sign, exponent_at, number_behind, number_at};

use crate::characters::{Class, after_run, number_goes_on, strip};
use crate::token::TokenKind;

/// The number that the text begins with.
///
/// Specification: 2.9.1 Int Value, 2.9.2 Float Value.
#[inline(never)]
#[tactic(auto, unfolding(crate::specs::Scans::number_at))]
pub(crate) fn number(text: &[u8]) -> Option<(TokenKind, &[u8])>
    ensures { Gives (λ found. (found.0, found.1.now)) result (number_at text.now) }
{
    let (kind, rest) = number_behind(integer(text)?);
    if number_goes_on(rest) {
        None
    } else {
        Some((kind, rest))
    }
}

/// The kind of a number, and the text behind it, by what follows its integer.
#[tactic(auto, unfolding(crate::specs::Scans::number_behind))]
fn number_behind(whole: &[u8]) -> (TokenKind, &[u8])
    ensures { (result.0, result.1.now) ≡ number_behind whole.now }
{
    match fraction(whole) {
        Some(behind) => match exponent(behind) {
            Some(rest) => (TokenKind::FloatValue, rest),
            None => (TokenKind::FloatValue, behind),
        },
        None => match exponent(whole) {
            Some(rest) => (TokenKind::FloatValue, rest),
            None => (TokenKind::IntValue, whole),
        },
    }
}

#[tactic(auto, unfolding(crate::specs::Scans::integer_at))]
fn integer(text: &[u8]) -> Option<&[u8]>
    ensures { Gives (λ rest. rest.now) result (integer_at text.now) }
{
    match strip(text, b'-') {
        Some(rest) => whole(rest),
        None => whole(text),
    }
}

#[tactic(auto, unfolding(crate::specs::Scans::whole_at))]
fn whole(text: &[u8]) -> Option<&[u8]>
    ensures { Gives (λ rest. rest.now) result (whole_at text.now) }
{
    match text {
        [] => None,
        [c, rest @ ..] => { if *c == b'0' { Some(rest) } else { digits(text) } }
    }
}

#[tactic(auto, unfolding(crate::specs::Scans::fraction_at))]
fn fraction(text: &[u8]) -> Option<&[u8]>
    ensures { Gives (λ rest. rest.now) result (fraction_at text.now) }
{
    let rest = strip(text, b'.')?;
    digits(rest)
}

#[tactic(auto, unfolding(crate::specs::Scans::exponent_at))]
fn exponent(text: &[u8]) -> Option<&[u8]>
    ensures { Gives (λ rest. rest.now) result (exponent_at text.now) }
{
    match text {
        [] => None,
        [c, rest @ ..] => {
            if *c == b'e' || *c == b'E' {
                digits(after_sign(rest))
            } else {
                None
            }
        }
    }
}

fn after_sign(text: &[u8]) -> &[u8]
    ensures { result.now ≡ after_sign text.now }
{
    match text {
        [] => text,
        [c, rest @ ..] => { if *c == b'+' || *c == b'-' { rest } else { text } }
    }
}

/// One digit or more.
#[tactic(auto, unfolding(crate::specs::Scans::digits_at))]
fn digits(text: &[u8]) -> Option<&[u8]>
    ensures { Gives (λ rest. rest.now) result (digits_at text.now) }
{
    match text {
        [] => None,
        [c, rest @ ..] => {
            if c.is_ascii_digit() {
                Some(after_run(rest, Class::Digit))
            } else {
                None
            }
        }
    }
}
