ghost use Rattle.std.specs.Prelude.{◌≡◌, ◌↔◌, IsTrue, IsSome, IfSome, string_bytes};
ghost use Rattle.std.proofs.Common.{rules};
ghost use Rattle.std.specs.Hash as fed;
ghost use Rattle.std.specs.Str.{bytes_eq};
ghost use Rattle.std.specs.Cmp.Rules.{comparing, hashing};
ghost use Rattle.std.specs.List.{position};
ghost use Rattle.graphql_numbers.specs.Numbers.{begins_exponent, ends_integer, is_digits, is_exponent, is_fraction, is_fraction_or_exponent, is_signed_digits, IsFloat};

use crate::integers::{are_digits, is_integer_text};
use std::hash::{Hash, Hasher};
use std::marker::Model;

/// A float literal, as its text. Compared by the text.
///
/// Specification: 2.9.2 Float Value.
#[derive(Debug, Drop)]
pub struct FloatValue {
    text: String,
}

impl Model for FloatValue {
    ghost use Rattle.std.specs.Prelude.{ℕ, List, string_bytes};
    ghost use Rattle.graphql_numbers.specs.Numbers.{IsFloat};

    ghost Value = { List ℕ };

    ghost view = { λ v. string_bytes v.text };

    ghost invariant = { λ v. IsFloat (string_bytes v.text) };
}

impl FloatValue {
    /// The literal of this text, or `None` where the text is no float: an integer, then a fraction, an
    /// exponent or both.
    pub fn new(text: String) -> Option<FloatValue>
        ensures float { IsSome result ↔ IsFloat (string_bytes text) }
        ensures text { IfSome result (λ value. value ≡ string_bytes text) }
    {
        if is_float_text(text.as_bytes()) {
            Some(FloatValue { text })
        } else {
            None
        }
    }

    /// The text of the literal.
    pub fn as_str(&self) -> &str
        ensures text { result.now ≡ self.now }
        ensures float { IsFloat self.now }
    {
        self.text.as_str()
    }
}

fn is_float_text(text: &[u8]) -> bool
    ensures { IsTrue result ↔ IsFloat text.now }
{
    let (whole, rest) = text.split_at(end_of_integer(text).unwrap_or(text.len()));
    let (fraction, exponent) = rest.split_at(start_of_exponent(rest).unwrap_or(rest.len()));
    is_integer_text(whole) && is_fraction_or_exponent_text(fraction, exponent)
}

/// Where the first `.`, `e` or `E` is.
fn end_of_integer(text: &[u8]) -> Option<usize>
    ensures { result ≡ position ends_integer text.now }
{
    text.iter().position(|c| is_end_of_integer(*c))
}

/// Where the first `e` or `E` is.
fn start_of_exponent(text: &[u8]) -> Option<usize>
    ensures { result ≡ position begins_exponent text.now }
{
    text.iter().position(|c| is_exponent_mark(*c))
}

fn is_fraction_or_exponent_text(fraction: &[u8], exponent: &[u8]) -> bool
    ensures { result ≡ is_fraction_or_exponent fraction.now exponent.now }
{
    match (fraction, exponent) {
        ([], _) => is_exponent_text(exponent),
        (_, []) => is_fraction_text(fraction),
        _ => is_fraction_text(fraction) && is_exponent_text(exponent),
    }
}

fn is_fraction_text(text: &[u8]) -> bool
    ensures { result ≡ is_fraction text.now }
{
    match text {
        [] => false,
        [point, digits @ ..] => *point == b'.' && is_digits_text(digits),
    }
}

fn is_exponent_text(text: &[u8]) -> bool
    ensures { result ≡ is_exponent text.now }
{
    match text {
        [] => false,
        [mark, digits @ ..] => is_exponent_mark(*mark) && is_signed_digits_text(digits),
    }
}

fn is_signed_digits_text(text: &[u8]) -> bool
    ensures { result ≡ is_signed_digits text.now }
{
    match text {
        [] => false,
        [sign, digits @ ..] => {
            is_digits_text(text) || ((*sign == b'+' || *sign == b'-') && is_digits_text(digits))
        }
    }
}

fn is_digits_text(text: &[u8]) -> bool
    ensures { result ≡ is_digits text.now }
{
    match text {
        [] => false,
        digits => are_digits(digits),
    }
}

fn is_end_of_integer(c: u8) -> bool
    ensures { result ≡ ends_integer c }
{
    c == b'.' || is_exponent_mark(c)
}

fn is_exponent_mark(c: u8) -> bool
    ensures { result ≡ begins_exponent c }
{
    c == b'e' || c == b'E'
}

impl PartialEq for FloatValue {
    ghost eq = { bytes_eq };

    ghost laws = { Prim.search (comparing, rules) };

    fn eq(&self, other: &FloatValue) -> bool {
        self.as_str() == other.as_str()
    }
}

impl Eq for FloatValue {
    ghost laws = { Prim.search (comparing, rules) };
}

impl Hash for FloatValue {
    ghost hash_input = { λ value. fed.str value };

    ghost respects_eq = { Prim.search (hashing, rules) };

    fn hash<H: Hasher>(&self, state: &mut H) {
        self.as_str().hash(state);
    }
}
