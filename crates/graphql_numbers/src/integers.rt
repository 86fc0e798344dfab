ghost use Rattle.std.specs.Prelude.{◌≡◌, ◌↔◌, IsTrue, IsSome, IfSome, string_bytes};
ghost use Rattle.std.proofs.Common.{rules};
ghost use Rattle.std.specs.Hash as fed;
ghost use Rattle.std.specs.List.{list_all};
ghost use Rattle.std.specs.Char.{is_ascii_digit};
ghost use Rattle.std.specs.Str.{bytes_eq};
ghost use Rattle.std.specs.Cmp.Rules.{comparing, hashing};
ghost use Rattle.graphql_numbers.specs.Numbers.{is_whole_number, is_integer, integer_value, FitsInt};

use std::hash::{Hash, Hasher};
use std::marker::Model;

/// An integer literal, as its text. Compared by the text.
///
/// Specification: 2.9.1 Int Value.
#[derive(Debug, Drop)]
pub struct IntValue {
    text: String,
}

impl Model for IntValue {
    ghost use Rattle.std.specs.Prelude.{ℕ, List, IsTrue, string_bytes};
    ghost use Rattle.graphql_numbers.specs.Numbers.{is_integer};

    ghost Value = { List ℕ };

    ghost view = { λ v. string_bytes v.text };

    ghost invariant = { λ v. IsTrue (is_integer (string_bytes v.text)) };
}

impl IntValue {
    /// The literal of this text, or `None` where the text is no integer: `-` or nothing, then `0` or
    /// digits that do not begin with `0`.
    pub fn new(text: String) -> Option<IntValue>
        ensures integer { IsSome result ↔ IsTrue (is_integer (string_bytes text)) }
        ensures text { IfSome result (λ value. value ≡ string_bytes text) }
    {
        if is_integer_text(text.as_bytes()) {
            Some(IntValue { text })
        } else {
            None
        }
    }

    /// The text of the literal.
    pub fn as_str(&self) -> &str
        ensures text { result.now ≡ self.now }
        ensures integer { IsTrue (is_integer self.now) }
    {
        self.text.as_str()
    }

    /// The number, where 32 bits hold it.
    ///
    /// Specification: 3.5.1 Int.
    pub fn try_to_i32(&self) -> Option<i32>
        ensures fits { IsSome result ↔ FitsInt (integer_value self.now) }
        ensures value { IfSome result (λ n. n ≡ integer_value self.now) }
    {
        self.as_str().parse::<i32>().ok()
    }
}

pub(crate) fn is_integer_text(text: &[u8]) -> bool
    ensures { result ≡ is_integer text.now }
{
    match text {
        [b'-', whole @ ..] => is_whole_number_text(whole),
        whole => is_whole_number_text(whole),
    }
}

fn is_whole_number_text(text: &[u8]) -> bool
    ensures { result ≡ is_whole_number text.now }
{
    match text {
        [] => false,
        [digit] => digit.is_ascii_digit(),
        [first, rest @ ..] => first.is_ascii_digit() && *first != b'0' && are_digits(rest),
    }
}

pub(crate) fn are_digits(text: &[u8]) -> bool
    ensures { result ≡ list_all is_ascii_digit text.now }
{
    text.iter().all(|c| c.is_ascii_digit())
}

impl PartialEq for IntValue {
    ghost eq = { bytes_eq };

    ghost laws = { Prim.search (comparing, rules) };

    fn eq(&self, other: &IntValue) -> bool {
        self.as_str() == other.as_str()
    }
}

impl Eq for IntValue {
    ghost laws = { Prim.search (comparing, rules) };
}

impl Hash for IntValue {
    ghost hash_input = { λ value. fed.str value };

    ghost respects_eq = { Prim.search (hashing, rules) };

    fn hash<H: Hasher>(&self, state: &mut H) {
        self.as_str().hash(state);
    }
}
