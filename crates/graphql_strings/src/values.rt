//! The values of string tokens.

ghost use Rattle.std.specs.Prelude.{◌≡◌, ◌↔◌, ℕ, List, IfOk, IsUtf8, string_bytes};
ghost use Rattle.std.proofs.Common.{rules};
ghost use Rattle.std.specs.Str.{bytes_eq};
ghost use Rattle.std.specs.Cmp.Rules.{comparing};
ghost use Rattle.graphql_tokens.specs.Scans.{Gives};
ghost use Rattle.graphql_strings.specs.Values.{HasStringValue};
ghost use Rattle.graphql_strings.specs.Scans.{ended, characters_bytes_at, block_bytes_at, quoted_bytes_at, string_bytes_at, in_utf8, string_value_at};

use crate::block_strings::block_value;
use crate::parts::{block_characters, string_characters};
use graphql_tokens::characters::{Class, split_run, strip};
use graphql_tokens::quoted::quotes;
use std::alloc::{AllocError, Global};
use std::marker::Model;

/// The value of a string token, a text. Compared by its bytes.
///
/// Specification: 2.9.4 String Value.
#[derive(Debug, Drop)]
pub struct StringValue {
    text: String,
}

impl Model for StringValue {
    ghost use Rattle.std.specs.Prelude.{ℕ, List, string_bytes};

    ghost Value = { List ℕ };

    ghost view = { λ v. string_bytes v.text };
}

impl StringValue {
    /// The value as a string slice.
    pub fn as_str(&self) -> &str
        ensures text { result.now ≡ self.now }
        ensures utf8 { IsUtf8 self.now }
    {
        self.text.as_str()
    }
}

impl PartialEq for StringValue {
    ghost eq = { bytes_eq };

    ghost laws = { Prim.search (comparing, rules) };

    fn eq(&self, other: &StringValue) -> bool {
        self.as_str() == other.as_str()
    }
}

impl Eq for StringValue {
    ghost laws = { Prim.search (comparing, rules) };
}

/// The value of the string or block string that the whole text is, quotes included, or `None` where
/// the text is neither, or stands for no UTF-8. The last cannot be within a text in UTF-8.
///
/// Specification: 2.9.4 String Value, Semantics.
#[tactic(auto, using(crate::proofs::ValueLemmas::value_or_none), unfolding(crate::specs::Scans::string_value_at))]
pub fn string_value(alloc: Global, text: &[u8]) -> Result<Option<StringValue>, AllocError>
    ensures scan { IfOk result (λ found. found ≡ string_value_at text.now) }
    ensures value { IfOk result (λ found. (value : List ℕ) → (found ≡ Some value) ↔ HasStringValue text.now value) }
{
    match string_bytes(alloc, text)? {
        None => Ok(None),
        Some(bytes) => Ok(in_utf8(bytes)),
    }
}

fn in_utf8(bytes: Vec<u8>) -> Option<StringValue>
    ensures { result ≡ in_utf8 bytes.items }
{
    match String::from_utf8(bytes) {
        Ok(text) => Some(StringValue { text }),
        Err(_) => None,
    }
}

/// What the string or block string that the whole text is stands for.
#[tactic(auto, unfolding(crate::specs::Scans::string_bytes_at))]
fn string_bytes(alloc: Global, text: &[u8]) -> Result<Option<Vec<u8>>, AllocError>
    ensures { IfOk result (λ found. Gives (λ bytes. bytes.items) found (string_bytes_at text.now)) }
{
    match strip(text, b'"') {
        None => Ok(None),
        Some(inside) => quoted_bytes(alloc, inside),
    }
}

/// What a string or block string stands for, if this whole text is what follows its first quote.
#[tactic(auto, unfolding(crate::specs::Scans::quoted_bytes_at))]
fn quoted_bytes(alloc: Global, text: &[u8]) -> Result<Option<Vec<u8>>, AllocError>
    ensures { IfOk result (λ found. Gives (λ bytes. bytes.items) found (quoted_bytes_at text.now)) }
{
    match strip(text, b'"') {
        None => characters_bytes(alloc, text),
        Some(second) => match strip(second, b'"') {
            None => Ok(ended(Vec::new(alloc), second)),
            Some(third) => block_bytes(alloc, third),
        },
    }
}

#[tactic(auto, unfolding(crate::specs::Scans::characters_bytes_at))]
fn characters_bytes(alloc: Global, text: &[u8]) -> Result<Option<Vec<u8>>, AllocError>
    ensures { IfOk result (λ found. Gives (λ bytes. bytes.items) found (characters_bytes_at text.now)) }
{
    let (value, rest) = string_characters(alloc, text)?;
    match strip(rest, b'"') {
        None => Ok(None),
        Some(behind) => Ok(ended(value, behind)),
    }
}

fn block_bytes(alloc: Global, text: &[u8]) -> Result<Option<Vec<u8>>, AllocError>
    ensures { IfOk result (λ found. Gives (λ bytes. bytes.items) found (block_bytes_at text.now)) }
{
    let (run, rest) = split_run(text, Class::BlockText);
    match quotes(rest) {
        None => mixed_block_bytes(alloc, text),
        Some(behind) => Ok(ended(block_value(alloc, run)?, behind)),
    }
}

/// What a block string with quotes or backslashes in it stands for, if this whole text is what follows
/// its first three quotes. The raw value is put together from parts.
#[tactic(auto, unfolding(crate::specs::Scans::block_bytes_at))]
fn mixed_block_bytes(alloc: Global, text: &[u8]) -> Result<Option<Vec<u8>>, AllocError>
    ensures { IfOk result (λ found. Gives (λ bytes. bytes.items) found (block_bytes_at text.now)) }
{
    let (raw, rest) = block_characters(alloc, text)?;
    match quotes(rest) {
        None => Ok(None),
        Some(behind) => Ok(ended(block_value(alloc, raw.as_slice())?, behind)),
    }
}

/// The bytes, where nothing is left behind them.
fn ended(bytes: Vec<u8>, behind: &[u8]) -> Option<Vec<u8>>
    ensures { Gives (λ found. found.items) result (ended bytes.items behind.now) }
{
    match behind {
        [] => Some(bytes),
        _ => None,
    }
}
