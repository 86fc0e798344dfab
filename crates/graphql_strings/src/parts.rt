//! The characters of strings and block strings, with what they stand for.

ghost use Rattle.std.specs.Prelude.{◌≡◌, ℕ, List, ◌++◌, IfOk, OnOk};
ghost use Rattle.graphql_tokens.specs.Characters.{IsRun};
ghost use Rattle.graphql_tokens.specs.Scans.{Gives, belongs};
ghost use Rattle.graphql_strings.specs.Values.{part_value};
ghost use Rattle.graphql_strings.specs.Scans.{string_part_at, source_part_at, block_part_at, all_parts};

use graphql_tokens::characters::{Class, is_source_byte, split_run};
use graphql_tokens::quoted::{escaped_quotes, quotes};
use graphql_tokens::strings::{StringPart, string_character};
use std::alloc::{AllocError, Global};

/// The value of all string characters that come, and the text behind them.
pub(crate) fn string_characters(alloc: Global, text: &[u8]) -> Result<(Vec<u8>, &[u8]), AllocError>
    ensures { IfOk result (λ found. (found.0.items, found.1.now) ≡ all_parts string_part_at text.now) }
{
    let mut value = Vec::new(alloc);
    let mut rest = push_run(&mut value, text, Class::StringText)?;
    while let Some((part, behind)) = string_character(rest) {
        push_part(&mut value, part)?;
        rest = push_run(&mut value, behind, Class::StringText)?;
    }
    Ok((value, rest))
}

/// Appends the bytes of the class at the start of the text. Gives the text behind them.
#[inline(always)]
fn push_run<'a>(value: &mut Vec<u8>, text: &'a [u8], class: Class) -> Result<&'a [u8], AllocError>
    ensures { IfOk result (λ rest. (run : List ℕ) × IsRun (belongs class) text.now run rest.now × (value.new.items ≡ value.old.items ++ run)) }
{
    let (run, rest) = split_run(text, class);
    value.extend_from_slice(run)?;
    Ok(rest)
}

fn push_part(value: &mut Vec<u8>, part: StringPart) -> Result<(), AllocError>
    ensures { OnOk result (value.new.items ≡ value.old.items ++ part_value part) }
{
    match part {
        StringPart::Byte(byte) => Ok(value.push(byte)?),
        StringPart::Escaped(character) => {
            let mut buffer = [0; 4];
            value.extend_from_slice(character.encode_utf8(&mut buffer).as_bytes())
        }
    }
}

/// The raw value of all block string characters that come, and the text behind them.
pub(crate) fn block_characters(alloc: Global, text: &[u8]) -> Result<(Vec<u8>, &[u8]), AllocError>
    ensures { IfOk result (λ found. (found.0.items, found.1.now) ≡ all_parts block_part_at text.now) }
{
    let mut raw = Vec::new(alloc);
    let mut rest = push_run(&mut raw, text, Class::BlockText)?;
    while let Some((part, behind)) = block_character(rest) {
        raw.extend_from_slice(part)?;
        rest = push_run(&mut raw, behind, Class::BlockText)?;
    }
    Ok((raw, rest))
}

/// The raw value of the block string character that the text begins with, and the text behind it.
#[tactic(auto, unfolding(crate::specs::Scans::block_part_at))]
fn block_character(text: &[u8]) -> Option<(&[u8], &[u8])>
    ensures { Gives (λ found. (found.0.now, found.1.now)) result (block_part_at text.now) }
{
    match escaped_quotes(text) {
        Some(rest) => Some((b"\"\"\"", rest)),
        None => match quotes(text) {
            Some(_) => None,
            None => source_character(text),
        },
    }
}

fn source_character(text: &[u8]) -> Option<(&[u8], &[u8])>
    ensures { Gives (λ found. (found.0.now, found.1.now)) result (source_part_at text.now) }
{
    match text {
        [] => None,
        [c, ..] => {
            if is_source_byte(*c) {
                Some(text.split_at(1))
            } else {
                None
            }
        }
    }
}
