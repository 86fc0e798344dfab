//! Whether a text is one value, as a default value has to be, so that nothing else can follow from it in the printed schema.

ghost use Rattle.std.specs.Prelude.{◌<◌, ◌≤◌, IfOk, IfSome, length};

use std::alloc::{AllocError, Global};

/// Whether the character is one of a number, an enum value, `true`, `false` or `null`.
fn is_of_word(c: u8) -> bool {
    c.is_ascii_alphanumeric() || matches!(c, b'_' | b'-' | b'+' | b'.')
}

/// The place after the word that goes on at the place.
fn end_of_word(text: &[u8], from: usize) -> usize
    requires { from ≤ length text.now }
    ensures { (from ≤ result) × (result ≤ length text.now) }
{
    let mut place = from;
    while place < text.len() && is_of_word(text[place]) {
        place += 1;
    }
    place
}

/// The place after the string in quotes whose first quote is before the place. None, if it has no end on its line.
fn end_of_quoted(text: &[u8], from: usize) -> Option<usize>
    requires { from ≤ length text.now }
    ensures { IfSome result (λ end. (from < end) × (end ≤ length text.now)) }
{
    let mut place = from;
    while place < text.len() {
        match &text[place..] {
            [b'"', ..] => return Some(place + 1),
            [b'\n' | b'\r', ..] => return None,
            [b'\\', b'"' | b'\\', ..] => place += 2,
            _ => place += 1,
        }
    }
    None
}

/// The place after the block string whose first three quotes are before the place. None, if it has no end.
fn end_of_block(text: &[u8], from: usize) -> Option<usize>
    requires { from ≤ length text.now }
    ensures { IfSome result (λ end. (from < end) × (end ≤ length text.now)) }
{
    let mut place = from;
    while place < text.len() {
        match &text[place..] {
            [b'"', b'"', b'"', ..] => return Some(place + 3),
            [b'\\', b'"', b'"', b'"', ..] => place += 4,
            _ => place += 1,
        }
    }
    None
}

/// The place after the string that begins at the place. None, if it has no end.
fn end_of_string(text: &[u8], from: usize) -> Option<usize>
    requires { from < length text.now }
    ensures { IfSome result (λ end. (from < end) × (end ≤ length text.now)) }
{
    match &text[from..] {
        [b'"', b'"', b'"', ..] => end_of_block(text, from + 3),
        _ => end_of_quoted(text, from + 1),
    }
}

/// The place after what begins at the place: a bracket, a word, a string, or a character between values. None, if no constant value
/// has it there. The open brackets are listed by the brackets that close them.
fn step(text: &[u8], place: usize, open: &mut Vec<u8>) -> Result<Option<usize>, AllocError>
    requires { place < length text.now }
    ensures { IfOk result (λ next. IfSome next (λ end. (place < end) × (end ≤ length text.now))) }
{
    match text[place] {
        b'[' => {
            open.push(b']')?;
            Ok(Some(place + 1))
        }
        b'{' => {
            open.push(b'}')?;
            Ok(Some(place + 1))
        }
        c @ (b']' | b'}') => Ok(if open.pop() == Some(c) {
            Some(place + 1)
        } else {
            None
        }),
        b'"' => Ok(end_of_string(text, place)),
        b' ' | b'\t' | b',' | b':' if !open.is_empty() => Ok(Some(place + 1)),
        c if is_of_word(c) => Ok(Some(end_of_word(text, place + 1))),
        _ => Ok(None),
    }
}

/// Whether the text is one word, one string, or one list or object whose brackets and strings are closed. Then the first token of the
/// text begins a value, and if that value has an end, it is the end of the text.
pub(crate) fn is_constant(alloc: Global, text: &str) -> Result<bool, AllocError> {
    let bytes = text.as_bytes();
    let mut open = Vec::new(alloc);
    let mut place = 0;
    while place < bytes.len() {
        let Some(next) = step(bytes, place, &mut open)? else {
            return Ok(false);
        };
        if open.is_empty() {
            return Ok(next == bytes.len());
        }
        place = next;
    }
    Ok(false)
}
