//! Where parts of a text begin.

use std::alloc::{AllocError, Global};

/// The words that begin a definition of an executable document.
///
/// Specification: 2.3 Operations, 2.8 Fragments.
const HEADS: [&str; 4] = ["query", "mutation", "subscription", "fragment"];

/// The bytes at which the parts of a text begin: its first one, and each at which a line begins with a word that begins a definition.
pub(crate) fn part_starts(alloc: Global, text: &str) -> Result<Vec<usize>, AllocError> {
    let mut starts = Vec::new(alloc);
    let mut at = 0_usize;
    for line in text.split('\n') {
        if at == 0 || begins_definition(line) {
            starts.push(at)?;
        }
        at = at.saturating_add(line.len()).saturating_add(1);
    }
    Ok(starts)
}

fn begins_definition(line: &str) -> bool {
    HEADS.iter().any(|head| begins_with_word(line, head))
}

/// Whether the line begins with this word, which neither goes on nor names an argument.
fn begins_with_word(line: &str, word: &str) -> bool {
    match line.strip_prefix(word) {
        Some(rest) => {
            !rest.bytes().next().is_some_and(continues_name) && !rest.trim_start().starts_with(':')
        }
        None => false,
    }
}

/// Whether a name may go on with this byte.
///
/// Specification: 2.1.9 Names.
fn continues_name(byte: u8) -> bool {
    byte.is_ascii_alphanumeric() || byte == b'_'
}
