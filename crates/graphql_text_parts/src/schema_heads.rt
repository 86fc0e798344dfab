//! Where parts of the text of a schema begin.

use graphql_tokens::{Stop, Token, TokenKind, scan};
use std::alloc::{AllocError, Global};

/// The words that begin a definition or an extension of the type system and come before a name.
///
/// Specification: 3 Type System.
const HEADS: [&str; 7] = [
    "type",
    "interface",
    "input",
    "enum",
    "union",
    "scalar",
    "extend",
];

/// As many times a text is scanned at most.
const MOST_SCANS: usize = 64;

/// The bytes at which the parts of the text of a schema begin: its first one, and each at which a line begins with a word that begins a
/// definition, or with the description of one. None but the first one, if a block string does not end: it may have begun at any of the quotes
/// before.
pub(crate) fn schema_part_starts(alloc: Global, text: &str) -> Result<Vec<usize>, AllocError> {
    let mut starts = only_first(alloc)?;
    let mut from = 0_usize;
    for _ in 0..MOST_SCANS {
        let rest = text.get(from..).unwrap_or("");
        let scanned = scan(alloc, rest, usize::MAX)?;
        add_starts(rest, from, &scanned.tokens, &mut starts)?;
        let Stop::NoToken(at) = scanned.stop else {
            break;
        };
        let behind = rest.get(at..).unwrap_or("");
        if behind.starts_with("\"\"\"") {
            return only_first(alloc);
        }
        let Some(end) = behind.find('\n') else {
            break;
        };
        from = from
            .saturating_add(at)
            .saturating_add(end)
            .saturating_add(1);
    }
    Ok(starts)
}

fn only_first(alloc: Global) -> Result<Vec<usize>, AllocError> {
    let mut starts = Vec::new(alloc);
    starts.push(0)?;
    Ok(starts)
}

/// Adds the bytes at which these tokens of a text begin parts. The text itself begins at this byte.
fn add_starts(
    text: &str,
    from: usize,
    tokens: &[Token],
    starts: &mut Vec<usize>,
) -> Result<(), AllocError> {
    let mut before = None;
    for token in tokens {
        if let Some(start) = part_start(text, before, *token) {
            let start = from.saturating_add(start);
            if starts.last().is_some_and(|last| *last < start) {
                starts.push(start)?;
            }
        }
        before = Some(*token);
    }
    Ok(())
}

/// Where a part begins with this token, or with the description before it.
fn part_start(text: &str, before: Option<Token>, token: Token) -> Option<usize> {
    if !begins_line(text, token) || !begins_definition(text, token) {
        return None;
    }
    match before {
        Some(description) if is_string(description) => {
            begins_line(text, description).then_some(description.start as usize)
        }
        _ => Some(token.start as usize),
    }
}

fn is_string(token: Token) -> bool {
    matches!(token.kind, TokenKind::StringValue | TokenKind::BlockString)
}

/// Whether the token is the first of its line, with no blank before it.
fn begins_line(text: &str, token: Token) -> bool {
    match (token.start as usize).checked_sub(1) {
        Some(before) => matches!(text.as_bytes().get(before), Some(b'\n' | b'\r')),
        None => true,
    }
}

/// Whether the token is a word that begins a definition, and its line goes on as that of a definition does.
fn begins_definition(text: &str, token: Token) -> bool {
    let word = text
        .get(token.start as usize..token.end as usize)
        .unwrap_or("");
    let rest = text.get(token.end as usize..).unwrap_or("");
    let next = rest.bytes().find(|byte| *byte != b' ' && *byte != b'\t');
    match word {
        "schema" => matches!(next, Some(b'{' | b'@')),
        "directive" => matches!(next, Some(b'@')),
        _ => HEADS.contains(&word) && next.is_some_and(begins_name),
    }
}

/// Whether a name may begin with this byte.
///
/// Specification: 2.1.9 Names.
fn begins_name(byte: u8) -> bool {
    byte.is_ascii_alphabetic() || byte == b'_'
}
