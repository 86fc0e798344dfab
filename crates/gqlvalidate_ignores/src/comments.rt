//! The comment of a line.

/// What begins a comment that ignores reports, after its `#` and blanks.
pub const WORD: &str = "gqlvalidate-ignore";

/// A comment that ignores reports.
#[derive(Clone, Copy)]
pub struct Comment<'a> {
    /// Where its `#` is in the line.
    pub at: usize,
    /// No code comes before it on its line.
    pub is_alone: bool,
    /// What comes after its first word.
    pub names: &'a str,
    /// Where that begins in the line.
    pub names_at: usize,
}

/// The comment of a line that ignores reports, if it has one. The line has no line terminator.
///
/// Specification: 2.1.4 Comments.
pub fn comment_of(line: &str) -> Option<Comment<'_>> {
    let word = line.find(WORD)?;
    let (head, tail) = (line.get(..word)?, line.get(word..)?);
    let before = head.trim_end_matches([' ', '\t']).strip_suffix('#')?;
    let names = tail.strip_prefix(WORD)?;
    if !is_ended(names) || is_comment(before) {
        return None;
    }
    Some(Comment {
        at: before.len(),
        is_alone: before.chars().all(|character| is_ignored(character)),
        names,
        names_at: word.saturating_add(WORD.len()),
    })
}

/// Whether the first word of a comment ends before these names.
fn is_ended(names: &str) -> bool {
    match names.chars().next() {
        Some(character) => is_between(character),
        None => true,
    }
}

/// Whether what comes before a `#` on its line begins with a comment, of which the `#` is a part.
fn is_comment(before: &str) -> bool {
    before
        .trim_start_matches([' ', '\t', ',', '\u{feff}'])
        .starts_with('#')
}

/// Whether this character is ignored between tokens.
///
/// Specification: 2.1.7 Ignored Tokens.
fn is_ignored(character: char) -> bool {
    matches!(character, ' ' | '\t' | ',' | '\u{feff}')
}

/// Whether this character comes between the names of a comment.
fn is_between(character: char) -> bool {
    matches!(character, ' ' | '\t' | ',')
}
