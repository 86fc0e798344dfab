//! Tags before template strings.

use crate::tokens::TokenKind;

/// What the tokens before a byte say of a template string that begins there.
#[derive(Clone, Copy)]
pub(crate) enum Tag {
    /// It is no GraphQL.
    Absent,
    /// It is GraphQL.
    Complete,
    /// It would be GraphQL if so many angles of the type arguments of its tag were closed.
    InArguments(usize),
}

impl Tag {
    /// Whether a template string that begins here is GraphQL.
    pub(crate) fn is_complete(self) -> bool {
        matches!(self, Tag::Complete)
    }

    /// The tag after one more token.
    pub(crate) fn after(self, kind: TokenKind) -> Tag {
        match (self, kind) {
            (Tag::InArguments(open), _) => in_arguments(open, kind),
            (_, TokenKind::Mark) => Tag::Complete,
            (Tag::Complete, TokenKind::Blank | TokenKind::OpeningParenthesis) => Tag::Complete,
            (Tag::Complete, TokenKind::OpeningAngle) => Tag::InArguments(1),
            _ => Tag::Absent,
        }
    }
}

fn in_arguments(open: usize, kind: TokenKind) -> Tag {
    match kind {
        TokenKind::OpeningAngle => Tag::InArguments(open.saturating_add(1)),
        TokenKind::ClosingAngle if open <= 1 => Tag::Complete,
        TokenKind::ClosingAngle => Tag::InArguments(open - 1),
        _ => Tag::InArguments(open),
    }
}
