//! Brackets that are not closed.

ghost use Rattle.std.specs.Prelude.{◌≡◌, [], IfOk, OnOk, filter, nat_lt, reverse};
ghost use Rattle.graphql_syntax_helps.specs.Brackets.{IsInnermostOpen, IsOpenBefore, IsPlaceOfOpen, closes, is_closed_by, open_after, open_with, opens, place_in, unless_closed};

use graphql_nodes::{FileId, SourceSpan};
use graphql_parser::{Bounds, SyntaxError};
use graphql_tokens::{Token, TokenKind, scan};
use std::alloc::{AllocError, Global};

/// The place of the bracket that `unclosed_bracket` finds, in the file with this text.
///
/// Specification: 2.1.8 Punctuators.
pub fn unclosed_place(
    alloc: Global,
    file_id: FileId,
    text: &str,
    error: SyntaxError,
    bounds: Bounds,
) -> Result<Option<SourceSpan>, AllocError>
    ensures { IfOk result (IsPlaceOfOpen bounds file_id text.now error) }
{
    let bracket = unclosed_bracket(alloc, text, error, bounds)?;
    Ok(place_in(file_id, bracket))
}

/// The place of the token, if there is one, in this file.
fn place_in(file_id: FileId, token: Option<Token>) -> Option<SourceSpan>
    ensures { result ≡ place_in file_id token }
{
    match token {
        Some(token) => Some(SourceSpan {
            file_id,
            start: token.start,
            end: token.end,
        }),
        None => None,
    }
}

/// The innermost bracket, brace or parenthesis that is open where the text ends too early, or where a bracket of another kind
/// is closed. None, if the error is another one, or if none is open. The only error is a failed allocation, which a text of 4 GiB or
/// more also ends with.
///
/// Specification: 2.1.8 Punctuators.
pub fn unclosed_bracket(
    alloc: Global,
    text: &str,
    error: SyntaxError,
    bounds: Bounds,
) -> Result<Option<Token>, AllocError>
    ensures { IfOk result (IsInnermostOpen bounds text.now error) }
{
    match error {
        SyntaxError::Unexpected(None, _) => open_before(alloc, text, text.len(), bounds),
        SyntaxError::Unexpected(Some(token), _) if closes(token.kind) => {
            let bracket = open_before(alloc, text, token.start as usize, bounds)?;
            Ok(unless_closed(token, bracket))
        }
        _ => Ok(None),
    }
}

/// The open bracket, unless this token closes it.
fn unless_closed(token: Token, bracket: Option<Token>) -> Option<Token>
    ensures { result ≡ unless_closed token bracket }
{
    match bracket {
        Some(bracket) if !is_closed_by(bracket.kind, token.kind) => Some(bracket),
        _ => None,
    }
}

/// The innermost bracket that is open before this byte.
fn open_before(
    alloc: Global,
    text: &str,
    at: usize,
    bounds: Bounds,
) -> Result<Option<Token>, AllocError>
    ensures { IfOk result (IsOpenBefore bounds text.now at) }
{
    let scanned = scan(alloc, text, bounds.tokens)?;
    let unclosed = open_among(alloc, &scanned.tokens, at)?;
    Ok(unclosed.last().copied())
}

/// The brackets that are open before this byte, the innermost last.
fn open_among(alloc: Global, tokens: &[Token], at: usize) -> Result<Vec<Token>, AllocError>
    ensures { IfOk result (λ unclosed. reverse unclosed.items ≡ open_after [] (filter (λ t. nat_lt t.start at) tokens.now)) }
{
    let mut unclosed = Vec::new(alloc);
    for token in tokens {
        if (token.start as usize) < at {
            add(&mut unclosed, *token)?;
        }
    }
    Ok(unclosed)
}

/// Adds a bracket that opens, and takes one away for each that closes.
fn add(unclosed: &mut Vec<Token>, token: Token) -> Result<(), AllocError>
    ensures { OnOk result (reverse unclosed.new.items ≡ open_with (reverse unclosed.old.items) token) }
{
    if opens(token.kind) {
        unclosed.push(token)?;
    } else if closes(token.kind) {
        let _closed = unclosed.pop();
    }
    Ok(())
}

fn opens(kind: TokenKind) -> bool
    ensures { result ≡ opens kind }
{
    matches!(
        kind,
        TokenKind::LeftParenthesis | TokenKind::LeftBracket | TokenKind::LeftBrace
    )
}

fn closes(kind: TokenKind) -> bool
    ensures { result ≡ closes kind }
{
    matches!(
        kind,
        TokenKind::RightParenthesis | TokenKind::RightBracket | TokenKind::RightBrace
    )
}

fn is_closed_by(one: TokenKind, other: TokenKind) -> bool
    ensures { result ≡ is_closed_by one other }
{
    matches!(
        (one, other),
        (TokenKind::LeftParenthesis, TokenKind::RightParenthesis)
            | (TokenKind::LeftBracket, TokenKind::RightBracket)
            | (TokenKind::LeftBrace, TokenKind::RightBrace)
    )
}
