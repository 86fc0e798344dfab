//! Whole texts.

ghost use Rattle.std.specs.Prelude.{◌≡◌, ◌^◌, ◌<◌, length, IfErr, IfOk, MatchResult};
ghost use Rattle.graphql_parser.specs.Parses.{ParsesDocument, whole_input};
ghost use Rattle.graphql_parser.specs.Refusals.{IsRefusal, refused_token, refusal_error, stop_error};
ghost use Rattle.graphql_parser.specs.declared.errors.SyntaxError.TheVariants.{OutOfMemory};
ghost use Rattle.graphql_syntax.specs.Reading.{Reads, input};
ghost use Rattle.graphql_tokens.specs.Lexical.{Scans};
ghost use Rattle.graphql_trees.specs.declared.documents.Document.{Document};

use crate::bounds::Bounds;
use crate::definitions::whole_document;
use crate::errors::SyntaxError;
use graphql_nodes::FileId;
use graphql_syntax::{Cursor, Refusal};
use graphql_tokens::{Scanned, Stop, Token, scan};
use graphql_trees::Document;
use std::alloc::Global;

/// The document that the text is, with the places of its parts in this file. Where the text is no
/// document within the bounds, the error is where no token begins, at the first token above the bound,
/// at a token with which no document begins after those before it, at a bracket or brace that opens too
/// deep, or at the end; and some document begins with the tokens before that place. Fails too where an
/// allocation fails, and of a text of 4 GiB or more.
///
/// Specification: 2.2 Document, and Appendix B Grammar Summary.
pub fn parse_document(
    alloc: Global,
    file_id: FileId,
    text: &str,
    bounds: Bounds,
) -> Result<Document, SyntaxError>
    ensures found { IfOk result (ParsesDocument bounds file_id text.now) }
    ensures only { (tree : Document) → ParsesDocument bounds file_id text.now tree →
        MatchResult result (λ found. found ≡ tree) (λ error. error ≡ OutOfMemory) }
    ensures refused { IfErr result (IsRefusal bounds file_id text.now) }
{
    match scan(alloc, text, bounds.tokens) {
        Err(_) => Err(SyntaxError::OutOfMemory),
        Ok(scanned) => document_of_tokens(alloc, file_id, text, &scanned, bounds),
    }
}

/// The document that the tokens up to where their scan stopped are.
fn document_of_tokens(
    alloc: Global,
    file_id: FileId,
    text: &str,
    scanned: &Scanned,
    bounds: Bounds,
) -> Result<Document, SyntaxError>
    requires { Scans bounds.tokens text.now scanned.now.tokens.items scanned.now.stop }
    ensures found { IfOk result (ParsesDocument bounds file_id text.now) }
    ensures only { (tree : Document) → ParsesDocument bounds file_id text.now tree →
        MatchResult result (λ found. found ≡ tree) (λ error. error ≡ OutOfMemory) }
    ensures refused { IfErr result (IsRefusal bounds file_id text.now) }
{
    let cursor = Cursor::new(file_id, text.as_bytes(), &scanned.tokens);
    match whole_document(alloc, cursor, bounds.depth) {
        Err(refusal) => Err(refusal_error(refusal, cursor, scanned.stop)),
        Ok(document) => match stop_error(scanned.stop) {
            Some(error) => Err(error),
            None => Ok(document),
        },
    }
}

/// The error of a scan that did not come to the end.
fn stop_error(stop: Stop) -> Option<SyntaxError>
    ensures { result ≡ stop_error stop }
{
    match stop {
        Stop::End => None,
        Stop::NoToken(at) => Some(SyntaxError::NoToken(at)),
        Stop::TooMany(at) => Some(SyntaxError::TooManyTokens(at)),
    }
}

/// The refusal of the tokens from here on, as an error of the text that begins with them. Where none of
/// them is refused but their end, and the scan stopped there, the error is that of the scan.
fn refusal_error(refusal: Refusal, cursor: Cursor, stop: Stop) -> SyntaxError
    ensures { result ≡ refusal_error refusal (input cursor.entry).tokens stop }
{
    match refusal {
        Refusal::OutOfMemory => SyntaxError::OutOfMemory,
        Refusal::Unexpected(left, expected) => match refused_token(cursor, left) {
            Some(token) => SyntaxError::Unexpected(Some(token), expected),
            None => match stop_error(stop) {
                Some(error) => error,
                None => SyntaxError::Unexpected(None, expected),
            },
        },
        Refusal::TooDeep(left) => match refused_token(cursor, left) {
            Some(token) => SyntaxError::TooDeep(token),
            None => SyntaxError::OutOfMemory,
        },
    }
}

/// The token from which on so many are left.
#[tactic(auto, unfolding(crate::specs::Refusals::refused_token))]
fn refused_token(cursor: Cursor, left: usize) -> Option<Token>
    ensures { result ≡ refused_token left (input cursor.entry).tokens }
{
    if left > cursor.tokens.len() {
        return None;
    }
    let mut here = cursor;
    for _turn in 0..cursor.tokens.len() - left {
        here = here.behind();
    }
    here.next()
}
