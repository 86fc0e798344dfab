//! Texts, and the documents that they are.

ghost use Rattle.std.specs.Prelude.{◌≡◌, ◌↔◌, ◌++◌, ◌∷◌, [], IfOk, IsTrue, None, Ok, OnOk, Some};
ghost use Rattle.graphql_frontend.specs.Texts.{ParsesOneMore, ParsesTexts};
ghost use Rattle.graphql_parser.specs.Parses.{ParsesDocument};
ghost use Rattle.graphql_parser.specs.Refusals.{IsRefusal};
ghost use Rattle.graphql_trees.specs.declared.documents.Document as document_tree;

use graphql_diagnostics::HashSeed;
use graphql_nodes::{FileId, ValidationError};
use graphql_parser::{Bounds, SyntaxError, parse_document};
use graphql_trees::Document;
use std::alloc::Global;
use std::hash::{DefaultHasher, Hasher};

/// A text, with the number of its file, which its reports name.
#[derive(Clone, Copy)]
pub struct SourceText<'a> {
    pub file_id: FileId,
    pub text: &'a str,
}

/// A text that is no GraphQL document: its file, and why.
#[derive(Debug, Drop)]
pub struct SyntaxReport {
    pub file_id: FileId,
    pub error: SyntaxError,
}

/// The documents that texts are, and the errors of those that are none, in order.
#[derive(Drop)]
pub struct Parsed {
    pub documents: Vec<Document>,
    pub errors: Vec<SyntaxReport>,
}

/// The seed that is drawn from the texts, one after another.
pub fn hash_seed_of(sources: &[SourceText<'_>]) -> HashSeed {
    let mut digest = DefaultHasher::new();
    for source in sources {
        digest.write(source.text.as_bytes());
    }
    HashSeed::new(digest.finish())
}

/// Parses texts. The only error is a failed allocation.
///
/// Specification: 2.2 Document.
pub fn parse_texts(
    alloc: Global,
    sources: &[SourceText<'_>],
    bounds: Bounds,
) -> Result<Parsed, ValidationError>
    ensures { IfOk result (λ parsed. ParsesTexts bounds sources.now parsed.documents.items parsed.errors.items) }
{
    let mut documents = Vec::new(alloc);
    let mut errors = Vec::new(alloc);
    for source in sources {
        parse_text(
            alloc,
            source.file_id,
            source.text,
            bounds,
            &mut documents,
            &mut errors,
        )?;
    }
    Ok(Parsed { documents, errors })
}

/// Adds the document that this text is, or its error.
fn parse_text(
    alloc: Global,
    file_id: FileId,
    text: &str,
    bounds: Bounds,
    documents: &mut Vec<Document>,
    errors: &mut Vec<SyntaxReport>,
) -> Result<(), ValidationError>
    ensures { OnOk result (ParsesOneMore bounds (record { file_id = file_id; text = text.entry }) documents.old.items documents.new.items errors.old.items errors.new.items) }
{
    match parse_document(alloc, file_id, text, bounds) {
        Ok(document) => {
            documents.push(document)?;
            Ok(())
        }
        Err(error) => {
            if is_out_of_memory(error) {
                return Err(ValidationError::OutOfMemory);
            }
            add_error(file_id, error, errors)
        }
    }
}

/// The error of a text that is no document, with its place and reason, and `None` for one that is. The only error of the call is a
/// failed allocation.
///
/// Specification: 2.2 Document.
pub fn syntax_error_of(
    alloc: Global,
    source: SourceText<'_>,
    bounds: Bounds,
) -> Result<Option<SyntaxError>, ValidationError>
    ensures accepted { result ≡ Ok None → (tree : document_tree.Document) × ParsesDocument bounds source.entry.file_id source.entry.text.now tree }
    ensures refused { (e : SyntaxError) → result ≡ Ok (Some e) →
        (tree : document_tree.Document) → ParsesDocument bounds source.entry.file_id source.entry.text.now tree → ⊥ }
    ensures why { (e : SyntaxError) → result ≡ Ok (Some e) → IsRefusal bounds source.entry.file_id source.entry.text.now e }
{
    match parse_document(alloc, source.file_id, source.text, bounds) {
        Ok(document) => {
            drop(document);
            Ok(None)
        }
        Err(error) => {
            if is_out_of_memory(error) {
                return Err(ValidationError::OutOfMemory);
            }
            Ok(Some(error))
        }
    }
}

/// Whether the parser lacked memory.
pub(crate) fn is_out_of_memory(error: SyntaxError) -> bool
    ensures { IsTrue result ↔ (error ≡ SyntaxError.OutOfMemory) }
{
    matches!(error, SyntaxError::OutOfMemory)
}

/// Adds the error of a text.
fn add_error(
    file_id: FileId,
    error: SyntaxError,
    errors: &mut Vec<SyntaxReport>,
) -> Result<(), ValidationError>
    ensures { OnOk result (errors.new.items ≡ errors.old.items ++ record { file_id = file_id; error = error } ∷ []) }
{
    errors.push(SyntaxReport { file_id, error })?;
    Ok(())
}
