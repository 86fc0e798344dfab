//! Whether field sets hold.

use crate::field_sets::{FieldSetText, field_sets_in};
use crate::reports::FieldSetReports;
use crate::sets::validate_set;
use crate::texts::text_of_field_set;
use graphql_document_checking::{build_document, check_document};
use graphql_documents::documents::{ExecutableDocument, Schema};
use graphql_frontend::{Reports, SourceText, SyntaxReport};
use graphql_nodes::{SourceSpan, ValidationError};
use graphql_parser::{Bounds, SyntaxError, parse_document};
use graphql_syntax::Expected;
use graphql_tokens::{Token, TokenKind};
use graphql_trees::{Definition, Document};
use std::alloc::{AllocError, Global};

/// What is reported of the field sets of a subgraph, if anything is: first the strings that are no field sets, then fields that the types lack and
/// other rules of building, and then the rules that field sets break. Reports are at their places in the texts of the schema; those within a string
/// with an escape sequence are at the place that its value would have. The only error is a failed allocation.
///
/// Apollo Federation 2: `@key`, `@requires`, `@provides`.
pub fn check_field_sets(
    alloc: Global,
    schema: &Schema,
    sources: &[SourceText<'_>],
    trees: &[Document],
    bounds: Bounds,
) -> Result<Option<Reports>, ValidationError> {
    let mut found = FieldSetReports::new(alloc, schema.hash_seed());
    let sets = field_sets_in(alloc, trees)?;
    for set in &sets {
        if let Some(text) = text_of(alloc, sources, *set)? {
            check_text(
                alloc,
                schema,
                set.literal.span,
                text.as_str(),
                bounds,
                &mut found,
            )?;
        }
    }
    Ok(found.into_reports(alloc))
}

/// The text of a field set, as a fragment that is at its place in the text of its file. None, if no text is of the file.
fn text_of(
    alloc: Global,
    sources: &[SourceText<'_>],
    set: FieldSetText<'_>,
) -> Result<Option<String>, AllocError> {
    let span = set.literal.span;
    let Some(source) = sources
        .iter()
        .find(|source| source.file_id.0 == span.file_id.0)
    else {
        return Ok(None);
    };
    let start = usize::try_from(span.start).unwrap_or(usize::MAX);
    let end = usize::try_from(span.end).unwrap_or(usize::MAX);
    let written = source.text.get(start..end).unwrap_or("");
    let ty = set.ty.as_str();
    let text = match fields_of_block(written) {
        Some(fields) => text_of_field_set(alloc, ty, fields, start.saturating_add(2))?,
        None => text_of_field_set(alloc, ty, set.literal.value.as_str(), start)?,
    };
    Ok(Some(text))
}

/// What is between the quotes of a block string.
fn fields_of_block(written: &str) -> Option<&str> {
    written.strip_prefix("\"\"\"")?.strip_suffix("\"\"\"")
}

/// Checks the text of a field set, which is the string at this place.
fn check_text(
    alloc: Global,
    schema: &Schema,
    string: SourceSpan,
    text: &str,
    bounds: Bounds,
    found: &mut FieldSetReports,
) -> Result<(), ValidationError> {
    let file_id = string.file_id;
    match parse_document(alloc, file_id, text, bounds) {
        Ok(tree) => check_tree(alloc, schema, string, &tree, found),
        Err(SyntaxError::OutOfMemory) => Err(ValidationError::OutOfMemory),
        Err(error) => {
            let error = error_in_string(error, string);
            found.syntax.push(SyntaxReport { file_id, error })?;
            Ok(())
        }
    }
}

/// The error as one of the schema: its token is a part of a string, whose last quote is where the text of the field set ends.
fn error_in_string(error: SyntaxError, string: SourceSpan) -> SyntaxError {
    match error {
        SyntaxError::Unexpected(token, expected) => {
            let (start, end) = match token {
                Some(token) => (token.start, token.end),
                None => (string.end.saturating_sub(1), string.end),
            };
            SyntaxError::Unexpected(Some(part_of_string(start, end)), expected)
        }
        other => other,
    }
}

fn part_of_string(start: u32, end: u32) -> Token {
    Token {
        kind: TokenKind::StringValue,
        start,
        end,
    }
}

/// Checks the tree of a field set, which is to be one fragment.
fn check_tree(
    alloc: Global,
    schema: &Schema,
    string: SourceSpan,
    tree: &Document,
    found: &mut FieldSetReports,
) -> Result<(), ValidationError> {
    match tree.definitions.as_slice() {
        [Definition::Fragment(_)] => check_fragment(alloc, schema, tree, found),
        [Definition::Fragment(fragment), ..] => {
            // The fragment ends with a brace that is within the string.
            let end = fragment.span.end;
            let brace = part_of_string(end.saturating_sub(1), end);
            found.syntax.push(SyntaxReport {
                file_id: string.file_id,
                error: SyntaxError::Unexpected(Some(brace), Expected::Selection),
            })?;
            Ok(())
        }
        _ => Ok(()),
    }
}

/// Checks whether the fragment can be built, and then whether its selection set holds, unless field sets before it could not be built.
fn check_fragment(
    alloc: Global,
    schema: &Schema,
    tree: &Document,
    found: &mut FieldSetReports,
) -> Result<(), ValidationError> {
    check_document(&mut found.building, schema, tree)?;
    if !found.building.is_empty() {
        return Ok(());
    }
    let document = build_document(alloc, schema.hash_seed(), schema, tree)?;
    check_built(schema, &document, found)
}

/// Checks whether the selection sets of the fragments hold.
fn check_built(
    schema: &Schema,
    document: &ExecutableDocument,
    found: &mut FieldSetReports,
) -> Result<(), ValidationError> {
    for fragment in document.fragments.values() {
        validate_set(&mut found.rules, schema, &fragment.value.selection_set)?;
    }
    Ok(())
}
