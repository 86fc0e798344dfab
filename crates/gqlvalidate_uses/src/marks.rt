//! Changes that a text uses.

use crate::changes::is_used;
use crate::selections::add_document;
use crate::uses::Uses;
use graphql_building_reports::BuildingReportList;
use graphql_change_kinds::SchemaChange;
use graphql_document_building::build_document;
use graphql_document_checking::check_document;
use graphql_documents::documents::{ExecutableDocument, Schema};
use graphql_hash_seeds::HashSeed;
use graphql_nodes::{FileId, ValidationError};
use graphql_parser::{Bounds, SyntaxError, parse_document};
use std::alloc::Global;

/// Marks each of these changes of a schema that is about something that the document of this text uses, built against the old schema:
/// there is one mark for each change, in order. A text that is no document, or one that cannot be built, uses nothing. The only error is a
/// failed allocation.
///
/// Specification: 2 Language.
pub fn mark_used(
    alloc: Global,
    schema: &Schema,
    text: &str,
    bounds: Bounds,
    changes: &[SchemaChange],
    marks: &mut [bool],
) -> Result<(), ValidationError> {
    let Some(document) = document_in(alloc, schema, text, bounds)? else {
        return Ok(());
    };
    let mut uses = Uses::new(alloc, schema);
    add_document(alloc, &mut uses, &document)?;
    for (change, mark) in changes.iter().zip(marks.iter_mut()) {
        *mark = *mark || is_used(&uses, &change.change);
    }
    Ok(())
}

/// The document of this text, built against the schema, if there is one.
fn document_in(
    alloc: Global,
    schema: &Schema,
    text: &str,
    bounds: Bounds,
) -> Result<Option<ExecutableDocument>, ValidationError> {
    let tree = match parse_document(alloc, FileId(1), text, bounds) {
        Ok(tree) => tree,
        Err(SyntaxError::OutOfMemory) => return Err(ValidationError::OutOfMemory),
        Err(_) => return Ok(None),
    };
    let hash_seed = HashSeed::of_text(text);
    let mut reports = BuildingReportList::with_hash_seed(alloc, hash_seed);
    check_document(&mut reports, schema, &tree)?;
    if reports.is_empty() {
        Ok(Some(build_document(alloc, hash_seed, schema, &tree)?))
    } else {
        Ok(None)
    }
}
