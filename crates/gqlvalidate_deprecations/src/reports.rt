//! Reports on deprecated elements.

use graphql_building_reports::BuildingReportList;
use graphql_deprecations::{DeprecatedUsage, deprecated_usages};
use graphql_document_building::build_document;
use graphql_document_checking::check_document;
use graphql_documents::documents::{ExecutableDocument, Schema};
use graphql_hash_seeds::HashSeed;
use graphql_nodes::ValidationError;
use graphql_parser::{Bounds, SyntaxError, parse_document};
use graphql_shown_reports::{ShownReport, SourceText, shown_text};
use std::alloc::Global;

/// The name of the rule that no deprecated element is used.
pub const DEPRECATED_USAGE: &str = "DeprecatedUsage";

/// Reports on what these texts use of the schema that is deprecated, text by text: those of a text are what `deprecated_usages` lists of the
/// document that it is. A text that is no document within these bounds, or cannot be built against the schema, has none. The only error is a
/// failed allocation.
///
/// Specification: 3.13.3 @deprecated.
pub fn deprecation_reports(
    alloc: Global,
    schema: &Schema,
    sources: &[SourceText<'_>],
    bounds: Bounds,
) -> Result<Vec<ShownReport>, ValidationError> {
    let mut reports = Vec::new(alloc);
    for source in sources {
        add_reports(alloc, schema, *source, bounds, &mut reports)?;
    }
    Ok(reports)
}

/// Adds the reports of a text.
fn add_reports(
    alloc: Global,
    schema: &Schema,
    source: SourceText<'_>,
    bounds: Bounds,
    reports: &mut Vec<ShownReport>,
) -> Result<(), ValidationError> {
    let Some(document) = document_in(alloc, schema, source, bounds)? else {
        return Ok(());
    };
    let usages = deprecated_usages(alloc, schema, &document);
    drop(document);
    for usage in &usages? {
        reports.push(report_of(alloc, usage)?)?;
    }
    Ok(())
}

/// The report on a use of a deprecated element.
fn report_of(alloc: Global, usage: &DeprecatedUsage) -> Result<ShownReport, ValidationError> {
    let message = format!(in alloc; "{usage}")?;
    Ok(ShownReport {
        location: usage.place,
        rule: DEPRECATED_USAGE,
        message: shown_text(alloc, message)?,
        original: None,
    })
}

/// The document that a text is, built against the schema, if there is one.
fn document_in(
    alloc: Global,
    schema: &Schema,
    source: SourceText<'_>,
    bounds: Bounds,
) -> Result<Option<ExecutableDocument>, ValidationError> {
    let tree = match parse_document(alloc, source.file_id, source.text, bounds) {
        Ok(tree) => tree,
        Err(SyntaxError::OutOfMemory) => return Err(ValidationError::OutOfMemory),
        Err(_) => return Ok(None),
    };
    let hash_seed = HashSeed::of_text(source.text);
    let mut reports = BuildingReportList::with_hash_seed(alloc, hash_seed);
    check_document(&mut reports, schema, &tree)?;
    if reports.is_empty() {
        Ok(Some(build_document(alloc, hash_seed, schema, &tree)?))
    } else {
        Ok(None)
    }
}
