//! All that is reported of a document.

ghost use Rattle.std.specs.Prelude.{[], ◌∷◌, All, Contains, IfOk, OnOk, Some};
ghost use Rattle.graphql_frontend.specs.Documents.{ValidatesDocument, ValidatesDocuments};
ghost use Rattle.graphql_frontend.specs.Schemas.{IsUsable};
ghost use Rattle.graphql_kept_projects.specs.Documents.{AreAllReports, AreFurtherOf, AreWithFurther, IsPartOfOne};
ghost use Rattle.graphql_kept_projects.specs.Left.{AreTrueOfLeft};
ghost use Rattle.graphql_kept_reports.specs.Reports.{KeepsReports};

use crate::kept::LeftText;
use crate::parts::{parts_of, with_parts};
use crate::rounds::add_further;
use crate::scopes::{Scope, reports_of};
use graphql_documents::documents::Schema;
use graphql_frontend::{
    ProjectReports, Reports, SourceText, ValidationError, validate_document, validate_documents,
};
use graphql_parser::Bounds;
use std::alloc::Global;
use std::slice::from_ref;

/// Reports all that is found in a document. The first list is what `validate_document` reports; if there is none, the document is valid, and there is
/// no other list. If the text is no document, its parts are validated as well, and if something cannot be built, the rest is. The only error is a failed
/// allocation.
///
/// Specification: 2.2 Document; 5 Validation.
pub fn all_reports_of_document(
    alloc: Global,
    schema: &Schema,
    source: SourceText<'_>,
    bounds: Bounds,
) -> Result<Vec<Reports>, ValidationError>
    requires { IsUsable schema.now }
    ensures { IfOk result (λ lists. AreAllReports (ValidatesDocument bounds (Some schema.now) source.entry)
        (AreFurtherOf bounds schema.now (source.entry ∷ [])) lists.items) }
{
    match validate_document(alloc, schema, source, bounds)? {
        None => Ok(Vec::new(alloc)),
        Some(first) => with_further(alloc, schema, from_ref(&source), first, bounds),
    }
}

/// Reports all that is found in the one document that texts are together. The first list is what `validate_documents` reports; if there is none, the
/// document is valid, and there is no other list. The only error is a failed allocation.
///
/// Specification: 2.2 Document; 5 Validation.
pub fn all_reports_of_documents(
    alloc: Global,
    schema: &Schema,
    sources: &[SourceText<'_>],
    bounds: Bounds,
) -> Result<Vec<Reports>, ValidationError>
    requires { IsUsable schema.now }
    ensures { IfOk result (λ lists. AreAllReports (ValidatesDocuments bounds (Some schema.now) sources.now)
        (AreFurtherOf bounds schema.now sources.now) lists.items) }
{
    match validate_documents(alloc, schema, sources, bounds)? {
        None => Ok(Vec::new(alloc)),
        Some(first) => with_further(alloc, schema, sources, first, bounds),
    }
}

/// These first reports on texts, and what is found beside them.
fn with_further(
    alloc: Global,
    schema: &Schema,
    sources: &[SourceText<'_>],
    first: Reports,
    bounds: Bounds,
) -> Result<Vec<Reports>, ValidationError>
    requires { IsUsable schema.now }
    ensures { IfOk result (λ lists. AreWithFurther first (AreFurtherOf bounds schema.now sources.now) lists.items) }
{
    let parts = parts_of(alloc, sources, &first, bounds)?;
    let mut found = ProjectReports::new(alloc);
    found.push(None, first)?;
    add_all_further(alloc, schema, sources, &parts, bounds, &mut found)?;
    let (lists, _) = found.into_parts();
    Ok(lists)
}

/// Adds what is found in these texts and in their parts, besides what was found.
fn add_all_further(
    alloc: Global,
    schema: &Schema,
    sources: &[SourceText<'_>],
    parts: &[LeftText],
    bounds: Bounds,
    found: &mut ProjectReports,
) -> Result<(), ValidationError>
    requires { IsUsable schema.now }
    ensures { All (IsPartOfOne sources.now) parts.now →
        OnOk result (KeepsReports (AreFurtherOf bounds schema.now sources.now) found.old.lists.items found.new.lists.items) }
{
    let read = with_parts(alloc, sources, parts)?;
    if !parts.is_empty() {
        add_reports(alloc, schema, &read, bounds, found)?;
    }
    add_further(alloc, schema, &read, whole(&read), bounds, found)
}

/// Adds what is reported of these texts together.
fn add_reports(
    alloc: Global,
    schema: &Schema,
    read: &[SourceText<'_>],
    bounds: Bounds,
    found: &mut ProjectReports,
) -> Result<(), ValidationError>
    requires { IsUsable schema.now }
    ensures { OnOk result (KeepsReports (AreTrueOfLeft bounds schema.now read.now) found.old.lists.items found.new.lists.items) }
{
    let further = reports_of(alloc, schema, read, whole(read), bounds)?;
    let (lists, _) = further.into_parts();
    add_all(lists, found)
}

fn add_all(lists: Vec<Reports>, found: &mut ProjectReports) -> Result<(), ValidationError>
    ensures { OnOk result (KeepsReports (Contains lists.items) found.old.lists.items found.new.lists.items) }
{
    for reports in lists {
        found.push(None, reports)?;
    }
    Ok(())
}

/// All of these texts are judged, and none is missing.
fn whole(read: &[SourceText<'_>]) -> Scope {
    Scope {
        judged: read.len(),
        is_whole: true,
    }
}
