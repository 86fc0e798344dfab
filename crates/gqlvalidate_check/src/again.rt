//! Documents of which only that is validated again of which something else may be reported than in the last run.

ghost use Rattle.graphql_frontend.specs.Schemas.{IsUsable};

use gqlvalidate_watching::Kept;
use graphql_documents::documents::Schema;
use graphql_frontend::{ProjectReports, SourceText, ValidationError};
use graphql_kept_projects::{Scope, check_project, reports_of};
use graphql_parser::Bounds;
use std::alloc::{AllocError, Global};

/// What is reported of these texts together, as `reports_of` says, with what the last run kept. The only error is a failed allocation.
///
/// Specification: 5 Validation.
pub fn reports_with(
    alloc: Global,
    schema: &Schema,
    read: &[SourceText<'_>],
    scope: Scope,
    bounds: Bounds,
    kept: &mut Kept,
) -> Result<ProjectReports, ValidationError>
    requires { IsUsable schema.now }
{
    match reports_again(alloc, schema, read, scope, bounds, kept)? {
        Some(found) => Ok(found),
        None => reports_of(alloc, schema, read, scope, bounds),
    }
}

/// Validates only the part of a whole project that has to be validated again, and merges its reports with those that the last run
/// kept. `None` if the texts are no whole project, or if all of them have to be validated. The only error is a failed allocation.
fn reports_again(
    alloc: Global,
    schema: &Schema,
    read: &[SourceText<'_>],
    scope: Scope,
    bounds: Bounds,
    kept: &mut Kept,
) -> Result<Option<ProjectReports>, ValidationError>
    requires { IsUsable schema.now }
{
    if !scope.is_whole {
        return Ok(None);
    }
    let Some(part) = kept.part(alloc, read, scope.judged, bounds)? else {
        return Ok(None);
    };
    let found = check_project(alloc, schema, &part.own, &part.lent, bounds)?;
    kept.merge(alloc, &part, found)
}

/// Keeps what is reported of these texts for the next run, if they are a whole project.
pub fn keep(
    alloc: Global,
    read: &[SourceText<'_>],
    scope: Scope,
    bounds: Bounds,
    found: ProjectReports,
    kept: &mut Kept,
) -> Result<(), AllocError> {
    if scope.is_whole {
        kept.keep_reports(alloc, read, scope.judged, bounds, found)?;
    }
    Ok(())
}
