//! All that is reported of the texts of a schema.

ghost use Rattle.std.specs.Prelude.{All, IfOk};
ghost use Rattle.graphql_kept_projects.specs.Documents.{AreWithFurther};
ghost use Rattle.graphql_frontend.specs.declared.reports.Reports as reports_type;
ghost use Rattle.graphql_kept_projects.specs.Schemas.{AreFurtherOfSchema};

use crate::schema_parts::errors_of_parts;
use crate::schema_rounds::reports_of_left;
use graphql_frontend::{Reports, SourceText, SyntaxReport, ValidationError};
use graphql_parser::Bounds;
use std::alloc::Global;

/// Reports all that is found in the texts of a schema that `read_schema` rejects. The first list is what it reports. If a text is no document, the
/// errors of its other parts come in one more list. If something cannot be built, what is left without it is read as a schema, in up to four rounds,
/// and reports that could be false of the whole texts are not shown. What is left of a subgraph is not read: the rules of `read_schema` are not its
/// own. The only error is a failed allocation.
///
/// Specification: 2.2 Document; 3 Type System.
pub fn all_reports_of_schema(
    alloc: Global,
    sources: &[SourceText<'_>],
    reports: Reports,
    bounds: Bounds,
    is_subgraph: bool,
) -> Result<Vec<Reports>, ValidationError>
    ensures { IfOk result (λ lists. AreWithFurther reports (AreFurtherOfSchema bounds sources.now reports) lists.items) }
{
    let mut lists = further_reports(alloc, sources, &reports, bounds, is_subgraph)?;
    lists.insert(0, reports)?;
    Ok(lists)
}

/// The reports beside these first ones. If there are more than the bounds keep, no more are looked for.
fn further_reports(
    alloc: Global,
    sources: &[SourceText<'_>],
    reports: &Reports,
    bounds: Bounds,
    is_subgraph: bool,
) -> Result<Vec<Reports>, ValidationError>
    ensures { IfOk result (λ further. All (AreFurtherOfSchema bounds sources.now reports.now) further.items) }
{
    match reports {
        Reports::Syntax(errors) => reports_of_parts(alloc, sources, errors, bounds),
        Reports::Building(list) if !is_subgraph => { reports_of_left(alloc, sources, list, bounds) }
        _ => Ok(Vec::new(alloc)),
    }
}

/// The errors of the parts of these texts, if there are any, beside these errors of the texts.
fn reports_of_parts(
    alloc: Global,
    sources: &[SourceText<'_>],
    errors: &[SyntaxReport],
    bounds: Bounds,
) -> Result<Vec<Reports>, ValidationError>
    ensures { (first : reports_type.Reports) → IfOk result (λ further. All (AreFurtherOfSchema bounds sources.now first) further.items) }
{
    let mut further = Vec::new(alloc);
    let errors = errors_of_parts(alloc, sources, errors, bounds)?;
    if !errors.is_empty() {
        further.push(Reports::Syntax(errors))?;
    }
    Ok(further)
}
