//! What is shown of several lists of reports.

ghost use Rattle.std.specs.Prelude.{◌≡◌, IfOk, OnOk, length};
ghost use Rattle.std.specs.List.{AllZip};
ghost use Rattle.std.specs.Option.{option_copied};
ghost use Rattle.graphql_findings.specs.Findings.{AreShown, Finds, IsFindingOf, IsFoundAs, IsJoined, all_listed};
ghost use Rattle.graphql_shown_reports.specs.Shown.{listed};

use crate::helps::{FindingHelp, help_of};
use crate::notes::notes_of;
use crate::operations::Concerns;
use crate::order::{Found, keep_distinct};
use crate::singles::{Single, singles_of};
use graphql_documents::documents::Schema;
use graphql_nodes::ValidationError;
use graphql_notes::Note;
use graphql_parser::Bounds;
use graphql_shown_reports::frontend::project_reports::{OperationMark, ProjectReports};
use graphql_shown_reports::frontend::reports::Reports;
use graphql_shown_reports::frontend::texts::SourceText;
use graphql_shown_reports::{ShownReport, shown_reports};
use std::alloc::{AllocError, Global};

/// A report as it is shown, with notes on its other places, what helps, if something does, and the operations on which it depends.
#[derive(Debug, Drop)]
pub struct Finding<'a> {
    pub report: ShownReport,
    pub notes: Vec<Note>,
    pub help: Option<FindingHelp<'a>>,
    /// The operations on which the report depends, if it lies in a fragment that they reach.
    pub operations: Vec<&'a OperationMark>,
}

/// What is shown of a run.
#[derive(Debug, Drop)]
pub struct Findings<'a> {
    /// The first ones, in order of file and place.
    pub shown: Vec<Finding<'a>>,
    /// How many there are behind these.
    pub others: usize,
}

/// What is shown of these lists of reports on these texts: each fault once, in the order of files and places, and then of rules
/// and messages; at most so many. Reports are equal if they have one rule, one place and one message: of these the first is
/// shown. A report without a place comes before those that have one. The schema is the one against which the texts were validated:
/// what helps is worked out from it and from the texts. The only error is a failed allocation.
pub fn findings_of<'a>(
    alloc: Global,
    schema: Option<&Schema>,
    reports: &'a [Reports],
    sources: &[SourceText<'_>],
    bounds: Bounds,
    most: usize,
) -> Result<Findings<'a>, ValidationError>
    ensures { IfOk result (AreShown (option_copied schema.entry) sources.now bounds (all_listed reports.now) most) }
{
    findings_beside(alloc, schema, reports, None, sources, bounds, most)
}

/// What is shown of these lists of reports on these texts, as `findings_of` says. If the reports on these texts as a project are
/// given, each finding also names the operations on which it depends. The only error is a failed allocation.
pub fn findings_beside<'a>(
    alloc: Global,
    schema: Option<&Schema>,
    reports: &'a [Reports],
    project: Option<&'a ProjectReports>,
    sources: &[SourceText<'_>],
    bounds: Bounds,
    most: usize,
) -> Result<Findings<'a>, ValidationError>
    ensures { IfOk result (AreShown (option_copied schema.entry) sources.now bounds (all_listed reports.now) most) }
{
    let mut found = found_in(alloc, reports, sources, bounds)?;
    keep_distinct(&mut found)?;
    let others = found.len().saturating_sub(most);
    found.truncate(most);
    let concerns = concerns_in(alloc, project, sources, bounds)?;
    let shown = with_notes(alloc, schema, sources, bounds, &concerns, found)?;
    Ok(Findings { shown, others })
}

fn concerns_in<'a>(
    alloc: Global,
    project: Option<&'a ProjectReports>,
    sources: &[SourceText<'_>],
    bounds: Bounds,
) -> Result<Concerns<'a>, ValidationError> {
    match project {
        Some(project) => Concerns::of(alloc, project, sources, bounds),
        None => Ok(Concerns::none(alloc)),
    }
}

/// All reports as they are shown, one for one and in order.
fn found_in<'a>(
    alloc: Global,
    reports: &'a [Reports],
    sources: &[SourceText<'_>],
    bounds: Bounds,
) -> Result<Vec<Found<'a>>, ValidationError>
    ensures { IfOk result (λ found. AllZip (IsFoundAs sources.now bounds) (all_listed reports.now) found.items) }
{
    let mut found = Vec::new(alloc);
    for reports in reports {
        add_found(alloc, reports, sources, bounds, &mut found)?;
    }
    Ok(found)
}

/// Adds the reports of one list.
fn add_found<'a>(
    alloc: Global,
    reports: &'a Reports,
    sources: &[SourceText<'_>],
    bounds: Bounds,
    found: &mut Vec<Found<'a>>,
) -> Result<(), ValidationError>
    ensures { OnOk result (Finds sources.now bounds (listed reports.now) found.old.items found.new.items) }
{
    let singles = singles_of(alloc, reports)?;
    let shown = shown_reports(alloc, reports, sources, bounds, singles.len())?;
    Ok(join(shown, &singles, found)?)
}

/// Adds these reports, each with the single report that it shows: there are as many of both.
fn join<'a>(
    shown: Vec<ShownReport>,
    singles: &[Single<'a>],
    found: &mut Vec<Found<'a>>,
) -> Result<(), AllocError>
    requires { length shown.items ≡ length singles.now }
    ensures { OnOk result (IsJoined shown.items singles.now found.old.items found.new.items) }
{
    let mut shown = shown.into_iter();
    for single in singles {
        let Some(report) = shown.next() else {
            return Ok(());
        };
        found.push(Found {
            report,
            single: *single,
        })?;
    }
    Ok(())
}

/// These with their notes and help.
fn with_notes<'a>(
    alloc: Global,
    schema: Option<&Schema>,
    sources: &[SourceText<'_>],
    bounds: Bounds,
    concerns: &Concerns<'a>,
    found: Vec<Found<'a>>,
) -> Result<Vec<Finding<'a>>, ValidationError>
    ensures { IfOk result (λ findings. AllZip (IsFindingOf (option_copied schema.entry) sources.now bounds) found.entry.items findings.items) }
{
    let mut findings = Vec::new(alloc);
    for one in found {
        findings.push(finding_of(alloc, schema, sources, bounds, concerns, one)?)?;
    }
    Ok(findings)
}

/// What was found, with its notes and help.
fn finding_of<'a>(
    alloc: Global,
    schema: Option<&Schema>,
    sources: &[SourceText<'_>],
    bounds: Bounds,
    concerns: &Concerns<'a>,
    found: Found<'a>,
) -> Result<Finding<'a>, ValidationError>
    ensures { IfOk result (IsFindingOf (option_copied schema.entry) sources.now bounds found.entry) }
{
    let Found { report, single } = found;
    let notes = notes_of(alloc, sources, bounds, report.location, single)?;
    let help = help_of(alloc, schema, sources, single)?;
    let operations = concerns.operations(alloc, &report)?;
    Ok(Finding {
        report,
        notes,
        help,
        operations,
    })
}
