//! The operations that reports are about, if these depend on more than their place.

use crate::order::compare;
use crate::singles::{Single, singles_of};
use graphql_nodes::{SourceSpan, ValidationError};
use graphql_parser::Bounds;
use graphql_shown_reports::frontend::project_reports::{OperationMark, ProjectReports};
use graphql_shown_reports::frontend::reports::Reports;
use graphql_shown_reports::frontend::texts::SourceText;
use graphql_shown_reports::{ShownReport, shown_reports};
use std::alloc::{AllocError, Global};
use std::cmp::Ordering;

/// A report that depends on an operation, as it is shown.
#[derive(Drop)]
struct Concern<'a> {
    report: ShownReport,
    operation: &'a OperationMark,
}

/// Reports that depend on operations, in the order of what is shown; of equal ones in the order of their operations.
#[derive(Drop)]
pub struct Concerns<'a> {
    sorted: Vec<Concern<'a>>,
}

impl<'a> Concerns<'a> {
    /// No reports that depend on operations.
    pub fn none(alloc: Global) -> Concerns<'a> {
        Concerns {
            sorted: Vec::new(alloc),
        }
    }

    /// Those reports on operations that depend on them and lie outside of them: in a fragment.
    pub fn of(
        alloc: Global,
        found: &'a ProjectReports,
        sources: &[SourceText<'_>],
        bounds: Bounds,
    ) -> Result<Concerns<'a>, ValidationError> {
        let mut sorted = Vec::new(alloc);
        for of in &found.operations {
            if let Some(reports) = found.lists.get(of.list) {
                add_concerns(alloc, reports, &of.operation, sources, bounds, &mut sorted)?;
            }
        }
        sorted.sort_by(|a, b| compare(&a.report, &b.report))?;
        Ok(Concerns { sorted })
    }

    /// The operations on which this report depends, each once and in order.
    pub fn operations(
        &self,
        alloc: Global,
        report: &ShownReport,
    ) -> Result<Vec<&'a OperationMark>, AllocError> {
        let start = self.sorted.partition_point(|concern| compare(&concern.report, report)
            == Ordering::Less);
        let mut operations: Vec<&'a OperationMark> = Vec::new(alloc);
        for concern in self.sorted.iter().skip(start) {
            if compare(&concern.report, report) != Ordering::Equal {
                break;
            }
            if !operations
                .last()
                .is_some_and(|last| last.location == concern.operation.location)
            {
                operations.push(concern.operation)?;
            }
        }
        Ok(operations)
    }
}

/// Whether one of these reports depends on the operation that reaches its place.
pub fn depend_on_operations(alloc: Global, reports: &Reports) -> Result<bool, AllocError> {
    let singles = singles_of(alloc, reports)?;
    Ok(singles.iter().any(|single| single.depends_on_operation()))
}

fn add_concerns<'a>(
    alloc: Global,
    reports: &Reports,
    operation: &'a OperationMark,
    sources: &[SourceText<'_>],
    bounds: Bounds,
    concerns: &mut Vec<Concern<'a>>,
) -> Result<(), ValidationError> {
    if !depend_on_operations(alloc, reports)? {
        return Ok(());
    }
    let singles = singles_of(alloc, reports)?;
    let shown = shown_reports(alloc, reports, sources, bounds, singles.len())?;
    for (report, single) in shown.into_iter().zip(singles) {
        if single.depends_on_operation() && !lies_in(report.location, operation.location) {
            concerns.push(Concern { report, operation })?;
        }
    }
    Ok(())
}

/// Whether the part of a file is in this other part.
fn lies_in(part: Option<SourceSpan>, whole: Option<SourceSpan>) -> bool {
    match (part, whole) {
        (Some(part), Some(whole)) => {
            part.file_id == whole.file_id && whole.start <= part.start && part.end <= whole.end
        }
        _ => false,
    }
}
