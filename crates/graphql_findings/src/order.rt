//! The order of what is shown, in which equal reports come next to one another.

ghost use Rattle.std.specs.Prelude.{◌≡◌, OnOk, IsPermutation, IsSorted};
ghost use Rattle.std.specs.List.{dedup};
ghost use Rattle.graphql_findings.specs.Order.{AreDistinctOf, found_cmp, is_same_found, place_cmp, report_cmp, span_cmp};

use crate::singles::Single;
use graphql_nodes::SourceSpan;
use graphql_shown_reports::ShownReport;
use std::alloc::AllocError;
use std::cmp::Ordering;

/// A report, as it is shown.
#[derive(Drop)]
pub struct Found<'a> {
    pub report: ShownReport,
    pub single: Single<'a>,
}

/// Puts these into order, and keeps each once: of equal ones the first. The only error is a failed allocation.
pub fn keep_distinct(found: &mut Vec<Found<'_>>) -> Result<(), AllocError>
    ensures { OnOk result (AreDistinctOf found.old.items found.new.items) }
{
    sort(found)?;
    drop_equals(found);
    Ok(())
}

/// Puts these into order. Equal ones stay in theirs.
fn sort(found: &mut Vec<Found<'_>>) -> Result<(), AllocError>
    ensures same { IsPermutation found.old.items found.new.items }
    ensures sorted { OnOk result (IsSorted found_cmp found.new.items) }
{
    found.sort_by(|a, b| compare(&a.report, &b.report))
}

/// Drops each that is equal to the last one kept before it.
fn drop_equals(found: &mut Vec<Found<'_>>)
    ensures { found.new.items ≡ dedup is_same_found found.old.items }
{
    found.dedup_by(|next, kept| compare(&next.report, &kept.report) == Ordering::Equal);
}

/// How two reports are ordered: by place, rule and message.
pub(crate) fn compare(a: &ShownReport, b: &ShownReport) -> Ordering
    ensures { result ≡ report_cmp a.now b.now }
{
    match compare_places(a.location, b.location) {
        Ordering::Equal => match a.rule.cmp(b.rule) {
            Ordering::Equal => a.message.as_str().cmp(b.message.as_str()),
            order => order,
        },
        order => order,
    }
}

/// How two places are ordered: none comes first.
fn compare_places(a: Option<SourceSpan>, b: Option<SourceSpan>) -> Ordering
    ensures { result ≡ place_cmp a b }
{
    match (a, b) {
        (Some(a), Some(b)) => compare_spans(a, b),
        (Some(_), None) => Ordering::Greater,
        (None, Some(_)) => Ordering::Less,
        (None, None) => Ordering::Equal,
    }
}

/// How two parts of files are ordered: by file, first byte and end.
fn compare_spans(a: SourceSpan, b: SourceSpan) -> Ordering
    ensures { result ≡ span_cmp a b }
{
    (a.file_id.0, a.start, a.end).cmp(&(b.file_id.0, b.start, b.end))
}
