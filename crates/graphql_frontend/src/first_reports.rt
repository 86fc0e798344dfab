//! The first reports, if there are more than the bounds keep.

ghost use Rattle.std.specs.Prelude.{◌≡◌, ◌≢◌, ◌≤◌, [], IfOk, IsTrue, OnErr, length, max};
ghost use Rattle.graphql_building_reports.specs.Checks.{reports_of};
ghost use Rattle.graphql_diagnostics.specs.Diagnostics.{entries};
ghost use Rattle.graphql_usage_rules.specs.Lists as kept;

use graphql_building_reports::BuildingReportList;
use graphql_diagnostics::{DiagnosticList, ReportBound};
use graphql_nodes::ValidationError;
use graphql_parser::Bounds;
use graphql_usage_rules::ReportList;

/// How much a list of reports keeps, as the bounds say.
pub fn report_bound(bounds: Bounds) -> ReportBound
    ensures reports { result.reports ≡ bounds.reports }
    ensures bytes { result.bytes ≡ bounds.report_bytes }
{
    ReportBound {
        reports: bounds.reports,
        bytes: bounds.report_bytes,
    }
}

/// Whether a check ended because the list has a report and keeps no more.
pub(crate) fn is_full_of_rules(list: &DiagnosticList, bounds: Bounds) -> bool
    ensures { IsTrue result → (entries list.now ≢ []) × (length (entries list.now) ≤ max bounds.reports 1) }
{
    list.has_more() && !list.is_empty() && list.len() <= bounds.reports.max(1)
}

/// Whether a check by rules that keep texts from being built ended because the list has a report and keeps no more.
pub(crate) fn is_full_of_building_rules(list: &BuildingReportList, bounds: Bounds) -> bool
    ensures { IsTrue result → (reports_of list.now ≢ []) × (length (reports_of list.now) ≤ max bounds.reports 1) }
{
    list.has_more() && !list.is_empty() && list.iter().len() <= bounds.reports.max(1)
}

/// The reports that a check has put into a list: all of them, or the first ones if the check ended because the list keeps no more.
/// Then there are more.
pub(crate) fn kept_reports<T: Drop>(
    list: ReportList<T>,
    checked: Result<(), ValidationError>,
    has_more: &mut bool,
) -> Result<Vec<T>, ValidationError>
    ensures kept { IfOk result (λ reports. reports.items ≡ kept.reports_of list) }
    ensures some { IfOk result (λ reports. OnErr checked (reports.items ≢ [])) }
{
    if let Err(error) = checked {
        if !list.has_more() || list.is_empty() {
            return Err(error);
        }
        *has_more = true;
    }
    Ok(list.into_reports())
}
