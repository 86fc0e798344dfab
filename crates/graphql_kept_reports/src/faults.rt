//! What reports say of the parts of texts that are to be left out.

use crate::doubts::Doubts;
use graphql_building_reports::{BuildingReport, BuildingReportList, BuildingRule};
use graphql_diagnostics::{Details, DiagnosticData, DiagnosticEntry, DiagnosticList};
use graphql_kept_texts::Faults;
use std::alloc::{AllocError, Global};

/// Adds what these reports say keeps texts from being built. The only error is a failed allocation.
pub fn add_faults(
    alloc: Global,
    reports: &BuildingReportList,
    faults: &mut Faults,
) -> Result<(), AllocError> {
    for report in reports.iter().as_slice() {
        add_fault(alloc, report, faults)?;
    }
    Ok(())
}

fn add_fault(
    alloc: Global,
    report: &BuildingReport,
    faults: &mut Faults,
) -> Result<(), AllocError> {
    match &report.rule {
        BuildingRule::UndefinedTypeInNamedFragmentTypeCondition { fragment_name, .. } => {
            faults.add_fragment(alloc, fragment_name)?;
        }
        BuildingRule::InvalidFragmentTarget {
            fragment_name: Some(name),
        } => faults.add_fragment(alloc, name)?,
        _ => {}
    }
    faults.add(report.location)
}

/// Adds what those of these reports are about that could be false. The only error is a failed allocation.
pub fn add_doubtful(
    list: &DiagnosticList,
    doubts: &Doubts,
    faults: &mut Faults,
) -> Result<(), AllocError> {
    for entry in list.iter().as_slice() {
        if doubts.has(entry) {
            add_entry(entry, faults)?;
        }
    }
    Ok(())
}

fn add_entry(entry: &DiagnosticEntry, faults: &mut Faults) -> Result<(), AllocError> {
    match &entry.details {
        Details::Diagnostic(DiagnosticData::UnusedVariable { .. }) => {
            faults.add_variable(entry.location)
        }
        _ => faults.add(entry.location),
    }
}
