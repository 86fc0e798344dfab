//! Which reports on what is left of texts are known to be true of the whole texts.

ghost use Rattle.std.specs.Prelude.{◌≡◌, OnOk};
ghost use Rattle.graphql_kept_projects.specs.Rounds.{AddsKnown, is_doubtful_list};

use graphql_frontend::{ListOperation, OperationMark, ProjectReports, Reports, ValidationError};
use graphql_kept_reports::Doubts;
use std::alloc::{AllocError, Global};
use std::collections::BTreeMap;

/// Adds those lists of which no report could be false of the whole texts, in order.
pub(crate) fn add_known(
    alloc: Global,
    further: ProjectReports,
    doubts: &Doubts,
    found: &mut ProjectReports,
) -> Result<(), ValidationError>
    ensures { OnOk result (AddsKnown doubts.now further.lists.items found.old.lists.items found.new.lists.items) }
{
    let (lists, operations) = further.into_parts();
    let mut marks = marks_of(alloc, operations)?;
    let mut position = 0_usize;
    for reports in lists {
        let mark = marks.remove(&position);
        position = position.saturating_add(1);
        if !is_doubtful(&reports, doubts) {
            found.push(mark, reports)?;
        }
    }
    Ok(())
}

/// The operations of lists, by the positions of the lists.
pub(crate) fn marks_of(
    alloc: Global,
    operations: Vec<ListOperation>,
) -> Result<BTreeMap<usize, OperationMark>, AllocError> {
    let mut marks = BTreeMap::new(alloc);
    for of in operations {
        let ListOperation { list, operation } = of;
        marks.insert(list, operation)?;
    }
    Ok(marks)
}

/// Whether one of the reports could be false of the whole texts. Errors of syntax are: those of the whole texts were found in them.
fn is_doubtful(reports: &Reports, doubts: &Doubts) -> bool
    ensures { result ≡ is_doubtful_list doubts.now reports.now }
{
    match reports {
        Reports::Syntax(_) => true,
        Reports::DocumentRules(reports) => doubts.has_any(&reports.rules),
        Reports::FirstDocumentRules(list) => doubts.has_any(list),
        _ => false,
    }
}
