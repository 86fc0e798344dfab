//! Lists of reports, each with the file of what it is about.

use graphql_diagnostics::{Details, DiagnosticData, DiagnosticEntry};
use graphql_frontend::{ListOperation, OperationMark, ProjectReports, Reports, ValidationError};
use std::alloc::{AllocError, Global};
use std::collections::{BTreeMap, BTreeSet};

/// What a list of reports is about.
#[derive(Drop)]
enum About {
    /// An operation, with the fragments that it reaches.
    Operation(OperationMark),
    /// The fragments of a file that no operation reaches.
    Unused,
}

/// A list of reports, and the number of the file that has what it is about. Its reports may be in other files.
#[derive(Drop)]
pub(crate) struct KeptList {
    file: u32,
    about: About,
    reports: Reports,
}

impl KeptList {
    /// The list, if it is about operations or unused fragments of one file.
    fn of(mark: Option<OperationMark>, reports: Reports) -> Option<KeptList> {
        match mark {
            Some(mark) => {
                let file = mark.location?.file_id.0;
                Some(KeptList {
                    file,
                    about: About::Operation(mark),
                    reports,
                })
            }
            None => {
                let file = file_of_unused(&reports)?;
                Some(KeptList {
                    file,
                    about: About::Unused,
                    reports,
                })
            }
        }
    }

    /// Where it comes among the lists of a project: those about operations come first, in the order of files.
    fn place(&self) -> (bool, u32) {
        (matches!(self.about, About::Unused), self.file)
    }
}

/// The number of the file with the fragments that a list says are unused, if it says that.
fn file_of_unused(reports: &Reports) -> Option<u32> {
    let Reports::DocumentRules(reports) = reports else {
        return None;
    };
    let first = reports.rules.iter().next()?;
    if is_of_unused(first) {
        Some(first.location?.file_id.0)
    } else {
        None
    }
}

fn is_of_unused(entry: &DiagnosticEntry) -> bool {
    matches!(
        entry.details,
        Details::Diagnostic(DiagnosticData::UnusedFragment { .. })
    )
}

/// What is reported of a project, list by list. None, if a list is not about the operations or the unused fragments of one file: about texts
/// that are no documents, names of fragments, definitions that cannot be built, or the definitions of a file together.
pub(crate) fn lists_of(
    alloc: Global,
    found: ProjectReports,
) -> Result<Option<Vec<KeptList>>, AllocError> {
    let (lists, operations) = found.into_parts();
    let mut marks = marks_of(alloc, operations)?;
    let mut kept = Vec::new(alloc);
    for (position, reports) in lists.into_iter().enumerate() {
        let Some(list) = KeptList::of(marks.remove(&position), reports) else {
            return Ok(None);
        };
        kept.push(list)?;
    }
    Ok(Some(kept))
}

/// The operations of lists, by the positions of the lists.
fn marks_of(
    alloc: Global,
    operations: Vec<ListOperation>,
) -> Result<BTreeMap<usize, OperationMark>, AllocError> {
    let mut marks = BTreeMap::new(alloc);
    for of in operations {
        let ListOperation { list, operation } = of;
        marks.insert(list, operation)?;
    }
    Ok(marks)
}

/// What is reported of a project: of the files with these numbers the new lists, and of the others those that were kept, in the order in which a check of
/// the whole project lists them.
pub(crate) fn merged(
    alloc: Global,
    kept: Vec<KeptList>,
    new: Vec<KeptList>,
    files: &BTreeSet<u32>,
) -> Result<ProjectReports, ValidationError> {
    let mut lists = kept;
    lists.retain(|list| !files.contains(&list.file));
    for list in new {
        lists.push(list)?;
    }
    lists.sort_by(|a, b| a.place().cmp(&b.place()))?;
    reports_in(alloc, lists)
}

/// These lists, in order.
fn reports_in(alloc: Global, lists: Vec<KeptList>) -> Result<ProjectReports, ValidationError> {
    let mut found = ProjectReports::new(alloc);
    for list in lists {
        let KeptList { about, reports, .. } = list;
        match about {
            About::Operation(mark) => found.push(Some(mark), reports)?,
            About::Unused => found.push(None, reports)?,
        }
    }
    Ok(found)
}
