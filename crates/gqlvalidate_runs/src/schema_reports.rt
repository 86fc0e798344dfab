//! Ends of runs whose schema is reported, or cannot be read.

use crate::accounts::{Account, Extent, Whole};
use crate::bounds::OF_SCHEMA;
use crate::presentations::Presentation;
use gqlvalidate_formats::Reports;
use gqlvalidate_formats::named_texts::{NamedText, Subject};
use gqlvalidate_inputs::faults::Fault;
use gqlvalidate_inputs::statuses::Status;
use std::alloc::Global;
use std::io::Write;

/// A schema of these texts, the first of which has the definitions that every schema has.
pub fn extent_of(named: &[NamedText<'_>]) -> Extent {
    Extent {
        whole: Whole::Schema,
        schema_files: named.len().saturating_sub(1),
    }
}

/// Ends a run with the lists of reports of a schema.
pub fn reject<O: Write, F: Write>(
    alloc: Global,
    lists: &[Reports],
    subject: Subject<'_>,
    presentation: Presentation,
    output: &mut O,
    faults: &mut F,
) -> Result<Status, Fault> {
    let mut account = Account::new(alloc, presentation)?;
    account.report(alloc, lists, None, subject, OF_SCHEMA, output)?;
    account.end(alloc, extent_of(subject.texts), output, faults)?;
    Ok(Status::Reported)
}

/// Ends a run whose schema cannot be read, since these files cannot.
pub fn end_unread<O: Write, F: Write>(
    alloc: Global,
    unreadable: Vec<String>,
    presentation: Presentation,
    output: &mut O,
    faults: &mut F,
) -> Result<Status, Fault> {
    let mut account = Account::new(alloc, presentation)?;
    account.add_all_unreadable(unreadable)?;
    let extent = Extent {
        whole: Whole::Schema,
        schema_files: 0,
    };
    account.end(alloc, extent, output, faults)?;
    Ok(Status::Unreadable)
}
