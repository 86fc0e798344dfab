//! The operations on which findings depend.

use graphql_nodes::SourceSpan;
use graphql_report_formats::{Finding, Note, OperationMark};
use std::alloc::{AllocError, Global};

/// How many operations have notes.
const NOTED: usize = 3;

/// Notes at the first operations on which a finding depends. The last one says how many others there are.
pub fn operation_notes(alloc: Global, finding: &Finding<'_>) -> Result<Vec<Note>, AllocError> {
    let mut notes = Vec::new(alloc);
    let others = finding.operations.len().saturating_sub(NOTED);
    for (position, operation) in finding.operations.iter().take(NOTED).enumerate() {
        let Some(place) = place_of(operation) else {
            continue;
        };
        let is_last = position.saturating_add(1) == NOTED;
        let message = message_of(alloc, operation, if is_last { others } else { 0 })?;
        notes.push(Note { place, message })?;
    }
    Ok(notes)
}

/// Where the name of an operation is; of one without a name, where the operation is.
pub fn place_of(operation: &OperationMark) -> Option<SourceSpan> {
    match &operation.name {
        Some(name) => name.location(),
        None => operation.location,
    }
}

fn message_of(
    alloc: Global,
    operation: &OperationMark,
    others: usize,
) -> Result<String, AllocError> {
    let mut message = match &operation.name {
        Some(name) => format!(in alloc; "in operation `{name}`")?,
        None => String::from_str(alloc, "in the operation without a name")?,
    };
    if others > 0 {
        write!(&mut message, ", and in {others} more")?;
    }
    Ok(message)
}
