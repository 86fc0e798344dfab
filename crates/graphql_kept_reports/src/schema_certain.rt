//! Reports on what is left of the texts of a schema that are true of the whole texts.

ghost use Rattle.std.specs.Prelude.{◌≡◌, ◌++◌, IfOk, OnOk, filter};
ghost use Rattle.graphql_diagnostics.specs.Diagnostics.{entries};
ghost use Rattle.graphql_kept_reports.specs.SchemaDoubtful.{has_doubtful_of_schema, is_certain_of_schema};

use crate::schema_doubts::SchemaDoubts;
use graphql_diagnostics::{DiagnosticEntry, DiagnosticList};
use graphql_nodes::ValidationError;
use std::alloc::Global;

/// Whether one of these reports on what is left could be false of the whole.
pub fn has_doubtful_of_schema(list: &DiagnosticList, doubts: &SchemaDoubts) -> bool
    ensures { result ≡ has_doubtful_of_schema doubts.now list.now }
{
    list.iter().any(|entry| doubts.has(entry))
}

/// Those of these reports on what is left that cannot be false of the whole, in order. The only error is a failed allocation.
///
/// Specification: 3 Type System.
pub fn certain_of_schema(
    alloc: Global,
    list: DiagnosticList,
    doubts: &SchemaDoubts,
) -> Result<DiagnosticList, ValidationError>
    ensures { IfOk result (λ certain. entries certain ≡ filter (is_certain_of_schema doubts.now) (entries list)) }
{
    let mut certain = DiagnosticList::with_hash_seed(alloc, list.hash_seed());
    add_certain(list.into_entries(), doubts, &mut certain)?;
    Ok(certain)
}

fn add_certain(
    reports: Vec<DiagnosticEntry>,
    doubts: &SchemaDoubts,
    certain: &mut DiagnosticList,
) -> Result<(), ValidationError>
    ensures { OnOk result (entries certain.new ≡ entries certain.old ++ filter (is_certain_of_schema doubts.now) reports.items) }
{
    for entry in reports {
        if !doubts.has(&entry) {
            let (location, details) = entry.into_parts();
            certain.push(location, details)?;
        }
    }
    Ok(())
}
