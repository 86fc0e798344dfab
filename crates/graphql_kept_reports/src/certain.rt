//! Reports on a document without a schema that are true of it against any.

ghost use Rattle.std.specs.Prelude.{◌≡◌, Contains, IfOk, IfSome, OnOk};
ghost use Rattle.graphql_diagnostics.specs.Diagnostics.{entries};
ghost use Rattle.graphql_diagnostics.specs.Reports.{KeepsReports};

use graphql_diagnostics::{Details, DiagnosticData, DiagnosticEntry, DiagnosticList};
use graphql_nodes::ValidationError;
use std::alloc::Global;

/// Adds those of these reports on a document without a schema that need none: variables and arguments that are there twice, variables that are not
/// defined, and those that are not used, if each fragment that is spread is known. The only error is a failed allocation.
///
/// Specification: 5.4.2 Argument Uniqueness, 5.8.1 Variable Uniqueness, 5.8.3 All Variable Uses Defined, 5.8.4 All Variables Used.
pub fn add_certain(
    alloc: Global,
    reports: &[DiagnosticEntry],
    certain: &mut DiagnosticList,
) -> Result<(), ValidationError>
    ensures { OnOk result (KeepsReports (Contains reports.now) (entries certain.old) (entries certain.new)) }
{
    let knows_all = !reports.iter().any(is_of_unknown);
    for entry in reports {
        add_entry(alloc, entry, knows_all, certain)?;
    }
    Ok(())
}

/// Whether a fragment is not known.
fn is_of_unknown(entry: &DiagnosticEntry) -> bool {
    matches!(
        entry.details,
        Details::Diagnostic(DiagnosticData::UndefinedFragment { .. })
    )
}

fn add_entry(
    alloc: Global,
    entry: &DiagnosticEntry,
    knows_all: bool,
    certain: &mut DiagnosticList,
) -> Result<(), ValidationError>
    ensures { OnOk result (KeepsReports (λ e. e ≡ entry.now) (entries certain.old) (entries certain.new)) }
{
    let Details::Diagnostic(diagnostic) = &entry.details else {
        return Ok(());
    };
    match copy_of(alloc, diagnostic, knows_all)? {
        Some(copy) => certain.push(entry.location, Details::Diagnostic(copy)),
        None => Ok(()),
    }
}

/// A copy of what is reported, if it is certain.
fn copy_of(
    alloc: Global,
    diagnostic: &DiagnosticData,
    knows_all: bool,
) -> Result<Option<DiagnosticData>, ValidationError>
    ensures { IfOk result (λ copy. IfSome copy (λ it. it ≡ diagnostic.now)) }
{
    match diagnostic {
        DiagnosticData::UndefinedVariable { name } => {
            let name = name.clone_in(alloc)?;
            Ok(Some(DiagnosticData::UndefinedVariable { name }))
        }
        DiagnosticData::UnusedVariable { name } if knows_all => {
            let name = name.clone_in(alloc)?;
            Ok(Some(DiagnosticData::UnusedVariable { name }))
        }
        DiagnosticData::UniqueVariable {
            name,
            original_definition,
            redefined_definition,
        } => {
            let name = name.clone_in(alloc)?;
            Ok(Some(DiagnosticData::UniqueVariable {
                name,
                original_definition: *original_definition,
                redefined_definition: *redefined_definition,
            }))
        }
        DiagnosticData::UniqueArgument {
            name,
            original_definition,
            redefined_definition,
        } => {
            let name = name.clone_in(alloc)?;
            Ok(Some(DiagnosticData::UniqueArgument {
                name,
                original_definition: *original_definition,
                redefined_definition: *redefined_definition,
            }))
        }
        _ => Ok(None),
    }
}
