//! Whether fragments of files are used.

ghost use Rattle.std.specs.Prelude.{◌∷◌, [], All, IsFalse, OnOk};
ghost use Rattle.graphql_diagnostics.specs.Diagnostics.{entries};
ghost use Rattle.graphql_diagnostics.specs.Reports.{KeepsReports};
ghost use Rattle.graphql_document_checking.specs.Trees.{fragments_in};
ghost use Rattle.graphql_project_checking.specs.Silence.{QuietOnlyIf, ReportsUnused};
ghost use Rattle.graphql_project_checking.specs.Truth.{AreOfRules, IsUnnamedEntry};
ghost use Rattle.graphql_projects.specs.OperationTrees.{fragments_among};
ghost use Rattle.graphql_variables.specs.Uses.{IsNamedIn, names_of};

use crate::building::Building;
use crate::file_rules::add_rules;
use graphql_diagnostics::{Details, DiagnosticData, DiagnosticList};
use graphql_frontend::first_reports::report_bound;
use graphql_frontend::{Reports, ValidationError};
use graphql_pools::Used;
use graphql_trees::{Definition, Document, FragmentDefinition};
use std::alloc::Global;

/// Reports each fragment of these documents that no operation reaches, at the fragment.
///
/// Specification: 5.5.1.4 Fragments Must Be Used.
pub(crate) fn check_uses(
    alloc: Global,
    building: Building<'_>,
    documents: &[Document],
    used: &Used<'_>,
    found: &mut Vec<Reports>,
) -> Result<(), ValidationError>
    ensures silence { OnOk result (QuietOnlyIf found.old.items found.new.items
        (λ off. IsFalse off.unused_fragments → All (λ p. IsNamedIn (names_of used.now.keys) p.0) (fragments_among documents.now))) }
    ensures truth { OnOk result (KeepsReports (AreOfRules (IsUnnamedEntry (names_of used.now.keys) (fragments_among documents.now)))
        found.old.items found.new.items) }
{
    for document in documents {
        check_uses_in(alloc, building, document, used, found)?;
    }
    Ok(())
}

fn check_uses_in(
    alloc: Global,
    building: Building<'_>,
    document: &Document,
    used: &Used<'_>,
    found: &mut Vec<Reports>,
) -> Result<(), ValidationError>
    ensures silence { OnOk result (QuietOnlyIf found.old.items found.new.items
        (λ off. IsFalse off.unused_fragments → All (λ p. IsNamedIn (names_of used.now.keys) p.0) (fragments_in document.now.definitions))) }
    ensures truth { OnOk result (KeepsReports (AreOfRules (IsUnnamedEntry (names_of used.now.keys) (fragments_in document.now.definitions)))
        found.old.items found.new.items) }
{
    let bound = report_bound(building.bounds);
    let mut rules = DiagnosticList::with_bound(alloc, building.hash_seed, bound);
    let checked = report_unused(document.definitions.as_slice(), used, &mut rules);
    add_rules(alloc, rules, checked, building.bounds, found)
}

fn report_unused(
    definitions: &[Definition],
    used: &Used<'_>,
    rules: &mut DiagnosticList,
) -> Result<(), ValidationError>
    ensures silence { OnOk result (ReportsUnused (names_of used.now.keys) (fragments_in definitions.now) (entries rules.old) (entries rules.new)) }
    ensures truth { KeepsReports (IsUnnamedEntry (names_of used.now.keys) (fragments_in definitions.now)) (entries rules.old) (entries rules.new) }
{
    for definition in definitions {
        let Definition::Fragment(fragment) = definition else {
            continue;
        };
        check_use(fragment, used, rules)?;
    }
    Ok(())
}

fn check_use(
    fragment: &FragmentDefinition,
    used: &Used<'_>,
    rules: &mut DiagnosticList,
) -> Result<(), ValidationError>
    ensures silence { OnOk result (ReportsUnused (names_of used.now.keys) ((fragment.now.name, fragment.now) ∷ []) (entries rules.old) (entries rules.new)) }
    ensures truth { KeepsReports (IsUnnamedEntry (names_of used.now.keys) ((fragment.now.name, fragment.now) ∷ [])) (entries rules.old) (entries rules.new) }
{
    if used.contains(&&fragment.name) {
        return Ok(());
    }
    let name = fragment.name.clone_in(rules.allocator())?;
    rules.push(
        Some(fragment.span),
        Details::Diagnostic(DiagnosticData::UnusedFragment { name }),
    )
}
