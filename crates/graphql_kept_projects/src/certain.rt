//! What is reported without a schema of texts with something that cannot be built.

ghost use Rattle.std.specs.Prelude.{◌∷◌, [], OnOk};
ghost use Rattle.graphql_kept_projects.specs.Left.{AreRules, AreSomeOf, AreTrueOfOne};
ghost use Rattle.graphql_kept_reports.specs.Reports.{KeepsReports};

use crate::scopes::Scope;
use graphql_frontend::{
    DocumentReports, ProjectReports, Reports, SourceText, ValidationError,
    validate_standalone_document,
};
use graphql_kept_reports::{DiagnosticList, Faults, add_certain};
use graphql_parser::Bounds;
use std::alloc::Global;

/// Adds what is reported without a schema of those of the texts that may have something at fault, if it is true against each schema.
pub(crate) fn add_all_certain(
    alloc: Global,
    read: &[SourceText<'_>],
    scope: Scope,
    faults: &Faults,
    bounds: Bounds,
    found: &mut ProjectReports,
) -> Result<(), ValidationError>
    ensures { OnOk result (KeepsReports (AreTrueOfOne bounds read.now) found.old.lists.items found.new.lists.items) }
{
    let (judged, _) = read.split_at(scope.judged.min(read.len()));
    for source in judged {
        if faults.may_be_in(source.file_id) {
            add_certain_of(alloc, *source, bounds, found)?;
        }
    }
    Ok(())
}

fn add_certain_of(
    alloc: Global,
    source: SourceText<'_>,
    bounds: Bounds,
    found: &mut ProjectReports,
) -> Result<(), ValidationError>
    ensures { OnOk result (KeepsReports (AreTrueOfOne bounds (source.entry ∷ [])) found.old.lists.items found.new.lists.items) }
{
    let reported = validate_standalone_document(alloc, source, bounds)?;
    match &reported {
        Some(Reports::DocumentRules(reports)) => add_reports(alloc, reports, found),
        _ => Ok(()),
    }
}

fn add_reports(
    alloc: Global,
    reports: &DocumentReports,
    found: &mut ProjectReports,
) -> Result<(), ValidationError>
    ensures { OnOk result (KeepsReports (AreSomeOf reports.now) found.old.lists.items found.new.lists.items) }
{
    let mut certain = DiagnosticList::with_hash_seed(alloc, reports.rules.hash_seed());
    add_certain(alloc, reports.rules.iter().as_slice(), &mut certain)?;
    add_certain(alloc, &reports.undefined_variables, &mut certain)?;
    push_rules(alloc, certain, found)
}

/// Adds a list of these reports on rules of validation alone, if there are any.
pub(crate) fn push_rules(
    alloc: Global,
    rules: DiagnosticList,
    found: &mut ProjectReports,
) -> Result<(), ValidationError>
    ensures { OnOk result (KeepsReports (AreRules rules) found.old.lists.items found.new.lists.items) }
{
    if rules.is_empty() {
        return Ok(());
    }
    let reports = DocumentReports {
        rules,
        undefined_variables: Vec::new(alloc),
        input_fields: Vec::new(alloc),
        usages: Vec::new(alloc),
        has_more: false,
    };
    found.push(None, Reports::DocumentRules(reports))
}
