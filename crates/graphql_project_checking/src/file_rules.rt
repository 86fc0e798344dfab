//! The rules that are asked of the definitions of a file together.

ghost use Rattle.std.specs.Prelude.{◌≡◌, ◌≢◌, [], All, Contains, IsOk, IsTrue, OnOk};
ghost use Rattle.graphql_diagnostics.specs.Diagnostics.{entries};
ghost use Rattle.graphql_diagnostics.specs.Reports.{KeepsReports};
ghost use Rattle.graphql_frontend.specs.Documents.{IsOnlyOff};
ghost use Rattle.graphql_frontend.specs.RuleSets.{NamesRuleIn, RuleSet};
ghost use Rattle.graphql_frontend.specs.InputFields.{InputFieldReport, InputFieldsAreUnique};
ghost use Rattle.graphql_project_checking.specs.Silence.{QuietOnlyIf};
ghost use Rattle.graphql_project_checking.specs.Truth.{AreOfDefinitions, AreOfInputFields, AreOfRules, IsDeferEntry};
ghost use Rattle.graphql_frontend.specs.Lists.{reports_of};
ghost use Rattle.graphql_projects.specs.Defer.{LabelsHold};

use graphql_diagnostics::DiagnosticList;
use graphql_documents::documents::ExecutableDocument;
use graphql_frontend::first_reports::report_bound;
use graphql_frontend::{
    Bounds, DocumentReports, InputFieldRepetition, ReportList, Reports, ValidationError,
    check_input_fields,
};
use graphql_operations::validate_defer;
use std::alloc::Global;

/// Reports labels of `@defer` that repeat in a document or are variables, and input fields that object values give again.
///
/// Specification: the incremental delivery proposal, Directive Labels Are Unique; 5.6.3 Input Object Field Uniqueness.
pub(crate) fn check_file_rules(
    alloc: Global,
    document: &ExecutableDocument,
    bounds: Bounds,
    found: &mut Vec<Reports>,
) -> Result<(), ValidationError>
    ensures silence { OnOk result (QuietOnlyIf found.old.items found.new.items (λ off. LabelsHold document.now × InputFieldsAreUnique document.now)) }
    ensures truth { OnOk result (KeepsReports (AreOfDefinitions document.now) found.old.items found.new.items) }
{
    check_labels(alloc, document, bounds, found)?;
    check_values(alloc, document, bounds, found)
}

fn check_labels(
    alloc: Global,
    document: &ExecutableDocument,
    bounds: Bounds,
    found: &mut Vec<Reports>,
) -> Result<(), ValidationError>
    ensures silence { OnOk result (QuietOnlyIf found.old.items found.new.items (λ off. LabelsHold document.now)) }
    ensures truth { OnOk result (KeepsReports (AreOfRules (IsDeferEntry document.now)) found.old.items found.new.items) }
{
    let mut rules = DiagnosticList::with_bound(alloc, document.hash_seed(), report_bound(bounds));
    let checked = validate_defer(document, &mut rules);
    add_rules(alloc, rules, checked, bounds, found)
}

/// Adds the reports of a check, if there are any: the first ones, if the check ended because the list keeps no more.
pub(crate) fn add_rules(
    alloc: Global,
    rules: DiagnosticList,
    checked: Result<(), ValidationError>,
    bounds: Bounds,
    found: &mut Vec<Reports>,
) -> Result<(), ValidationError>
    ensures silence { OnOk result (QuietOnlyIf found.old.items found.new.items (λ off. IsOk checked × All (λ e. NamesRuleIn off e.details) (entries rules))) }
    ensures truth { OnOk result (KeepsReports (AreOfRules (Contains (entries rules))) found.old.items found.new.items) }
{
    match checked {
        Ok(()) => add_all_rules(alloc, rules, found),
        Err(error) => add_first_rules(rules, error, bounds, found),
    }
}

/// Adds the first reports, if a check ended with this error because the list keeps no more.
fn add_first_rules(
    rules: DiagnosticList,
    error: ValidationError,
    bounds: Bounds,
    found: &mut Vec<Reports>,
) -> Result<(), ValidationError>
    ensures some { OnOk result ((off : RuleSet) → ¬ All (IsOnlyOff off) found.new.items) }
    ensures truth { OnOk result (KeepsReports (AreOfRules (Contains (entries rules))) found.old.items found.new.items) }
{
    if !is_full(&rules, bounds) {
        return Err(error);
    }
    found.push(Reports::FirstDocumentRules(rules))?;
    Ok(())
}

fn add_all_rules(
    alloc: Global,
    rules: DiagnosticList,
    found: &mut Vec<Reports>,
) -> Result<(), ValidationError>
    ensures silence { OnOk result (QuietOnlyIf found.old.items found.new.items (λ off. All (λ e. NamesRuleIn off e.details) (entries rules))) }
    ensures truth { OnOk result (KeepsReports (AreOfRules (Contains (entries rules))) found.old.items found.new.items) }
{
    if rules.is_empty() {
        return Ok(());
    }
    found.push(Reports::DocumentRules(DocumentReports {
        rules,
        undefined_variables: Vec::new(alloc),
        input_fields: Vec::new(alloc),
        usages: Vec::new(alloc),
        has_more: false,
    }))?;
    Ok(())
}

/// Whether a check ended because the list has a report and keeps no more.
fn is_full(rules: &DiagnosticList, bounds: Bounds) -> bool
    ensures { IsTrue result → entries rules.now ≢ [] }
{
    rules.has_more() && !rules.is_empty() && rules.len() <= bounds.reports.max(1)
}

fn check_values(
    alloc: Global,
    document: &ExecutableDocument,
    bounds: Bounds,
    found: &mut Vec<Reports>,
) -> Result<(), ValidationError>
    ensures silence { OnOk result (QuietOnlyIf found.old.items found.new.items (λ off. InputFieldsAreUnique document.now)) }
    ensures truth { OnOk result (KeepsReports (AreOfInputFields (InputFieldReport document.now)) found.old.items found.new.items) }
{
    let mut list = ReportList::with_bound(alloc, report_bound(bounds));
    match check_input_fields(&mut list, document) {
        Ok(()) => add_values(alloc, document, list.into_reports(), false, found),
        Err(error) => add_first_values(alloc, document, list, error, found),
    }
}

/// Adds the first repetitions, if a check ended with this error because the list keeps no more.
fn add_first_values(
    alloc: Global,
    document: &ExecutableDocument,
    list: ReportList<InputFieldRepetition>,
    error: ValidationError,
    found: &mut Vec<Reports>,
) -> Result<(), ValidationError>
    ensures some { OnOk result ((off : RuleSet) → ¬ All (IsOnlyOff off) found.new.items) }
    ensures truth { OnOk result (KeepsReports (AreOfInputFields (Contains (reports_of list))) found.old.items found.new.items) }
{
    if list.is_empty() || !list.has_more() {
        return Err(error);
    }
    add_values(alloc, document, list.into_reports(), true, found)
}

fn add_values(
    alloc: Global,
    document: &ExecutableDocument,
    input_fields: Vec<InputFieldRepetition>,
    has_more: bool,
    found: &mut Vec<Reports>,
) -> Result<(), ValidationError>
    ensures silence { OnOk result (QuietOnlyIf found.old.items found.new.items (λ off. input_fields.items ≡ [])) }
    ensures truth { OnOk result (KeepsReports (AreOfInputFields (Contains input_fields.items)) found.old.items found.new.items) }
{
    if input_fields.is_empty() {
        return Ok(());
    }
    found.push(Reports::DocumentRules(DocumentReports {
        rules: DiagnosticList::with_hash_seed(alloc, document.hash_seed()),
        undefined_variables: Vec::new(alloc),
        input_fields,
        usages: Vec::new(alloc),
        has_more,
    }))?;
    Ok(())
}
