//! Reports one by one.

ghost use Rattle.std.specs.Prelude.{◌≡◌, ◌∷◌, [], ◌++◌, IfOk, OnOk, map};
ghost use Rattle.graphql_findings.specs.Singles.{report_of};
ghost use Rattle.graphql_shown_reports.specs.Reports.TheVariants as all_reports;
ghost use Rattle.graphql_shown_reports.specs.Shown.{building, input_field, listed, more, once_if, syntax, usage, validation};

use graphql_building_reports::{BuildingReport, BuildingReportList};
use graphql_diagnostics::{BuildError, Details, DiagnosticData, DiagnosticEntry, DiagnosticList};
use graphql_documents::documents::Value;
use graphql_input_rules::InputFieldRepetition;
use graphql_nesting::NestingReport;
use graphql_reach::ReachReport;
use graphql_shown_reports::frontend::reports::{DocumentReports, Reports, SchemaReports};
use graphql_shown_reports::frontend::texts::SyntaxReport;
use graphql_shown_reports::frontend::work::WorkReport;
use graphql_usage_rules::VariableMisuse;
use std::alloc::{AllocError, Global};

/// A single report.
#[derive(Clone, Copy)]
pub enum Single<'a> {
    Syntax(&'a SyntaxReport),
    Building(&'a BuildingReport),
    Nesting(&'a NestingReport),
    Reach(&'a ReachReport),
    Work(&'a WorkReport),
    Validation(&'a DiagnosticEntry),
    InputField(&'a InputFieldRepetition),
    Usage(&'a VariableMisuse),
    /// That there are more than are kept.
    More,
}

impl Single<'_> {
    /// Whether the report depends on the operation that reaches its place, and not on the place alone: on variables, or on fields that are
    /// merged.
    pub(crate) fn depends_on_operation(&self) -> bool {
        match self {
            Single::Usage(_) => true,
            Single::Validation(entry) => match &entry.details {
                Details::Diagnostic(diagnostic) => depends_on_variables(diagnostic),
                Details::Build(error) => is_conflict(error),
                Details::RecursionLimit(_) => false,
            },
            _ => false,
        }
    }
}

fn depends_on_variables(diagnostic: &DiagnosticData) -> bool {
    match diagnostic {
        DiagnosticData::UndefinedVariable { .. } | DiagnosticData::DisallowedVariableUsage { .. } =>
            { true }
        DiagnosticData::UnsupportedValueType { value, .. } => {
            matches!(&*value.value, Value::Variable(_))
        }
        _ => false,
    }
}

fn is_conflict(error: &BuildError) -> bool {
    matches!(
        error,
        BuildError::ConflictingFieldName { .. }
            | BuildError::ConflictingFieldArgument { .. }
            | BuildError::ConflictingFieldType { .. }
    )
}

/// The reports one by one, in the order in which they are listed. The only error is a failed allocation.
pub fn singles_of<'a>(alloc: Global, reports: &'a Reports) -> Result<Vec<Single<'a>>, AllocError>
    ensures { IfOk result (λ singles. map report_of singles.items ≡ listed reports.now) }
{
    let mut singles: Vec<Single<'a>> = Vec::new(alloc);
    push_reports(&mut singles, reports)?;
    Ok(singles)
}

/// Adds the reports.
fn push_reports<'a>(singles: &mut Vec<Single<'a>>, reports: &'a Reports) -> Result<(), AllocError>
    ensures { OnOk result (map report_of singles.new.items ≡ map report_of singles.old.items ++ listed reports.now) }
{
    match reports {
        Reports::Syntax(errors) => push_syntax(singles, errors),
        Reports::Building(list) => push_building(singles, list.iter().as_slice()),
        Reports::FirstBuilding(list) => push_first_building(singles, list),
        Reports::Nesting(report) => push(singles, Single::Nesting(report)),
        Reports::Reach(report) => push(singles, Single::Reach(report)),
        Reports::Work(report) => push(singles, Single::Work(report)),
        Reports::SchemaRules(reports) => push_schema(singles, reports),
        Reports::DocumentRules(reports) => push_document(singles, reports),
        Reports::FirstSchemaRules(list) => push_first_rules(singles, list),
        Reports::FirstDocumentRules(list) => push_first_rules(singles, list),
    }
}

/// Adds one report.
fn push<'a>(singles: &mut Vec<Single<'a>>, single: Single<'a>) -> Result<(), AllocError>
    ensures { OnOk result (map report_of singles.new.items ≡ map report_of singles.old.items ++ report_of single.entry ∷ []) }
{
    singles.push(single)?;
    Ok(())
}

/// Adds rules that keep texts from making a schema or a document, and that there are more.
fn push_first_building<'a>(
    singles: &mut Vec<Single<'a>>,
    list: &'a BuildingReportList,
) -> Result<(), AllocError>
    ensures { OnOk result (map report_of singles.new.items ≡ map report_of singles.old.items ++ listed (all_reports.FirstBuilding list.now)) }
{
    push_building(singles, list.iter().as_slice())?;
    push(singles, Single::More)
}

/// Adds rules of validation, and that there are more.
fn push_first_rules<'a>(
    singles: &mut Vec<Single<'a>>,
    list: &'a DiagnosticList,
) -> Result<(), AllocError>
    ensures { OnOk result (map report_of singles.new.items ≡ map report_of singles.old.items ++ listed (all_reports.FirstDocumentRules list.now)) }
{
    push_rules(singles, list.iter().as_slice())?;
    push(singles, Single::More)
}

/// Adds what is reported of a schema.
fn push_schema<'a>(
    singles: &mut Vec<Single<'a>>,
    reports: &'a SchemaReports,
) -> Result<(), AllocError>
    ensures { OnOk result (map report_of singles.new.items ≡ map report_of singles.old.items ++ listed (all_reports.SchemaRules reports.now)) }
{
    push_rules(singles, reports.rules.iter().as_slice())?;
    push_repetitions(singles, &reports.input_fields)?;
    push_more_if(singles, reports.has_more)
}

/// Adds what is reported of a document.
fn push_document<'a>(
    singles: &mut Vec<Single<'a>>,
    reports: &'a DocumentReports,
) -> Result<(), AllocError>
    ensures { OnOk result (map report_of singles.new.items ≡ map report_of singles.old.items ++ listed (all_reports.DocumentRules reports.now)) }
{
    push_rules(singles, reports.rules.iter().as_slice())?;
    push_rules(singles, &reports.undefined_variables)?;
    push_repetitions(singles, &reports.input_fields)?;
    push_misuses(singles, &reports.usages)?;
    push_more_if(singles, reports.has_more)
}

/// Adds that there are more reports than are kept, if there are.
fn push_more_if(singles: &mut Vec<Single<'_>>, has_more: bool) -> Result<(), AllocError>
    ensures { OnOk result (map report_of singles.new.items ≡ map report_of singles.old.items ++ map (λ _. more) (once_if has_more)) }
{
    if has_more {
        push(singles, Single::More)
    } else {
        Ok(())
    }
}

/// Adds texts that are no documents.
fn push_syntax<'a>(
    singles: &mut Vec<Single<'a>>,
    errors: &'a [SyntaxReport],
) -> Result<(), AllocError>
    ensures { OnOk result (map report_of singles.new.items ≡ map report_of singles.old.items ++ map syntax errors.now) }
{
    for error in errors {
        singles.push(Single::Syntax(error))?;
    }
    Ok(())
}

/// Adds rules that keep texts from making a schema or a document.
fn push_building<'a>(
    singles: &mut Vec<Single<'a>>,
    reports: &'a [BuildingReport],
) -> Result<(), AllocError>
    ensures { OnOk result (map report_of singles.new.items ≡ map report_of singles.old.items ++ map building reports.now) }
{
    for report in reports {
        singles.push(Single::Building(report))?;
    }
    Ok(())
}

/// Adds rules of validation.
fn push_rules<'a>(
    singles: &mut Vec<Single<'a>>,
    rules: &'a [DiagnosticEntry],
) -> Result<(), AllocError>
    ensures { OnOk result (map report_of singles.new.items ≡ map report_of singles.old.items ++ map validation rules.now) }
{
    for entry in rules {
        singles.push(Single::Validation(entry))?;
    }
    Ok(())
}

/// Adds repeated input fields.
fn push_repetitions<'a>(
    singles: &mut Vec<Single<'a>>,
    repetitions: &'a [InputFieldRepetition],
) -> Result<(), AllocError>
    ensures { OnOk result (map report_of singles.new.items ≡ map report_of singles.old.items ++ map input_field repetitions.now) }
{
    for repetition in repetitions {
        singles.push(Single::InputField(repetition))?;
    }
    Ok(())
}

/// Adds usages of variables.
fn push_misuses<'a>(
    singles: &mut Vec<Single<'a>>,
    misuses: &'a [VariableMisuse],
) -> Result<(), AllocError>
    ensures { OnOk result (map report_of singles.new.items ≡ map report_of singles.old.items ++ map usage misuses.now) }
{
    for misuse in misuses {
        singles.push(Single::Usage(misuse))?;
    }
    Ok(())
}
