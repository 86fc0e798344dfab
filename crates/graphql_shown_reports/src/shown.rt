//! Reports as they are shown: with a message, a rule and places.

ghost use Rattle.std.specs.Prelude.{◌≡◌, ◌∷◌, [], IfOk, List, OnOk, string_bytes, take};
ghost use Rattle.std.specs.List.{AllZip};
ghost use Rattle.graphql_parser.specs.declared.bounds.Bounds as source_bounds;
ghost use Rattle.graphql_frontend.specs.declared.reports.Reports.TheVariants as all_reports;
ghost use Rattle.graphql_frontend.specs.declared.texts.SourceText as source_text;
ghost use Rattle.graphql_shown_reports.specs.Shown.{Shows, ShowsBuilding, ShowsEntry, ShowsMisuse, ShowsMore, ShowsNesting, ShowsReach, ShowsRepetition, ShowsSyntax, ShowsThatMore, ShowsWork, build_error_original, building_original, details_message, details_original, diagnostic_original, error_end, error_span, listed, narrow, once_if, path_limit, text_of, validation_message};

use crate::rule_names::{building_rule, details_rule};
use crate::shown_texts::{shown_copy, shown_text};
use graphql_building_reports::{BuildingReport, BuildingReportList, BuildingRule};
use graphql_diagnostics::{
    BuildError, BuildErrorMessage, Details, DiagnosticData, DiagnosticEntry, DiagnosticList,
};
use graphql_frontend::reports::{DocumentReports, Reports, SchemaReports};
use graphql_frontend::texts::{SourceText, SyntaxReport};
use graphql_frontend::work::WorkReport;
use graphql_input_rules::InputFieldRepetition;
use graphql_nesting::NestingReport;
use graphql_nodes::{FileId, SourceSpan, ValidationError};
use graphql_parser::{Bounds, SyntaxError};
use graphql_reach::ReachReport;
use graphql_syntax_messages::refused::refused;
use graphql_usage_rules::VariableMisuse;
use std::alloc::{AllocError, Global};

/// What is said where a walk passes a limit that its report does not tell.
const RECURSION_MESSAGE: &str = "too much recursion: a limit is passed, and no rule is broken";

/// What is said if there are more reports than are kept.
const MORE_MESSAGE: &str = "there are more reports than are kept";

/// How many fragments a path of spreads may have.
const FRAGMENT_LIMIT: usize = 100;

/// How many input objects, or directives, a path of references may have.
const INPUT_OBJECT_LIMIT: usize = 32;

/// A report as it is shown.
#[derive(Debug, Drop)]
pub struct ShownReport {
    /// Where the rule is broken, if a text says so.
    pub location: Option<SourceSpan>,
    /// The name of the rule, for machines.
    pub rule: &'static str,
    /// What is wrong, for people.
    pub message: String,
    /// Where the first of a repetition is, or the other of two in conflict.
    pub original: Option<SourceSpan>,
}

/// The reports as they are shown, one for one and in order: the first ones, at most so many. A message of more than 2,000 bytes is
/// cut. The only error is a failed allocation.
///
/// Of a document, the rules of validation come first, then undefined variables, repeated input fields, and usages of variables.
/// If there are more reports than are kept, the last one says so.
pub fn shown_reports(
    alloc: Global,
    reports: &Reports,
    sources: &[SourceText<'_>],
    bounds: Bounds,
    most: usize,
) -> Result<Vec<ShownReport>, ValidationError>
    ensures { IfOk result (λ shown. AllZip (Shows sources.now bounds) (take most (listed reports.now)) shown.items) }
{
    let mut shown = Vec::new(alloc);
    push_reports(alloc, reports, sources, bounds, most, &mut shown)?;
    Ok(shown)
}

/// Adds the first of the reports, at most so many.
fn push_reports(
    alloc: Global,
    reports: &Reports,
    sources: &[SourceText<'_>],
    bounds: Bounds,
    most: usize,
    shown: &mut Vec<ShownReport>,
) -> Result<(), ValidationError>
    ensures { OnOk result (ShowsMore (Shows sources.now bounds) (take most (listed reports.now)) shown.old.items shown.new.items) }
{
    match reports {
        Reports::Syntax(errors) => push_syntax(alloc, first(errors, most), sources, bounds, shown),
        Reports::Building(list) => {
            push_building(alloc, first(list.iter().as_slice(), most), shown)
        }
        Reports::FirstBuilding(list) => push_first_building(alloc, list, most, shown),
        Reports::Nesting(report) => push_nesting(alloc, report, most, shown),
        Reports::Reach(report) => push_reach(alloc, report, most, shown),
        Reports::Work(report) => push_work(alloc, report, most, shown),
        Reports::SchemaRules(reports) => push_schema(alloc, reports, most, shown),
        Reports::DocumentRules(reports) => push_document(alloc, reports, most, shown),
        Reports::FirstSchemaRules(rules) => push_first_rules(alloc, rules, most, shown),
        Reports::FirstDocumentRules(rules) => push_first_rules(alloc, rules, most, shown),
    }
}

/// The first of these, at most so many.
fn first<T>(items: &[T], most: usize) -> &[T]
    ensures { result.now ≡ take most items.now }
{
    &items[..most.min(items.len())]
}

/// Adds the first reports of a schema, at most so many: the rules of validation first.
fn push_schema(
    alloc: Global,
    reports: &SchemaReports,
    most: usize,
    shown: &mut Vec<ShownReport>,
) -> Result<(), ValidationError>
    ensures { (sources : List source_text.SourceText) (bounds : source_bounds.Bounds) →
        OnOk result (ShowsMore (Shows sources bounds) (take most (listed (all_reports.SchemaRules reports.now))) shown.old.items shown.new.items) }
{
    let rules = reports.rules.iter().as_slice();
    push_rules(alloc, first(rules, most), shown)?;
    let left = most.saturating_sub(rules.len());
    push_repetitions(alloc, first(&reports.input_fields, left), shown)?;
    let left = left.saturating_sub(reports.input_fields.len());
    push_more_if(alloc, reports.has_more, left, shown)
}

/// Adds the first reports of a document, at most so many: the rules of validation first, then undefined variables, repeated
/// input fields, and usages of variables.
fn push_document(
    alloc: Global,
    reports: &DocumentReports,
    most: usize,
    shown: &mut Vec<ShownReport>,
) -> Result<(), ValidationError>
    ensures { (sources : List source_text.SourceText) (bounds : source_bounds.Bounds) →
        OnOk result (ShowsMore (Shows sources bounds) (take most (listed (all_reports.DocumentRules reports.now))) shown.old.items shown.new.items) }
{
    let rules = reports.rules.iter().as_slice();
    push_rules(alloc, first(rules, most), shown)?;
    let left = most.saturating_sub(rules.len());
    push_rules(alloc, first(&reports.undefined_variables, left), shown)?;
    let left = left.saturating_sub(reports.undefined_variables.len());
    push_repetitions(alloc, first(&reports.input_fields, left), shown)?;
    let left = left.saturating_sub(reports.input_fields.len());
    push_misuses(alloc, first(&reports.usages, left), shown)?;
    let left = left.saturating_sub(reports.usages.len());
    push_more_if(alloc, reports.has_more, left, shown)
}

/// Adds the first rules that keep texts from making a schema or a document, and that there are more: at most so many reports.
fn push_first_building(
    alloc: Global,
    list: &BuildingReportList,
    most: usize,
    shown: &mut Vec<ShownReport>,
) -> Result<(), ValidationError>
    ensures { (sources : List source_text.SourceText) (bounds : source_bounds.Bounds) →
        OnOk result (ShowsMore (Shows sources bounds) (take most (listed (all_reports.FirstBuilding list.now))) shown.old.items shown.new.items) }
{
    let reports = list.iter().as_slice();
    push_building(alloc, first(reports, most), shown)?;
    push_more(alloc, most.saturating_sub(reports.len()), shown)
}

/// Adds the first rules of validation, and that there are more: at most so many reports.
fn push_first_rules(
    alloc: Global,
    list: &DiagnosticList,
    most: usize,
    shown: &mut Vec<ShownReport>,
) -> Result<(), ValidationError>
    ensures { (sources : List source_text.SourceText) (bounds : source_bounds.Bounds) →
        OnOk result (ShowsMore (Shows sources bounds) (take most (listed (all_reports.FirstDocumentRules list.now))) shown.old.items shown.new.items) }
{
    let rules = list.iter().as_slice();
    push_rules(alloc, first(rules, most), shown)?;
    push_more(alloc, most.saturating_sub(rules.len()), shown)
}

/// Adds that there are more reports than are kept, if there may be one report.
fn push_more(
    alloc: Global,
    most: usize,
    shown: &mut Vec<ShownReport>,
) -> Result<(), ValidationError>
    ensures { OnOk result (ShowsMore ShowsThatMore (take most (tt ∷ [])) shown.old.items shown.new.items) }
{
    if most == 0 {
        return Ok(());
    }
    shown.push(shown_more(alloc)?)?;
    Ok(())
}

/// Adds that there are more reports than are kept, if so, and if there may be one report.
fn push_more_if(
    alloc: Global,
    has_more: bool,
    most: usize,
    shown: &mut Vec<ShownReport>,
) -> Result<(), ValidationError>
    ensures { OnOk result (ShowsMore ShowsThatMore (take most (once_if has_more)) shown.old.items shown.new.items) }
{
    if has_more {
        push_more(alloc, most, shown)
    } else {
        Ok(())
    }
}

/// Adds texts that are no documents.
fn push_syntax(
    alloc: Global,
    errors: &[SyntaxReport],
    sources: &[SourceText<'_>],
    bounds: Bounds,
    shown: &mut Vec<ShownReport>,
) -> Result<(), ValidationError>
    ensures { OnOk result (ShowsMore (ShowsSyntax sources.now bounds) errors.now shown.old.items shown.new.items) }
{
    for error in errors {
        shown.push(shown_syntax(alloc, error, sources, bounds)?)?;
    }
    Ok(())
}

/// Adds rules that keep texts from making a schema or a document.
fn push_building(
    alloc: Global,
    reports: &[BuildingReport],
    shown: &mut Vec<ShownReport>,
) -> Result<(), ValidationError>
    ensures { OnOk result (ShowsMore ShowsBuilding reports.now shown.old.items shown.new.items) }
{
    for report in reports {
        shown.push(shown_building(alloc, report)?)?;
    }
    Ok(())
}

/// Adds a document that nests too deep, if there may be one report.
fn push_nesting(
    alloc: Global,
    report: &NestingReport,
    most: usize,
    shown: &mut Vec<ShownReport>,
) -> Result<(), ValidationError>
    ensures { OnOk result (ShowsMore ShowsNesting (take most (report.now ∷ [])) shown.old.items shown.new.items) }
{
    if most == 0 {
        return Ok(());
    }
    shown.push(shown_nesting(alloc, report)?)?;
    Ok(())
}

/// Adds a document that reaches too much, if there may be one report.
fn push_reach(
    alloc: Global,
    report: &ReachReport,
    most: usize,
    shown: &mut Vec<ShownReport>,
) -> Result<(), ValidationError>
    ensures { OnOk result (ShowsMore ShowsReach (take most (report.now ∷ [])) shown.old.items shown.new.items) }
{
    if most == 0 {
        return Ok(());
    }
    shown.push(shown_reach(alloc, report)?)?;
    Ok(())
}

/// Adds a document whose fields take too much work to compare, if there may be one report.
fn push_work(
    alloc: Global,
    report: &WorkReport,
    most: usize,
    shown: &mut Vec<ShownReport>,
) -> Result<(), ValidationError>
    ensures { OnOk result (ShowsMore ShowsWork (take most (report.now ∷ [])) shown.old.items shown.new.items) }
{
    if most == 0 {
        return Ok(());
    }
    shown.push(shown_work(alloc, report)?)?;
    Ok(())
}

/// Adds rules of validation.
fn push_rules(
    alloc: Global,
    rules: &[DiagnosticEntry],
    shown: &mut Vec<ShownReport>,
) -> Result<(), ValidationError>
    ensures { OnOk result (ShowsMore ShowsEntry rules.now shown.old.items shown.new.items) }
{
    for entry in rules {
        shown.push(shown_entry(alloc, entry)?)?;
    }
    Ok(())
}

/// Adds repeated input fields.
fn push_repetitions(
    alloc: Global,
    repetitions: &[InputFieldRepetition],
    shown: &mut Vec<ShownReport>,
) -> Result<(), ValidationError>
    ensures { OnOk result (ShowsMore ShowsRepetition repetitions.now shown.old.items shown.new.items) }
{
    for repetition in repetitions {
        shown.push(shown_repetition(alloc, repetition)?)?;
    }
    Ok(())
}

/// Adds usages of variables.
fn push_misuses(
    alloc: Global,
    misuses: &[VariableMisuse],
    shown: &mut Vec<ShownReport>,
) -> Result<(), ValidationError>
    ensures { OnOk result (ShowsMore ShowsMisuse misuses.now shown.old.items shown.new.items) }
{
    for misuse in misuses {
        shown.push(shown_misuse(alloc, misuse)?)?;
    }
    Ok(())
}

fn shown_nesting(alloc: Global, report: &NestingReport) -> Result<ShownReport, ValidationError>
    ensures { IfOk result (ShowsNesting report.now) }
{
    Ok(ShownReport {
        location: report.location,
        rule: "NestsTooDeep",
        message: shown_text(alloc, report.to_string(alloc)?)?,
        original: None,
    })
}

fn shown_reach(alloc: Global, report: &ReachReport) -> Result<ShownReport, ValidationError>
    ensures { IfOk result (ShowsReach report.now) }
{
    Ok(ShownReport {
        location: report.location,
        rule: "ReachesTooMuch",
        message: shown_text(alloc, report.to_string(alloc)?)?,
        original: None,
    })
}

fn shown_work(alloc: Global, report: &WorkReport) -> Result<ShownReport, ValidationError>
    ensures { IfOk result (ShowsWork report.now) }
{
    Ok(ShownReport {
        location: report.location,
        rule: "TakesTooMuch",
        message: shown_text(alloc, report.to_string(alloc)?)?,
        original: None,
    })
}

fn shown_more(alloc: Global) -> Result<ShownReport, ValidationError>
    ensures { IfOk result (ShowsThatMore tt) }
{
    Ok(ShownReport {
        location: None,
        rule: "MoreReports",
        message: shown_copy(alloc, MORE_MESSAGE)?,
        original: None,
    })
}

fn shown_misuse(alloc: Global, misuse: &VariableMisuse) -> Result<ShownReport, ValidationError>
    ensures { IfOk result (ShowsMisuse misuse.now) }
{
    Ok(ShownReport {
        location: misuse.location,
        rule: "DisallowedVariableUsage",
        message: shown_text(alloc, misuse.to_string(alloc)?)?,
        original: misuse.definition_location,
    })
}

fn shown_repetition(
    alloc: Global,
    repetition: &InputFieldRepetition,
) -> Result<ShownReport, ValidationError>
    ensures { IfOk result (ShowsRepetition repetition.now) }
{
    Ok(ShownReport {
        location: repetition.location,
        rule: "UniqueInputField",
        message: shown_text(alloc, repetition.to_string(alloc)?)?,
        original: repetition.original,
    })
}

fn shown_syntax(
    alloc: Global,
    report: &SyntaxReport,
    sources: &[SourceText<'_>],
    bounds: Bounds,
) -> Result<ShownReport, ValidationError>
    ensures { IfOk result (ShowsSyntax sources.now bounds report.now) }
{
    let text = text_of(sources, report.file_id);
    let message = refused(report.error, text, bounds).to_string(alloc)?;
    Ok(ShownReport {
        location: Some(error_span(report.file_id, text, report.error)),
        rule: "Syntax",
        message: shown_text(alloc, message)?,
        original: None,
    })
}

/// The text of a file: the first of these that is of it, and else none.
pub fn text_of<'a>(sources: &[SourceText<'a>], file_id: FileId) -> &'a str
    ensures { result.now ≡ text_of sources.now file_id }
{
    for source in sources {
        if source.file_id.0 == file_id.0 {
            return source.text;
        }
    }
    ""
}

/// The place of an error in its text.
fn error_span(file_id: FileId, text: &str, error: SyntaxError) -> SourceSpan
    ensures { result ≡ error_span file_id text.now error }
{
    SourceSpan {
        file_id,
        start: narrow(error.at(text)),
        end: error_end(text, error),
    }
}

/// Where the token ends that an error names; of another error, the byte at which it is.
fn error_end(text: &str, error: SyntaxError) -> u32
    ensures { result ≡ error_end text.now error }
{
    match error {
        SyntaxError::Unexpected(Some(token), _) | SyntaxError::TooDeep(token) => token.end,
        _ => narrow(error.at(text)),
    }
}

/// A byte as places have it. No text is longer than places reach.
fn narrow(at: usize) -> u32
    ensures { result ≡ narrow at }
{
    at.min(u32::MAX as usize) as u32
}

fn shown_building(alloc: Global, report: &BuildingReport) -> Result<ShownReport, ValidationError>
    ensures { IfOk result (ShowsBuilding report.now) }
{
    Ok(ShownReport {
        location: report.location,
        rule: building_rule(&report.rule),
        message: shown_text(alloc, report.rule.to_string(alloc)?)?,
        original: original_of_building(&report.rule),
    })
}

/// Where the first of a repetition is.
fn original_of_building(rule: &BuildingRule) -> Option<SourceSpan>
    ensures { result ≡ building_original rule.now }
{
    match rule {
        BuildingRule::OperationNameCollision { original, .. }
        | BuildingRule::FragmentNameCollision { original, .. }
        | BuildingRule::SchemaDefinitionCollision { original }
        | BuildingRule::DuplicateRootOperation { original, .. }
        | BuildingRule::TypeDefinitionCollision { original, .. }
        | BuildingRule::DirectiveDefinitionCollision { original, .. }
        | BuildingRule::TypeExtensionKindMismatch { original, .. }
        | BuildingRule::ImplementedNonInterface { original, .. }
        | BuildingRule::MemberNameCollision { original, .. }
        | BuildingRule::DuplicateImplementsInterface { original, .. } => *original,
        _ => None,
    }
}

fn shown_entry(alloc: Global, entry: &DiagnosticEntry) -> Result<ShownReport, ValidationError>
    ensures { IfOk result (ShowsEntry entry.now) }
{
    Ok(ShownReport {
        location: entry.location,
        rule: details_rule(&entry.details),
        message: shown_text(alloc, message_of(alloc, &entry.details)?)?,
        original: original_of(&entry.details),
    })
}

/// The message of what a diagnostic is about.
fn message_of(alloc: Global, details: &Details) -> Result<String, AllocError>
    ensures { IfOk result (λ text. string_bytes text ≡ details_message details.now) }
{
    match details {
        Details::Diagnostic(broken) => message_of_diagnostic(alloc, broken),
        Details::Build(error) => BuildErrorMessage(error).to_string(alloc),
        Details::RecursionLimit(_) => String::from_str(alloc, RECURSION_MESSAGE),
    }
}

/// The message of a rule of validation. Of a limit it says that no rule is broken, and the number of one on names.
fn message_of_diagnostic(alloc: Global, broken: &DiagnosticData) -> Result<String, AllocError>
    ensures { IfOk result (λ text. string_bytes text ≡ validation_message broken.now) }
{
    match broken {
        DiagnosticData::DeeplyNestedType { describe_type, .. } => {
            let limit = path_limit(describe_type);
            format!(in alloc; "{broken}: the limit of {limit} is passed, and no rule is broken")
        }
        DiagnosticData::RecursionError => String::from_str(alloc, RECURSION_MESSAGE),
        _ => broken.to_string(alloc),
    }
}

/// How many names of this kind a path may have on which a cycle is searched.
fn path_limit(describe: &str) -> usize
    ensures { result ≡ path_limit describe.now }
{
    if describe == "fragment" {
        FRAGMENT_LIMIT
    } else {
        INPUT_OBJECT_LIMIT
    }
}

/// Where the first of a repetition is, or the other of two in conflict.
fn original_of(details: &Details) -> Option<SourceSpan>
    ensures { result ≡ details_original details.now }
{
    match details {
        Details::Diagnostic(data) => original_of_diagnostic(data),
        Details::Build(error) => original_of_build_error(error),
        Details::RecursionLimit(_) => None,
    }
}

/// Where the first of a repetition is.
fn original_of_diagnostic(broken: &DiagnosticData) -> Option<SourceSpan>
    ensures { result ≡ diagnostic_original broken.now }
{
    match broken {
        DiagnosticData::UniqueVariable {
            original_definition,
            ..
        }
        | DiagnosticData::UniqueArgument {
            original_definition,
            ..
        } => *original_definition,
        DiagnosticData::UniqueDirective {
            original_application,
            ..
        } => *original_application,
        _ => None,
    }
}

/// Where the first of a repetition is, or the other of two fields in conflict.
fn original_of_build_error(error: &BuildError) -> Option<SourceSpan>
    ensures { result ≡ build_error_original error.now }
{
    match error {
        BuildError::DuplicateDeferLabel {
            original_location,
            ..
        }
        | BuildError::ConflictingFieldName {
            original_location,
            ..
        }
        | BuildError::ConflictingFieldArgument {
            original_location,
            ..
        }
        | BuildError::ConflictingFieldType {
            original_location,
            ..
        } => *original_location,
        _ => None,
    }
}
