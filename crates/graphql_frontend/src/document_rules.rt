//! The rules of documents, together: those of validation, and those that validation asks in part or not at all: that variables
//! are defined at any depth, that input fields are unique, and that usages of variables are allowed at any depth.

ghost use Rattle.std.specs.Prelude.{◌≡◌, ◌∷◌, ◌++◌, [], All, IfOk, List, None, OnOk, Option, Some, filter, filter_map, not, option_to_list};
ghost use Rattle.std.specs.Option.{option_copied};
ghost use Rattle.graphql_diagnostics.specs.Diagnostics.{entries};
ghost use Rattle.graphql_diagnostics.specs.Reports.{Reports};
ghost use Rattle.graphql_diagnostics.specs.declared.lists.DiagnosticEntry as entry_type;
ghost use Rattle.graphql_documents.specs.declared.documents.executables.ExecutableDocument as document_type;
ghost use Rattle.graphql_nodes.specs.declared.spans.SourceSpan as span_type;
ghost use Rattle.graphql_input_rules.specs.InputFields.{InputFieldReport, InputFieldsAreUnique};
ghost use Rattle.graphql_documents.specs.declared.documents.schemas.Schema as schema_type;
ghost use Rattle.graphql_documents.specs.Executables.{operations_of};
ghost use Rattle.graphql_frontend.specs.Documents.{AreFurtherMisuses, AreFurtherUndefined, AreReportsOf, AreRuleReports, IsDocumentEntry};
ghost use Rattle.graphql_frontend.specs.RuleReadings.{ReadsRules};
ghost use Rattle.graphql_frontend.specs.Work.{first_location};
ghost use Rattle.graphql_frontend.specs.Places.{HasThese, end_of, is_place_among, reported_end, undefined_place};

use crate::first_reports::{is_full_of_rules, kept_reports, report_bound};
use crate::reports::DocumentReports;
use crate::work::WorkReport;
use graphql_diagnostics::{Details, DiagnosticData, DiagnosticEntry, DiagnosticList, HashSeed};
use graphql_document_rules::documents::{
    PairWork, validate_document_rules, validate_standalone_document_rules,
};
use graphql_documents::documents::{ExecutableDocument, Schema};
use graphql_input_rules::{InputFieldRepetition, check_input_fields};
use graphql_nodes::{SourceSpan, ValidationError};
use graphql_parser::Bounds;
use graphql_usage_rules::{
    ReportList, VariableMisuse, check_undefined_variables, check_variable_usages,
};
use std::alloc::Global;
use std::collections::HashSet;

/// How much work merging may do set by set of a document of so many bytes, before it goes by pairs of sets: fields that it lists,
/// and arguments that it compares. A text has at most a field for each two bytes, and each is in a list of each of two passes;
/// fragments that are spread at several places count at each.
fn merging_work(bytes: usize) -> usize {
    bytes.saturating_mul(4).saturating_add(100_000)
}

/// What validation reports of a document, within bounds.
#[derive(Drop)]
pub(crate) enum RuleReports {
    /// All that it reports.
    All(DiagnosticList),
    /// The first reports of more than the bounds keep.
    First(DiagnosticList),
    /// That its fields take too much work to compare.
    Work(WorkReport),
}

/// What the rules report of a document, against a schema or without one. Validation reported these.
pub(crate) fn document_reports(
    alloc: Global,
    schema: Option<&Schema>,
    document: &ExecutableDocument,
    bounds: Bounds,
    rules: DiagnosticList,
) -> Result<DocumentReports, ValidationError>
    ensures { AreRuleReports (option_copied schema.entry) document.now (entries rules) →
        IfOk result (AreReportsOf (option_copied schema.entry) document.now) }
{
    let mut has_more = false;
    let undefined_variables = further_undefined_variables(
        alloc,
        document,
        bounds,
        &rules,
        &mut has_more,
    )?;
    let input_fields = repeated_input_fields(alloc, document, bounds, &mut has_more)?;
    let usages = further_misuses(alloc, schema, document, bounds, &rules, &mut has_more)?;
    Ok(DocumentReports {
        rules,
        undefined_variables,
        input_fields,
        usages,
        has_more,
    })
}

/// The input fields that object values give again: the first ones, if there are more than the bounds keep.
fn repeated_input_fields(
    alloc: Global,
    document: &ExecutableDocument,
    bounds: Bounds,
    has_more: &mut bool,
) -> Result<Vec<InputFieldRepetition>, ValidationError>
    ensures { IfOk result (λ fields. Reports (InputFieldsAreUnique document.now) (InputFieldReport document.now) [] fields.items) }
{
    let mut input_fields = ReportList::with_bound(alloc, report_bound(bounds));
    let checked = check_input_fields(&mut input_fields, document);
    kept_reports(input_fields, checked, has_more)
}

/// What validation reports of a document, within the bounds. Its texts have so many bytes.
pub(crate) fn rule_reports(
    alloc: Global,
    schema: Option<&Schema>,
    document: &ExecutableDocument,
    bounds: Bounds,
    bytes: usize,
) -> Result<RuleReports, ValidationError>
    ensures { IfOk result (ReadsRules bounds (option_copied schema.entry) document.now) }
{
    match schema {
        Some(schema) => rule_reports_against(alloc, schema, document, bounds, bytes),
        None => standalone_rule_reports(alloc, document, bounds),
    }
}

fn rule_reports_against(
    alloc: Global,
    schema: &Schema,
    document: &ExecutableDocument,
    bounds: Bounds,
    bytes: usize,
) -> Result<RuleReports, ValidationError>
    ensures { IfOk result (ReadsRules bounds (Some schema.now) document.now) }
{
    let seed = document.hash_seed();
    let mut rules = DiagnosticList::with_bound(alloc, seed, report_bound(bounds));
    let mut pairs = PairWork::new(bounds.work);
    let work = merging_work(bytes);
    match validate_document_rules(&mut rules, schema, document, work, &mut pairs) {
        Ok(true) => Ok(RuleReports::All(rules)),
        Ok(false) => Ok(RuleReports::Work(WorkReport {
            counted: pairs.counted(),
            most: bounds.work,
            location: location_of_first(document),
        })),
        Err(error) => first_rules(rules, bounds, error),
    }
}

fn standalone_rule_reports(
    alloc: Global,
    document: &ExecutableDocument,
    bounds: Bounds,
) -> Result<RuleReports, ValidationError>
    ensures { IfOk result (ReadsRules bounds None document.now) }
{
    let seed = document.hash_seed();
    let mut rules = DiagnosticList::with_bound(alloc, seed, report_bound(bounds));
    match validate_standalone_document_rules(&mut rules, document) {
        Ok(()) => Ok(RuleReports::All(rules)),
        Err(error) => first_rules(rules, bounds, error),
    }
}

/// The first reports, if validation ended with this error because there are more than the bounds keep.
fn first_rules(
    rules: DiagnosticList,
    bounds: Bounds,
    error: ValidationError,
) -> Result<RuleReports, ValidationError>
    ensures { (schema : Option schema_type.Schema) (document : document_type.ExecutableDocument) →
        All (IsDocumentEntry schema document) (entries rules) → IfOk result (ReadsRules bounds schema document) }
{
    if is_full_of_rules(&rules, bounds) {
        Ok(RuleReports::First(rules))
    } else {
        Err(error)
    }
}

/// Where the first operation is.
fn location_of_first(document: &ExecutableDocument) -> Option<SourceSpan>
    ensures { result ≡ first_location (operations_of document.now) }
{
    if let Some(operation) = &document.operations.anonymous {
        return operation.location;
    }
    match document.operations.named.first() {
        Some((_, operation)) => operation.location,
        None => None,
    }
}

/// The variables that operations use and do not define, without those that validation reports as undefined: it does not look
/// into the object values of custom scalars. They are among the first ones, if there are more than the bounds keep.
fn further_undefined_variables(
    alloc: Global,
    document: &ExecutableDocument,
    bounds: Bounds,
    rules: &DiagnosticList,
    has_more: &mut bool,
) -> Result<Vec<DiagnosticEntry>, ValidationError>
    ensures { IfOk result (λ variables. AreFurtherUndefined document.now (entries rules.now) variables.items) }
{
    let mut list = ReportList::with_bound(alloc, report_bound(bounds));
    let checked = check_undefined_variables(&mut list, document);
    let mut variables = kept_reports(list, checked, has_more)?;
    let reported = undefined_places(alloc, rules)?;
    keep_at_other_places(&mut variables, &reported);
    Ok(variables)
}

/// The places of the variables that these diagnostics report as undefined.
fn undefined_places(
    alloc: Global,
    rules: &DiagnosticList,
) -> Result<HashSet<SourceSpan, HashSeed>, ValidationError>
    ensures { IfOk result (λ places. HasThese (filter_map undefined_place (entries rules.now)) places) }
{
    let mut places = HashSet::with_hasher(alloc, rules.hash_seed());
    for entry in rules.iter().as_slice() {
        add_place(&mut places, undefined_place(entry))?;
    }
    Ok(places)
}

/// Adds a place, if there is one.
fn add_place(
    places: &mut HashSet<SourceSpan, HashSeed>,
    place: Option<SourceSpan>,
) -> Result<(), ValidationError>
    ensures { (these : List span_type.SourceSpan) → HasThese these places.old → OnOk result (HasThese (these ++ option_to_list place) places.new) }
{
    match place {
        Some(place) => insert_place(places, place),
        None => Ok(()),
    }
}

fn insert_place(
    places: &mut HashSet<SourceSpan, HashSeed>,
    place: SourceSpan,
) -> Result<(), ValidationError>
    ensures { (these : List span_type.SourceSpan) → HasThese these places.old → OnOk result (HasThese (these ++ place ∷ []) places.new) }
{
    places.insert(place)?;
    Ok(())
}

/// The place of the variable that the diagnostic reports as undefined, if it reports one.
fn undefined_place(entry: &DiagnosticEntry) -> Option<SourceSpan>
    ensures { result ≡ undefined_place entry.now }
{
    match &entry.details {
        Details::Diagnostic(DiagnosticData::UndefinedVariable { .. }) => entry.location,
        _ => None,
    }
}

/// Leaves the diagnostics that are at none of these places.
fn keep_at_other_places(
    variables: &mut Vec<DiagnosticEntry>,
    places: &HashSet<SourceSpan, HashSeed>,
)
    ensures { variables.new.items ≡ filter (λ e. not (is_place_among e.location places.now)) variables.old.items }
{
    variables.retain(|entry| !is_among(entry.location, places));
}

/// Whether the place is one of these.
fn is_among(place: Option<SourceSpan>, places: &HashSet<SourceSpan, HashSeed>) -> bool
    ensures { result ≡ is_place_among place places.now }
{
    match place {
        Some(place) => places.contains(&place),
        None => false,
    }
}

/// The usages of variables that are not allowed, without those that end where a report of validation does: validation asks it
/// of variables that are whole arguments, and of types inside lists. Reports of unused variables and fragments do not count, because
/// these rules may be off. The usages are among the first ones, if there are more than the bounds keep. Without a schema none is
/// known.
fn further_misuses(
    alloc: Global,
    schema: Option<&Schema>,
    document: &ExecutableDocument,
    bounds: Bounds,
    rules: &DiagnosticList,
    has_more: &mut bool,
) -> Result<Vec<VariableMisuse>, ValidationError>
    ensures { IfOk result (λ usages. AreFurtherMisuses (option_copied schema.entry) document.now (entries rules.now) usages.items) }
{
    match schema {
        Some(schema) => misuses_beside(alloc, schema, document, bounds, rules, has_more),
        None => no_misuses(alloc),
    }
}

/// No usage, as none is known without a schema.
fn no_misuses(alloc: Global) -> Result<Vec<VariableMisuse>, ValidationError>
    ensures { (document : document_type.ExecutableDocument) (rules : List entry_type.DiagnosticEntry) → IfOk result (λ usages. AreFurtherMisuses None document rules usages.items) }
{
    Ok(Vec::new(alloc))
}

fn misuses_beside(
    alloc: Global,
    schema: &Schema,
    document: &ExecutableDocument,
    bounds: Bounds,
    rules: &DiagnosticList,
    has_more: &mut bool,
) -> Result<Vec<VariableMisuse>, ValidationError>
    ensures { IfOk result (λ usages. AreFurtherMisuses (Some schema.now) document.now (entries rules.now) usages.items) }
{
    let mut list = ReportList::with_bound(alloc, report_bound(bounds));
    let checked = check_variable_usages(&mut list, schema, document);
    let mut usages = kept_reports(list, checked, has_more)?;
    let ends = reported_ends(alloc, rules)?;
    keep_ending_elsewhere(&mut usages, &ends);
    Ok(usages)
}

/// The ends of the places of these diagnostics, except those of rules that may be off.
fn reported_ends(
    alloc: Global,
    rules: &DiagnosticList,
) -> Result<HashSet<SourceSpan, HashSeed>, ValidationError>
    ensures { IfOk result (λ ends. HasThese (filter_map reported_end (entries rules.now)) ends) }
{
    let mut ends = HashSet::with_hasher(alloc, rules.hash_seed());
    for entry in rules.iter().as_slice() {
        add_place(&mut ends, reported_end(entry))?;
    }
    Ok(ends)
}

/// The end of the place of the diagnostic, if its rule is never off.
fn reported_end(entry: &DiagnosticEntry) -> Option<SourceSpan>
    ensures { result ≡ reported_end entry.now }
{
    let end = end_of(entry.location);
    match &entry.details {
        Details::Diagnostic(DiagnosticData::UnusedVariable { .. }) => None,
        Details::Diagnostic(DiagnosticData::UnusedFragment { .. }) => None,
        _ => end,
    }
}

/// Leaves the misuses whose places do not end at one of these.
fn keep_ending_elsewhere(usages: &mut Vec<VariableMisuse>, ends: &HashSet<SourceSpan, HashSeed>)
    ensures { usages.new.items ≡ filter (λ u. not (is_place_among (end_of u.location) ends.now)) usages.old.items }
{
    usages.retain(|usage| !is_among(end_of(usage.location), ends));
}

/// The end of a place, as a place.
fn end_of(place: Option<SourceSpan>) -> Option<SourceSpan>
    ensures { result ≡ end_of place }
{
    let place = place?;
    Some(SourceSpan {
        file_id: place.file_id,
        start: place.end,
        end: place.end,
    })
}
