//! Witnesses that validation confirms.

ghost use Rattle.std.specs.Prelude.{◌≡◌, ◌↔◌, All, IfOk, IfSome, IsFalse, IsNone, IsTrue, None, Ok, Some, string_bytes, true};
ghost use Rattle.graphql_diagnostics.specs.Diagnostics.{IsLimit, IsLimitEntry, entries};
ghost use Rattle.graphql_frontend.specs.Documents.{ValidatesDocument};
ghost use Rattle.graphql_frontend.specs.Schemas.{IsUsable};
ghost use Rattle.graphql_change_kinds.specs.Breaks.{breaks};
ghost use Rattle.graphql_change_witnesses.specs.Witnesses.{BreaksRules, BreaksRulesOf, IsWitness, IsWitnessText};

use graphql_change_candidates::witness_candidates;
use graphql_change_kinds::{BreakingReason, Change, Level};
use graphql_diagnostics::{Details, DiagnosticData, DiagnosticEntry, DiagnosticList};
use graphql_documents::documents::Schema;
use graphql_frontend::{FileId, Reports, SourceText, validate_document};
use graphql_nodes::ValidationError;
use graphql_parser::Bounds;
use graphql_schema_ways::Ways;
use std::alloc::Global;

/// The number of the file of a witness.
const FILE: FileId = FileId(1);

/// A document that is valid against the old schema, whose ways are given, and breaks a rule against the new one. None, if the
/// change breaks no documents, or if no candidate is such a document. The only error is a failed allocation.
///
/// Specification: 5 Validation.
pub fn confirmed_witness(
    alloc: Global,
    ways: &Ways<'_>,
    old: &Schema,
    new: &Schema,
    change: &Change,
    bounds: Bounds,
) -> Result<Option<String>, ValidationError>
    requires old { IsUsable old.now }
    requires new { IsUsable new.now }
    ensures witness { IfOk result (λ found. IfSome found (λ text. IsWitnessText bounds old.now new.now (string_bytes text))) }
    ensures harmless { IsFalse (breaks true change.now) → IfOk result IsNone }
{
    if !breaks_documents(change) {
        return Ok(None);
    }
    for text in witness_candidates(ways, new, change)? {
        if is_witness(alloc, old, new, source_of(text.as_str()), bounds)? {
            return Ok(Some(text));
        }
    }
    Ok(None)
}

/// Whether some documents break that were valid.
fn breaks_documents(change: &Change) -> bool
    ensures { result ≡ breaks true change.now }
{
    match change.level() {
        Level::Breaking(BreakingReason::Documents) => true,
        Level::Breaking(BreakingReason::Merging) => true,
        _ => false,
    }
}

fn source_of<'a>(text: &'a str) -> SourceText<'a>
    ensures { result.text.now ≡ text.now }
{
    SourceText {
        file_id: FILE,
        text,
    }
}

/// Whether a text is a document that is valid against the old schema, and that breaks a rule against the new one. A document that
/// passes a limit is none. The only error is a failed allocation.
///
/// Specification: 5 Validation.
pub fn is_witness(
    alloc: Global,
    old: &Schema,
    new: &Schema,
    source: SourceText<'_>,
    bounds: Bounds,
) -> Result<bool, ValidationError>
    requires old { IsUsable old.now }
    requires new { IsUsable new.now }
    ensures { result ≡ Ok true → IsWitness bounds old.now new.now source.entry }
{
    if is_valid(alloc, old, source, bounds)? {
        breaks_rules_of(alloc, new, source, bounds)
    } else {
        Ok(false)
    }
}

/// Whether nothing is reported of a text.
fn is_valid(
    alloc: Global,
    schema: &Schema,
    source: SourceText<'_>,
    bounds: Bounds,
) -> Result<bool, ValidationError>
    requires { IsUsable schema.now }
    ensures { result ≡ Ok true → ValidatesDocument bounds (Some schema.now) source.entry None }
{
    match validate_document(alloc, schema, source, bounds)? {
        None => Ok(true),
        Some(_) => Ok(false),
    }
}

/// Whether what is reported of a text is that it breaks rules.
fn breaks_rules_of(
    alloc: Global,
    schema: &Schema,
    source: SourceText<'_>,
    bounds: Bounds,
) -> Result<bool, ValidationError>
    requires { IsUsable schema.now }
    ensures { result ≡ Ok true → BreaksRulesOf bounds schema.now source.entry }
{
    match validate_document(alloc, schema, source, bounds)? {
        None => Ok(false),
        Some(reports) => Ok(breaks_rules(&reports)),
    }
}

/// Whether all that is reported is that rules are broken: no limit is passed.
fn breaks_rules(reports: &Reports) -> bool
    ensures { IsTrue result → BreaksRules reports.now }
{
    match reports {
        Reports::Building(_) => true,
        Reports::DocumentRules(reports) => has_no_limit(&reports.rules),
        _ => false,
    }
}

/// Whether no entry is of a limit.
fn has_no_limit(rules: &DiagnosticList) -> bool
    ensures { IsTrue result → All (λ e. ¬ IsLimitEntry e) (entries rules.now) }
{
    for entry in rules.iter() {
        if !is_of_rule(entry) {
            return false;
        }
    }
    true
}

/// Whether a rule is broken, and no limit passed.
fn is_of_rule(entry: &DiagnosticEntry) -> bool
    ensures { IsTrue result ↔ ¬ IsLimitEntry entry.now }
{
    !is_limit(&entry.details)
}

/// Whether a limit is passed: of nesting, of a walk or of a path.
fn is_limit(details: &Details) -> bool
    ensures { IsTrue result ↔ IsLimit details.now }
{
    match details {
        Details::Diagnostic(diagnostic) => is_limit_of_walk(diagnostic),
        Details::Build(_) => false,
        Details::RecursionLimit(_) => true,
    }
}

fn is_limit_of_walk(diagnostic: &DiagnosticData) -> bool
    ensures { IsTrue result ↔ IsLimit (Details.Diagnostic diagnostic.now) }
{
    match diagnostic {
        DiagnosticData::RecursionError => true,
        DiagnosticData::DeeplyNestedType { .. } => true,
        _ => false,
    }
}
