//! Executable documents, from their texts.

ghost use Rattle.std.specs.Prelude.{◌≡◌, ℕ, All, IfOk, MatchOption, None, Option, Some};
ghost use Rattle.std.specs.Option.{option_copied};
ghost use Rattle.graphql_building_reports.specs.Checks.{reports_of};
ghost use Rattle.graphql_diagnostics.specs.Diagnostics.{entries};
ghost use Rattle.graphql_document_checking.specs.DocumentReports.{DocumentBuildingReport};
ghost use Rattle.graphql_documents.specs.declared.documents.schemas.Schema as schema_type;
ghost use Rattle.graphql_nesting.specs.Nesting.{NestsWithin};
ghost use Rattle.graphql_parser.specs.Refusals.{IsRefusal};
ghost use Rattle.graphql_parser.specs.declared.bounds.Bounds as source_bounds;
ghost use Rattle.graphql_trees.specs.declared.documents.Document as document_tree;
ghost use Rattle.graphql_frontend.specs.Texts.{IsDocumentOf};
ghost use Rattle.graphql_frontend.specs.declared.texts.SourceText as source_text;
ghost use Rattle.graphql_frontend.specs.Documents.{AreRuleReports, HasDefinitionsOf, IsReachReport, JudgesDocument, JudgesTree, ReachesWithinBounds, ValidatesDocument, ValidatesDocuments, bytes_of};
ghost use Rattle.graphql_frontend.specs.Schemas.{IsUsable};

use crate::document_rules::{RuleReports, document_reports, rule_reports};
use crate::first_reports::{is_full_of_building_rules, report_bound};
use crate::reports::Reports;
use crate::texts::{Parsed, SourceText, SyntaxReport, hash_seed_of, is_out_of_memory, parse_texts};
use graphql_building_reports::BuildingReportList;
use graphql_diagnostics::{DiagnosticList, HashSeed};
use graphql_document_checking::{
    Items, build_document, build_standalone_document, check_document, check_standalone_document,
};
use graphql_documents::documents::{ExecutableDocument, Schema};
use graphql_nesting::check_nesting;
use graphql_nodes::{FileId, SourceSpan, ValidationError};
use graphql_parser::{Bounds, SyntaxError, parse_document};
use graphql_trees::Document;
use graphql_usage_rules::{ReachReport, check_reach};
use std::alloc::Global;

/// How many bytes count at least, where those that operations may reach go by the bytes of the texts: what a short document
/// reaches is soon validated.
const LEAST_BYTES: usize = 65_536;

/// A document of at most so many levels has few fragments from which cycles are searched for: those that lead to one. In a
/// deeper document a search from each fragment may go through all others, so its operations may reach its bytes only once.
const SHALLOW: usize = 99;

/// The place of a document of several texts, which no report names.
const NOWHERE: SourceSpan = SourceSpan {
    file_id: FileId::BUILT_IN,
    start: 0,
    end: 0,
};

/// Validates the document that a text is against a schema that was read, and answers what is reported, if anything is: its
/// first error, where it is no document; or the rules that keep it from being built; or that it nests too deep through its
/// fragments, by the depth of the bounds; or that its operations reach too much; or the rules that it breaks. The only error
/// is a failed allocation.
///
/// Operations may reach as many bytes as the text has, of which 65,536 count at least; and as often as the reach of the bounds
/// says in a document that nests less than 100 levels.
///
/// Where no limit is reported, nothing is exactly where the text is a GraphQL document, it can be built against the schema
/// and every rule of documents holds.
///
/// Specification: 2.2 Document; 5 Validation.
pub fn validate_document(
    alloc: Global,
    schema: &Schema,
    source: SourceText<'_>,
    bounds: Bounds,
) -> Result<Option<Reports>, ValidationError>
    requires { IsUsable schema.now }
    ensures { IfOk result (ValidatesDocument bounds (Some schema.now) source.entry) }
{
    match parse_document(alloc, source.file_id, source.text, bounds) {
        Ok(tree) => {
            let hash_seed = HashSeed::of_text(source.text);
            validate_tree(alloc, hash_seed, schema, tree, bounds, source.text.len())
        }
        Err(error) => report_syntax(alloc, source.file_id, error),
    }
}

/// Validates the document that a text is without a schema, by the rules that need none. Answers what is reported as
/// `validate_document` does.
///
/// Specification: 2.2 Document; 5 Validation.
pub fn validate_standalone_document(
    alloc: Global,
    source: SourceText<'_>,
    bounds: Bounds,
) -> Result<Option<Reports>, ValidationError>
    ensures { IfOk result (ValidatesDocument bounds None source.entry) }
{
    match parse_document(alloc, source.file_id, source.text, bounds) {
        Ok(tree) => {
            let hash_seed = HashSeed::of_text(source.text);
            validate_standalone_tree(alloc, hash_seed, tree, bounds, source.text.len())
        }
        Err(error) => report_syntax(alloc, source.file_id, error),
    }
}

/// The report of a text that is no document.
fn report_syntax(
    alloc: Global,
    file_id: FileId,
    error: SyntaxError,
) -> Result<Option<Reports>, ValidationError>
    ensures { (bounds : source_bounds.Bounds) (schema : Option schema_type.Schema) (source : source_text.SourceText) →
        source.file_id ≡ file_id → ((tree : document_tree.Document) → IsDocumentOf bounds source tree → error ≡ SyntaxError.OutOfMemory) →
        IsRefusal bounds file_id source.text.now error → IfOk result (ValidatesDocument bounds schema source) }
{
    if is_out_of_memory(error) {
        return Err(ValidationError::OutOfMemory);
    }
    let mut errors = Vec::new(alloc);
    errors.push(SyntaxReport { file_id, error })?;
    Ok(Some(Reports::Syntax(errors)))
}

/// Validates the one document that texts are together, fragments in files of their own among them: the document with the
/// definitions of each text, in the order of the texts. Answers what is reported as `validate_document` does: first the
/// texts that are no documents, each with its first error.
///
/// Specification: 2.2 Document; 5 Validation.
pub fn validate_documents(
    alloc: Global,
    schema: &Schema,
    sources: &[SourceText<'_>],
    bounds: Bounds,
) -> Result<Option<Reports>, ValidationError>
    requires { IsUsable schema.now }
    ensures { IfOk result (ValidatesDocuments bounds (Some schema.now) sources.now) }
{
    let Parsed { documents, errors } = parse_texts(alloc, sources, bounds)?;
    if errors.is_empty() {
        let document = joined(alloc, documents)?;
        validate_tree(
            alloc,
            hash_seed_of(sources),
            schema,
            document,
            bounds,
            bytes_of(sources)?,
        )
    } else {
        Ok(Some(Reports::Syntax(errors)))
    }
}

/// How many bytes the texts have, all together. Fails where the number does not fit: no memory holds such texts.
fn bytes_of(sources: &[SourceText<'_>]) -> Result<usize, ValidationError>
    ensures { IfOk result (λ bytes. bytes ≡ bytes_of sources.now) }
{
    let mut bytes = 0_usize;
    for source in sources {
        bytes = match bytes.checked_add(source.text.len()) {
            Some(sum) => sum,
            None => return Err(ValidationError::OutOfMemory),
        };
    }
    Ok(bytes)
}

/// The document that has the definitions of these, in their order.
fn joined(alloc: Global, documents: Vec<Document>) -> Result<Document, ValidationError>
    ensures { IfOk result (HasDefinitionsOf documents.items) }
{
    let mut definitions = Items::new(alloc);
    for document in documents {
        definitions.append(document.into_definitions())?;
    }
    Ok(Document {
        definitions,
        span: NOWHERE,
    })
}

/// Validates the document of a tree, its names hashed by this seed. Its texts have so many bytes. The tree takes no memory while the
/// document that was built of it is validated.
fn validate_tree(
    alloc: Global,
    hash_seed: HashSeed,
    schema: &Schema,
    tree: Document,
    bounds: Bounds,
    bytes: usize,
) -> Result<Option<Reports>, ValidationError>
    requires { IsUsable schema.now }
    ensures { IfOk result (JudgesTree bounds bytes (Some schema.now) tree) }
{
    let mut reports = BuildingReportList::with_bound(alloc, hash_seed, report_bound(bounds));
    match check_document(&mut reports, schema, &tree) {
        Ok(()) => {
            if reports.is_empty() {
                let document = build_document(alloc, hash_seed, schema, &tree)?;
                drop(tree);
                validate_built(alloc, Some(schema), &document, bounds, bytes)
            } else {
                Ok(Some(Reports::Building(reports)))
            }
        }
        Err(error) => first_building_reports(reports, bounds, error),
    }
}

/// The first reports, if a check ended with this error because there are more than the bounds keep.
fn first_building_reports(
    reports: BuildingReportList,
    bounds: Bounds,
    error: ValidationError,
) -> Result<Option<Reports>, ValidationError>
    ensures { (bytes : ℕ) (schema : Option schema_type.Schema) (tree : document_tree.Document) →
        All (DocumentBuildingReport schema tree) (reports_of reports) → IfOk result (JudgesTree bounds bytes schema tree) }
{
    if is_full_of_building_rules(&reports, bounds) {
        Ok(Some(Reports::FirstBuilding(reports)))
    } else {
        Err(error)
    }
}

/// Validates the document of a tree without a schema, its names hashed by this seed. Its text has so many bytes.
fn validate_standalone_tree(
    alloc: Global,
    hash_seed: HashSeed,
    tree: Document,
    bounds: Bounds,
    bytes: usize,
) -> Result<Option<Reports>, ValidationError>
    ensures { IfOk result (JudgesTree bounds bytes None tree) }
{
    let mut reports = BuildingReportList::with_bound(alloc, hash_seed, report_bound(bounds));
    match check_standalone_document(&mut reports, &tree) {
        Ok(()) => {
            if reports.is_empty() {
                let document = build_standalone_document(alloc, hash_seed, &tree)?;
                drop(tree);
                validate_built(alloc, None, &document, bounds, bytes)
            } else {
                Ok(Some(Reports::Building(reports)))
            }
        }
        Err(error) => first_building_reports(reports, bounds, error),
    }
}

/// Validates a document that was built, against the schema or without one: answers that it nests too deep, by the depth of the
/// bounds; or that its operations reach too much, where its texts have so many bytes; or the rules that it breaks; or nothing.
/// The only error is a failed allocation.
///
/// Specification: 5 Validation.
pub fn validate_built(
    alloc: Global,
    schema: Option<&Schema>,
    document: &ExecutableDocument,
    bounds: Bounds,
    bytes: usize,
) -> Result<Option<Reports>, ValidationError>
    ensures { IfOk result (JudgesDocument bounds bytes (option_copied schema.entry) document.now) }
{
    if let Some(report) = check_nesting(alloc, document, bounds.depth)? {
        return Ok(Some(Reports::Nesting(report)));
    }
    match check_bytes_reached(alloc, document, bounds, bytes)? {
        None => validate_within(alloc, schema, document, bounds, bytes),
        Some(report) => Ok(Some(Reports::Reach(report))),
    }
}

/// Reports a document whose operations reach too much, by the bounds and the bytes of its texts.
fn check_bytes_reached(
    alloc: Global,
    document: &ExecutableDocument,
    bounds: Bounds,
    bytes: usize,
) -> Result<Option<ReachReport>, ValidationError>
    ensures { IfOk result (λ found. MatchOption found (ReachesWithinBounds bounds bytes document.now) (IsReachReport bounds bytes document.now)) }
{
    let counted = bytes.max(LEAST_BYTES);
    let Some(report) = check_reach(alloc, document, counted)? else {
        return Ok(None);
    };
    match check_nesting(alloc, document, SHALLOW)? {
        None => check_reach(alloc, document, bounds.reach.saturating_mul(counted)),
        Some(_) => Ok(Some(report)),
    }
}

/// Validates a document that nests and reaches within the bounds. Its texts have so many bytes.
fn validate_within(
    alloc: Global,
    schema: Option<&Schema>,
    document: &ExecutableDocument,
    bounds: Bounds,
    bytes: usize,
) -> Result<Option<Reports>, ValidationError>
    ensures { NestsWithin bounds.depth document.now → ReachesWithinBounds bounds bytes document.now →
        IfOk result (JudgesDocument bounds bytes (option_copied schema.entry) document.now) }
{
    match rule_reports(alloc, schema, document, bounds, bytes)? {
        RuleReports::All(rules) => validate_beside(alloc, schema, document, bounds, rules),
        RuleReports::First(rules) => Ok(Some(Reports::FirstDocumentRules(rules))),
        RuleReports::Work(report) => Ok(Some(Reports::Work(report))),
    }
}

/// Validates a document by the rules beside those of validation, which reported this.
fn validate_beside(
    alloc: Global,
    schema: Option<&Schema>,
    document: &ExecutableDocument,
    bounds: Bounds,
    rules: DiagnosticList,
) -> Result<Option<Reports>, ValidationError>
    ensures { AreRuleReports (option_copied schema.entry) document.now (entries rules) →
        (bytes : ℕ) → NestsWithin bounds.depth document.now → ReachesWithinBounds bounds bytes document.now →
        IfOk result (JudgesDocument bounds bytes (option_copied schema.entry) document.now) }
{
    let reports = document_reports(alloc, schema, document, bounds, rules)?;
    if reports.is_empty() {
        Ok(None)
    } else {
        Ok(Some(Reports::DocumentRules(reports)))
    }
}
