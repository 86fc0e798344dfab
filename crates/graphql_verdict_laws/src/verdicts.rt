//! Laws of verdicts on texts.
//!
//! A text says typed values that differ in their places in memory, and in the seeds of their maps. The laws are of all choices
//! of these values. A premise of each says that no diagnostic of a limit is reported, since a walk that meets its limit may leave
//! a rule undecided. Another says that the operations of a document may reach as many bytes as count: a bound of one or more
//! allows it, for texts of less than 2 ^ 64 bytes.

ghost use Rattle.std.specs.Prelude.{◌≡◌, ◌≤◌, IfSome, List, None, Option, Some, length, ℕ};
ghost use Rattle.graphql_building_laws.specs.SameSchemas.{SameSchema};
ghost use Rattle.graphql_document_building.specs.Documents.{DocumentSays};
ghost use Rattle.graphql_documents.specs.Built.{IsBuilt};
ghost use Rattle.graphql_documents.specs.Contents.{SameIfAny};
ghost use Rattle.graphql_documents.specs.declared.documents.executables.ExecutableDocument.{ExecutableDocument};
ghost use Rattle.graphql_documents.specs.declared.documents.schemas.Schema.{Schema};
ghost use Rattle.graphql_frontend.specs.Documents.{EveryRuleHolds, ValidatesDocument, ValidatesDocuments, bytes_of, counted_bytes, most_reached};
ghost use Rattle.graphql_frontend.specs.Schemas.{IsAccepted, ReadsSchema};
ghost use Rattle.graphql_frontend.specs.Verdicts.{Validates, ValidatesTexts};
ghost use Rattle.graphql_frontend.specs.declared.reports.Reports.{Reports};
ghost use Rattle.graphql_frontend.specs.declared.schemas.SchemaReading.TheVariants.{Accepted};
ghost use Rattle.graphql_frontend.specs.declared.schemas.SchemaReading.{SchemaReading};
ghost use Rattle.graphql_frontend.specs.declared.texts.SourceText.{SourceText};
ghost use Rattle.graphql_frontend.specs.declared.verdicts.Verdict.TheVariants.{Valid};
ghost use Rattle.graphql_frontend.specs.declared.verdicts.Verdict.{Verdict};
ghost use Rattle.graphql_parser.specs.declared.bounds.Bounds.{Bounds};
ghost use Rattle.graphql_schema_building.specs.SchemaSays.{SchemaSays};
ghost use Rattle.graphql_specification.specs.BuiltInScalars.{SchemaRetainsUsedBuiltInScalars};
ghost use Rattle.graphql_trees.specs.declared.documents.Document.{Document};
ghost use Rattle.graphql_verdict_laws.specs.Kinds.{is_valid, refuses_schema};
ghost use Rattle.graphql_verdict_laws.specs.Limits.{HasNoLimit, ReadsWithoutLimit, ReportsNoLimit};

/// If a schema is accepted and every rule holds of a document for one choice of typed values that trees say, this is so for each
/// choice.
///
/// Specification: 3 Type System; 5 Validation.
pub fn rules_hold_by_each_choice()
    ensures { (trees : List Document) (tree : Document) (said accepted other retained : Schema) (d e : ExecutableDocument) →
        SchemaSays trees said → IsAccepted said accepted → DocumentSays (Some accepted) tree d → EveryRuleHolds (Some accepted) d →
        SchemaSays trees other → SchemaRetainsUsedBuiltInScalars other retained → DocumentSays (Some retained) tree e →
        IsAccepted other retained × IsBuilt retained e × EveryRuleHolds (Some retained) e }
{}

/// If texts can be read as a schema that is accepted, they can only be read as one that is the same.
///
/// Specification: 3 Type System.
pub fn texts_have_one_reading()
    ensures { (bounds : Bounds) (sources : List SourceText) (accepted : Schema) (reading : SchemaReading) →
        ReadsSchema bounds sources (Accepted accepted) → ReadsSchema bounds sources reading → ReadsWithoutLimit reading →
        (other : Schema) × (reading ≡ Accepted other) × SameSchema accepted other }
{}

/// If the text of a document is valid against a schema, or without one, there is no other verdict on it, against this schema or
/// one that is the same.
///
/// Specification: 5 Validation.
pub fn document_has_one_verdict()
    ensures { (bounds : Bounds) (a b : Option Schema) → SameIfAny SameSchema a b → (source : SourceText) →
        counted_bytes (length source.text.now) ≤ most_reached bounds (length source.text.now) → (verdict : Option Reports) →
        ValidatesDocument bounds a source None → ValidatesDocument bounds b source verdict → IfSome verdict ReportsNoLimit → verdict ≡ None }
{}

/// If texts that are validated together, as one document, are valid against a schema, or without one, there is no other verdict on
/// them, against this schema or one that is the same.
///
/// Specification: 5 Validation.
pub fn documents_have_one_verdict()
    ensures { (bounds : Bounds) (a b : Option Schema) → SameIfAny SameSchema a b → (sources : List SourceText) →
        counted_bytes (bytes_of sources) ≤ most_reached bounds (bytes_of sources) → (verdict : Option Reports) →
        ValidatesDocuments bounds a sources None → ValidatesDocuments bounds b sources verdict → IfSome verdict ReportsNoLimit → verdict ≡ None }
{}

/// If the texts of a schema and of a document are valid, there is no other verdict on them.
///
/// Specification: 3 Type System; 5 Validation.
pub fn texts_have_one_verdict()
    ensures { (bounds : Bounds) (sources : List SourceText) (source : SourceText) →
        counted_bytes (length source.text.now) ≤ most_reached bounds (length source.text.now) → (verdict : Verdict) →
        Validates bounds sources source Valid → Validates bounds sources source verdict → HasNoLimit verdict → verdict ≡ Valid }
{}

/// Two verdicts on the same texts are both `Valid`, or neither is; and if one does not accept the schema, so that the document is
/// not looked at, nor does the other.
///
/// Specification: 3 Type System; 5 Validation.
pub fn texts_have_verdicts_of_one_kind()
    ensures { (bounds : Bounds) (sources : List SourceText) (source : SourceText) →
        counted_bytes (length source.text.now) ≤ most_reached bounds (length source.text.now) → (first second : Verdict) →
        Validates bounds sources source first → Validates bounds sources source second → HasNoLimit first → HasNoLimit second →
        (is_valid first ≡ is_valid second) × (refuses_schema first ≡ refuses_schema second) }
{}

/// The texts of a schema and of a document have verdicts of one kind: the law of the answers of `validate_texts`. If one of them is
/// `Valid`, so is each; and if one does not accept the schema, so that the document is not looked at, nor does another.
///
/// Specification: 3 Type System; 5 Validation.
pub fn a_text_has_one_verdict()
    ensures { (bounds : Bounds) (schema document : List ℕ) → counted_bytes (length document) ≤ most_reached bounds (length document) →
        (first second : Verdict) → ValidatesTexts bounds schema document first → ValidatesTexts bounds schema document second →
        HasNoLimit first → HasNoLimit second → (is_valid first ≡ is_valid second) × (refuses_schema first ≡ refuses_schema second) }
{}
