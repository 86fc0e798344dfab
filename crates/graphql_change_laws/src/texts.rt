//! The law of changes of schemas for texts.
//!
//! A premise says that no diagnostic of a limit is reported, since a walk that meets its limit may leave a rule undecided. Another
//! says that the operations of a document may reach as many bytes as count: a bound of one or more allows it, for texts of less
//! than 2 ^ 64 bytes.

ghost use Rattle.std.specs.Prelude.{◌≡◌, ◌≤◌, IfSome, None, Option, Some, length};
ghost use Rattle.graphql_documents.specs.declared.documents.schemas.Schema.{Schema};
ghost use Rattle.graphql_frontend.specs.Documents.{ValidatesDocument, counted_bytes, most_reached};
ghost use Rattle.graphql_frontend.specs.Schemas.{IsAccepted, IsUsable};
ghost use Rattle.graphql_frontend.specs.declared.reports.Reports.{Reports};
ghost use Rattle.graphql_frontend.specs.declared.texts.SourceText.{SourceText};
ghost use Rattle.graphql_kept_rules.specs.InputTypes.{HasCompositeRoots, HasMetaArgumentTypes};
ghost use Rattle.graphql_parser.specs.declared.bounds.Bounds.{Bounds};
ghost use Rattle.graphql_kept_rules.specs.Keeps.{KeepsDocumentsValid};
ghost use Rattle.graphql_schema_laws.specs.InputFields.{InputObjectsHaveFieldsOfMaps};
ghost use Rattle.graphql_verdict_laws.specs.Limits.{ReportsNoLimit};

/// If the text of a document is valid against a schema, it is valid against each one that keeps documents valid, unless a limit is
/// reported.
///
/// Specification: 5 Validation.
pub fn kept_texts_stay_valid()
    ensures { (bounds : Bounds) (said old new : Schema) → IsAccepted said old → IsUsable old → HasCompositeRoots old → HasMetaArgumentTypes old →
        IsUsable new → InputObjectsHaveFieldsOfMaps new → KeepsDocumentsValid old new →
        (source : SourceText) → counted_bytes (length source.text.now) ≤ most_reached bounds (length source.text.now) → (verdict : Option Reports) →
        ValidatesDocument bounds (Some old) source None → ValidatesDocument bounds (Some new) source verdict → IfSome verdict ReportsNoLimit → verdict ≡ None }
{}
