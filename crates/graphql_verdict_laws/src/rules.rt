//! Laws of rules: they hold of documents and schemas that are the same.

ghost use Rattle.std.specs.Prelude.{◌↔◌, None, Option, ℕ};
ghost use Rattle.graphql_building_laws.specs.SameSchemas.{SameSchema};
ghost use Rattle.graphql_document_building.specs.SameDocuments.{SameDocument};
ghost use Rattle.graphql_document_rules.specs.RuleSets.{nothing_off};
ghost use Rattle.graphql_documents.specs.Contents.{SameIfAny};
ghost use Rattle.graphql_documents.specs.declared.documents.executables.ExecutableDocument.{ExecutableDocument};
ghost use Rattle.graphql_documents.specs.declared.documents.schemas.Schema.{Schema};
ghost use Rattle.graphql_frontend.specs.Documents.{EveryRuleHolds, EveryRuleHoldsBut, ReachesWithinBounds};
ghost use Rattle.graphql_frontend.specs.Schemas.{IsAccepted};
ghost use Rattle.graphql_parser.specs.declared.bounds.Bounds.{Bounds};
ghost use Rattle.graphql_specification.specs.BuiltInScalars.{SchemaRetainsUsedBuiltInScalars};

/// If every rule holds of one of two documents that are the same, every rule holds of the other.
///
/// Specification: 5 Validation.
pub fn same_documents_hold_alike()
    ensures { (schema : Option Schema) (d e : ExecutableDocument) → SameDocument schema d e →
        EveryRuleHolds schema d → EveryRuleHolds schema e }
{}

/// If every rule holds of one of two documents that are the same, against one of two schemas that are the same, every
/// rule holds of the other document against the other schema. The definitions of the fields of the documents are the
/// same too, but not shared: `SameDocument None`.
///
/// Specification: 5 Validation.
pub fn same_documents_hold_alike_against_same_schemas()
    ensures { (a b : Option Schema) → SameIfAny SameSchema a b → (d e : ExecutableDocument) → SameDocument None d e →
        EveryRuleHolds a d → EveryRuleHolds b e }
{}

/// If one of two documents that are the same reaches within the bounds, so does the other.
///
/// Specification: 2.3 Operations, 2.8 Fragments.
pub fn same_documents_reach_within_bounds_alike()
    ensures { (bounds : Bounds) (bytes : ℕ) (d e : ExecutableDocument) → SameDocument None d e →
        ReachesWithinBounds bounds bytes d → ReachesWithinBounds bounds bytes e }
{}

/// If one of two schemas that are the same is accepted, so is the other, with its own used built-in scalars retained.
///
/// Specification: 3 Type System.
pub fn same_schemas_are_accepted_alike()
    ensures { (a b retained other : Schema) → SameSchema a b → IsAccepted a retained →
        SchemaRetainsUsedBuiltInScalars b other → IsAccepted b other }
{}

/// If no rule is off, all rules but those that are off hold of a document exactly if every rule holds of it.
///
/// Specification: 5 Validation.
pub fn every_rule_holds_if_none_is_off()
    ensures { (schema : Option Schema) (document : ExecutableDocument) →
        EveryRuleHoldsBut nothing_off schema document ↔ EveryRuleHolds schema document }
{}
