//! The laws of changes of schemas, for schemas that were read and accepted. Further premises are facts of all schemas that texts
//! say: the root types are composite, the argument of `__type` is of an input type, and input objects have the fields of maps.

ghost use Rattle.std.specs.Prelude.{All, Some};
ghost use Rattle.graphql_document_building.specs.BuildingRules.{DocumentBuilds};
ghost use Rattle.graphql_document_building.specs.Documents.{DocumentSays};
ghost use Rattle.graphql_documents.specs.Executables.{operations_of};
ghost use Rattle.graphql_documents.specs.Selections.{fragments_of};
ghost use Rattle.graphql_documents.specs.declared.documents.executables.ExecutableDocument.{ExecutableDocument};
ghost use Rattle.graphql_documents.specs.declared.documents.schemas.Schema.{Schema};
ghost use Rattle.graphql_frontend.specs.Documents.{EveryRuleHolds};
ghost use Rattle.graphql_frontend.specs.Schemas.{IsAccepted, IsUsable};
ghost use Rattle.graphql_kept_rules.specs.InputTypes.{HasCompositeRoots, HasMetaArgumentTypes};
ghost use Rattle.graphql_lone_fields.specs.LoneFields.{HasLoneFields};
ghost use Rattle.graphql_kept_rules.specs.Keeps.{KeepsDocumentsValid, KeepsLoneFieldsValid};
ghost use Rattle.graphql_schema_laws.specs.InputFields.{InputObjectsHaveFieldsOfMaps};
ghost use Rattle.graphql_trees.specs.declared.documents.Document.{Document};

/// A document that is valid against a schema is valid against each one that keeps documents valid: it can be built against it,
/// and every rule holds of what the same text then says.
///
/// Specification: 5 Validation.
pub fn kept_documents_stay_valid()
    ensures { (said old new : Schema) → IsAccepted said old → IsUsable old → HasCompositeRoots old → HasMetaArgumentTypes old →
        IsUsable new → InputObjectsHaveFieldsOfMaps new → KeepsDocumentsValid old new →
        (tree : Document) (d : ExecutableDocument) → DocumentBuilds (Some old) tree → DocumentSays (Some old) tree d → EveryRuleHolds (Some old) d →
        DocumentBuilds (Some new) tree × ((e : ExecutableDocument) → DocumentSays (Some new) tree e → EveryRuleHolds (Some new) e) }
{}

/// A document in which no two fields come together in a response, except equal leaves, stays valid by less:
/// `KeepsLoneFieldsValid` asks nothing for the merging of fields.
///
/// Specification: 5 Validation, 5.3.2 Field Selection Merging.
pub fn kept_documents_with_lone_fields_stay_valid()
    ensures { (said old new : Schema) → IsAccepted said old → IsUsable old → HasCompositeRoots old → HasMetaArgumentTypes old →
        IsUsable new → InputObjectsHaveFieldsOfMaps new → KeepsLoneFieldsValid old new →
        (tree : Document) (d : ExecutableDocument) → DocumentBuilds (Some old) tree → DocumentSays (Some old) tree d → EveryRuleHolds (Some old) d →
        DocumentBuilds (Some new) tree × ((e : ExecutableDocument) → DocumentSays (Some new) tree e →
        All (λ o. HasLoneFields (fragments_of e) o.value.value.selection_set) (operations_of e) → EveryRuleHolds (Some new) e) }
{}
