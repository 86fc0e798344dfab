//! Laws of documents against a schema that keeps what an older one had.

ghost use Rattle.std.specs.Prelude.{All, Some};
ghost use Rattle.graphql_kept_rules.specs.InputTypes.{HasCompositeRoots, HasInputTypes};
ghost use Rattle.graphql_document_building.specs.BuildingRules.{DocumentBuilds};
ghost use Rattle.graphql_document_building.specs.Documents.{DocumentSays, HasOutputFields};
ghost use Rattle.graphql_documents.specs.Built.{StandsUnderOwnNames};
ghost use Rattle.graphql_documents.specs.Executables.{operations_of};
ghost use Rattle.graphql_documents.specs.Selections.{fragments_of};
ghost use Rattle.graphql_documents.specs.declared.documents.executables.ExecutableDocument.{ExecutableDocument};
ghost use Rattle.graphql_documents.specs.declared.documents.schemas.Schema.{Schema};
ghost use Rattle.graphql_input_rules.specs.InputFields.{InputFieldsAreUnique};
ghost use Rattle.graphql_schema_changes.specs.Keeps.{KeepsDocumentsValid, KeepsLoneFieldsValid};
ghost use Rattle.graphql_schema_laws.specs.InputFields.{InputObjectsHaveFieldsOfMaps};
ghost use Rattle.graphql_specification.specs.Merging.{FieldsCanMerge};
ghost use Rattle.graphql_specification.specs.Operations.{OperationHolds};
ghost use Rattle.graphql_trees.specs.declared.documents.Document.{Document};
ghost use Rattle.graphql_usage_rules.specs.VariableMisuses.{VariableUsagesAreAllowed};

/// What can be built against a schema can be built against one that keeps documents valid, whatever fields come together.
///
/// Specification: 5.3.1 Field Selections, 5.3.3 Leaf Field Selections, 5.5.1.2 Fragment Spread Type Existence, 5.5.1.3 Fragments
/// On Composite Types.
pub fn kept_documents_build()
    ensures { (old new : Schema) → KeepsLoneFieldsValid old new → (tree : Document) → DocumentBuilds (Some old) tree → DocumentBuilds (Some new) tree }
{}

/// The operations of a document hold against a schema that keeps documents valid, if they held: by the rules of fields and
/// their arguments, of fragments, values, directives and variables.
///
/// Specification: 5.2 Operations, 5.3 Fields, 5.4 Arguments, 5.5 Fragments, 5.6 Values, 5.7 Directives, 5.8 Variables.
pub fn kept_operations_hold()
    ensures { (old new : Schema) → KeepsLoneFieldsValid old new → HasOutputFields old → HasInputTypes old → HasCompositeRoots old → InputObjectsHaveFieldsOfMaps new →
        (tree : Document) (d e : ExecutableDocument) → DocumentBuilds (Some old) tree → DocumentSays (Some old) tree d → DocumentSays (Some new) tree e →
        All (λ o. OperationHolds (Some old) d o.value.value) (operations_of d) → All (λ o. OperationHolds (Some new) e o.value.value) (operations_of e) }
{}

/// The fields of a document merge against a schema that keeps documents valid, if they did.
///
/// Specification: 5.3.2 Field Selection Merging.
pub fn kept_fields_merge()
    ensures { (old new : Schema) → KeepsDocumentsValid old new → HasOutputFields old → HasInputTypes old → HasCompositeRoots old → InputObjectsHaveFieldsOfMaps new →
        StandsUnderOwnNames new →
        (tree : Document) (d e : ExecutableDocument) → DocumentBuilds (Some old) tree → DocumentSays (Some old) tree d → DocumentSays (Some new) tree e →
        All (λ o. OperationHolds (Some old) d o.value.value) (operations_of d) →
        All (λ o. FieldsCanMerge old (fragments_of d) o.value.value.selection_set) (operations_of d) →
        All (λ o. FieldsCanMerge new (fragments_of e) o.value.value.selection_set) (operations_of e) }
{}

/// All usages of variables in a document are allowed against a schema that keeps documents valid, if they were, and if each
/// object value of the document gives each input field once.
///
/// Specification: 5.8.5 All Variable Usages Are Allowed.
pub fn kept_usages_are_allowed()
    ensures { (old new : Schema) → KeepsLoneFieldsValid old new → HasOutputFields old → HasInputTypes old → HasCompositeRoots old → InputObjectsHaveFieldsOfMaps new →
        (tree : Document) (d e : ExecutableDocument) → DocumentBuilds (Some old) tree → DocumentSays (Some old) tree d → DocumentSays (Some new) tree e →
        InputFieldsAreUnique d → All (λ o. OperationHolds (Some old) d o.value.value) (operations_of d) →
        VariableUsagesAreAllowed old d → VariableUsagesAreAllowed new e }
{}
