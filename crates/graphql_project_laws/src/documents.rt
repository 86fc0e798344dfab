//! Laws of documents and their operations.

ghost use Rattle.std.specs.Prelude.{◌↔◌, All, Option};
ghost use Rattle.graphql_documents.specs.Executables.{operations_of};
ghost use Rattle.graphql_documents.specs.declared.documents.executables.ExecutableDocument.{ExecutableDocument};
ghost use Rattle.graphql_documents.specs.declared.documents.schemas.Schema.{Schema};
ghost use Rattle.graphql_frontend.specs.Documents.{EveryRuleHolds};
ghost use Rattle.graphql_input_rules.specs.InputFields.{InputFieldsAreUnique};
ghost use Rattle.graphql_operation_laws.specs.OperationRules.{OperationRulesHold};
ghost use Rattle.graphql_specification.specs.Defer.{LabelsHold};
ghost use Rattle.graphql_specification.specs.FragmentsUsed.{IsFragmentUsed};
ghost use Rattle.indexmap.specs.IndexMap.{values};

/// Every rule holds of a document exactly if those that are asked of one operation hold of each of its operations, labels of `@defer`
/// differ in it, its fragments are used, and its object values give each input field once.
///
/// Specification: 5 Validation.
pub fn document_holds_by_operations()
    ensures { (schema : Option Schema) (document : ExecutableDocument) → EveryRuleHolds schema document ↔
        (All (OperationRulesHold schema document) (operations_of document) × LabelsHold document ×
        All (λ d. IsFragmentUsed document d.value.value) (values document.fragments) × InputFieldsAreUnique document) }
{}
