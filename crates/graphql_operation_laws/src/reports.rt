//! Laws of what is reported of an operation.

ghost use Rattle.std.specs.Prelude.{◌↔◌, Option};
ghost use Rattle.graphql_diagnostics.specs.declared.build_errors.BuildError.{BuildError};
ghost use Rattle.graphql_diagnostics.specs.declared.data.DiagnosticData.{DiagnosticData};
ghost use Rattle.graphql_diagnostics.specs.declared.details.Details.{Details};
ghost use Rattle.graphql_diagnostics.specs.declared.lists.DiagnosticEntry.{DiagnosticEntry};
ghost use Rattle.graphql_document_rules.specs.SingleRootField.{SubscriptionRootReport};
ghost use Rattle.graphql_documents.specs.Selections.{fragments_of};
ghost use Rattle.graphql_documents.specs.declared.documents.executables.ExecutableDocument.{ExecutableDocument};
ghost use Rattle.graphql_documents.specs.declared.documents.executables.Operation.{Operation};
ghost use Rattle.graphql_documents.specs.declared.documents.schemas.Schema.{Schema};
ghost use Rattle.graphql_nodes.specs.declared.nodes.Node.{Node};
ghost use Rattle.graphql_nodes.specs.declared.operation_types.OperationType.{OperationType};
ghost use Rattle.graphql_nodes.specs.declared.spans.SourceSpan.{SourceSpan};
ghost use Rattle.graphql_operation_laws.specs.Agreement.{AgreeFrom};
ghost use Rattle.graphql_specification.specs.Defer.{HasDeferAtRoot, HasFixedDefer};
ghost use Rattle.graphql_specification.specs.Merging.{MergingErrorReport};
ghost use Rattle.graphql_specification.specs.Operations.{OperationReport};
ghost use Rattle.graphql_usage_rules.specs.UndefinedVariables.{OperationUndefinedReport};
ghost use Rattle.graphql_usage_rules.specs.VariableMisuses.{OperationMisuseReport};
ghost use Rattle.graphql_usage_rules.specs.declared.reports.VariableMisuse.{VariableMisuse};

/// If two documents define the same fragments, as far as an operation reaches, a report is true of the operation with the fragments of
/// the one exactly if it is with those of the other: a report of its rules, of its root fields if it is a subscription, of `@defer`, of
/// merging, and of a variable that is not defined or is misused.
///
/// Specification: 5.2 Operations, 5.3 Fields, 5.4 Arguments, 5.5 Fragments, 5.6 Values, 5.7 Directives, 5.8 Variables.
pub fn operation_is_reported_by_reached()
    ensures rules { (schema : Option Schema) (a b : ExecutableDocument) (o : Operation) → AgreeFrom (fragments_of a) (fragments_of b) o.selection_set →
        (r : DiagnosticData) (at : Option SourceSpan) → OperationReport schema a o r at ↔ OperationReport schema b o r at }
    ensures root { (schema : Schema) (a b : ExecutableDocument) (o : Node Operation) → AgreeFrom (fragments_of a) (fragments_of b) o.value.value.selection_set →
        (d : Details) (at : Option SourceSpan) → SubscriptionRootReport schema (fragments_of a) o d at ↔ SubscriptionRootReport schema (fragments_of b) o d at }
    ensures defer_at_root { (a b : ExecutableDocument) (o : Operation) → AgreeFrom (fragments_of a) (fragments_of b) o.selection_set →
        (t : OperationType) (at : Option SourceSpan) → HasDeferAtRoot (fragments_of a) o t at ↔ HasDeferAtRoot (fragments_of b) o t at }
    ensures fixed_defer { (a b : ExecutableDocument) (o : Operation) → AgreeFrom (fragments_of a) (fragments_of b) o.selection_set →
        (at : Option SourceSpan) → HasFixedDefer (fragments_of a) o at ↔ HasFixedDefer (fragments_of b) o at }
    ensures merging { (schema : Schema) (a b : ExecutableDocument) (o : Operation) → AgreeFrom (fragments_of a) (fragments_of b) o.selection_set →
        (e : BuildError) (at : Option SourceSpan) → MergingErrorReport schema (fragments_of a) o.selection_set e at ↔ MergingErrorReport schema (fragments_of b) o.selection_set e at }
    ensures undefined { (a b : ExecutableDocument) (o : Operation) → AgreeFrom (fragments_of a) (fragments_of b) o.selection_set →
        (e : DiagnosticEntry) → OperationUndefinedReport (fragments_of a) o e ↔ OperationUndefinedReport (fragments_of b) o e }
    ensures misuse { (schema : Schema) (a b : ExecutableDocument) (o : Operation) → AgreeFrom (fragments_of a) (fragments_of b) o.selection_set →
        (m : VariableMisuse) → OperationMisuseReport schema a o m ↔ OperationMisuseReport schema b o m }
{}
