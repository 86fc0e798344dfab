//! Laws of operations.

ghost use Rattle.std.specs.Prelude.{◌↔◌, Option};
ghost use Rattle.graphql_documents.specs.Selections.{fragments_of};
ghost use Rattle.graphql_documents.specs.declared.documents.executables.ExecutableDocument.{ExecutableDocument};
ghost use Rattle.graphql_documents.specs.declared.documents.executables.Operation.{Operation};
ghost use Rattle.graphql_documents.specs.declared.documents.schemas.Schema.{Schema};
ghost use Rattle.graphql_nodes.specs.declared.nodes.Node.{Node};
ghost use Rattle.graphql_operation_laws.specs.Agreement.{AgreeFrom};
ghost use Rattle.graphql_operation_laws.specs.OperationRules.{OperationRulesHold};

/// If two documents define the same fragments, as far as an operation reaches, its rules hold with the fragments of the one exactly if
/// they hold with those of the other.
///
/// Specification: 5 Validation.
pub fn operation_holds_by_reached()
    ensures { (schema : Option Schema) (a b : ExecutableDocument) (o : Node Operation) →
        AgreeFrom (fragments_of a) (fragments_of b) o.value.value.selection_set → OperationRulesHold schema a o ↔ OperationRulesHold schema b o }
{}
