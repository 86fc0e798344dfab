//! Laws of variables.

ghost use Rattle.std.specs.Prelude.{◌↔◌, []};
ghost use Rattle.graphql_documents.specs.Selections.{Fragments};
ghost use Rattle.graphql_specification.specs.Variables.{AreUsesReports, VariablesAreUsed};
ghost use Rattle.graphql_documents.specs.declared.documents.executables.Operation.{Operation};

/// The uses of an operation's variables bring no report exactly where each of them is used.
///
/// Specification: 5.8.4 All Variables Used.
pub fn no_report_of_uses_means_that_all_are_used()
    ensures { (fragments : Fragments) (operation : Operation) →
        AreUsesReports fragments operation [] ↔ VariablesAreUsed fragments operation }
{}
