//! Laws of the definitions of `@defer`.
//!
//! Each function here does nothing. Its contract is the law.

ghost use Rattle.std.specs.Prelude.{◌≡◌, ◌↔◌, Contains, List};
ghost use Rattle.graphql_specification.specs.Defer.{DefersIn};
ghost use Rattle.graphql_documents.specs.declared.documents.directives.Directive.{Directive};
ghost use Rattle.graphql_documents.specs.declared.documents.executables.ExecutableDocument.{ExecutableDocument};
ghost use Rattle.graphql_nodes.specs.declared.nodes.Node.{Node};
ghost use Rattle.graphql_operations.specs.DeferLabels.{IsWrittenDefer};

/// Each document has one list of `@defer` applications, of which the rule on labels speaks: there is such a list,
/// there is no other, and it holds exactly those that are written in the operations and fragments.
///
/// Specification: the incremental delivery proposal, Directive Labels Are Unique.
pub fn document_has_one_list_of_written_defers()
    ensures exists { (document : ExecutableDocument) → (applications : List (Node Directive)) × DefersIn document applications }
    ensures unique { (document : ExecutableDocument) (a b : List (Node Directive)) → DefersIn document a → DefersIn document b → a ≡ b }
    ensures written { (document : ExecutableDocument) (applications : List (Node Directive)) → DefersIn document applications →
        (d : Node Directive) → Contains applications d ↔ IsWrittenDefer document d }
{}
