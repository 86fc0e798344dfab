//! Laws of what is built: what holds of every document that a tree says.
//!
//! Each function here does nothing. Its contract is the law.

ghost use Rattle.std.specs.Prelude.{Option, Some};
ghost use Rattle.graphql_documents.specs.Built.{IsBuilt, StandsUnderOwnNames};
ghost use Rattle.graphql_documents.specs.declared.documents.executables.ExecutableDocument.{ExecutableDocument};
ghost use Rattle.graphql_documents.specs.declared.documents.schemas.Schema.{Schema};
ghost use Rattle.graphql_document_building.specs.Documents.{DocumentSays, HasOutputFields};
ghost use Rattle.graphql_document_building.specs.SameDocuments.{SameDocument};
ghost use Rattle.graphql_trees.specs.declared.documents.Document.{Document};

/// A document that a tree says against a schema is built against it: where the definitions of the schema are
/// listed under their own names, and each field of its types is of an output type, each set and field of the
/// document has the type and the definition of its place.
///
/// Specification: 2.4 Selection Sets, 5.3.1 Field Selections.
pub fn said_document_is_built()
    ensures { (schema : Schema) (tree : Document) (document : ExecutableDocument) →
        DocumentSays (Some schema) tree document → StandsUnderOwnNames schema → HasOutputFields schema → IsBuilt schema document }
{}

/// A tree says one document at most, against a schema or without one: two that it says are the same, part by part, but for
/// places in memory and the seeds of their maps.
///
/// Specification: 2.2 Document.
pub fn said_documents_are_the_same()
    ensures { (schema : Option Schema) (tree : Document) (a b : ExecutableDocument) →
        DocumentSays schema tree a → DocumentSays schema tree b → SameDocument schema a b }
{}
