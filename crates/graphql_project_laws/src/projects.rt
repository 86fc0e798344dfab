//! Laws of projects.

ghost use Rattle.std.specs.Prelude.{◌↔◌, ◌∷◌, [], Some};
ghost use Rattle.graphql_document_building.specs.BuildingRules.{DocumentBuilds};
ghost use Rattle.graphql_document_building.specs.Documents.{DocumentSays};
ghost use Rattle.graphql_documents.specs.declared.documents.executables.ExecutableDocument.{ExecutableDocument};
ghost use Rattle.graphql_documents.specs.declared.documents.schemas.Schema.{Schema};
ghost use Rattle.graphql_frontend.specs.Documents.{EveryRuleHolds};
ghost use Rattle.graphql_frontend.specs.Texts.{IsDocumentOf};
ghost use Rattle.graphql_frontend.specs.declared.texts.SourceText.{SourceText};
ghost use Rattle.graphql_parser.specs.declared.bounds.Bounds.{Bounds};
ghost use Rattle.graphql_projects.specs.Projects.{ProjectHolds};
ghost use Rattle.graphql_projects.specs.Lexical.{AreTokens};
ghost use Rattle.graphql_trees.specs.declared.documents.Document.{Document};

/// If a project of one file holds, which has a token, and no file is lent, the text of the file is a document, it builds, and every rule
/// holds of it, whichever typed values say it.
///
/// Specification: 5 Validation.
pub fn one_file_is_a_valid_document()
    ensures { (bounds : Bounds) (schema : Schema) (source : SourceText) → ¬ AreTokens source.text.now [] → ProjectHolds bounds schema (source ∷ []) [] →
        (tree : Document) × IsDocumentOf bounds source tree × DocumentBuilds (Some schema) tree ×
        ((document : ExecutableDocument) → DocumentSays (Some schema) tree document → EveryRuleHolds (Some schema) document) }
{}

/// If the text of a file is a document, it builds, and every rule holds of a typed document that it says, the project of this one file
/// holds, with no file lent. Where the file has a token, the project holds exactly if that is so.
///
/// Specification: 5 Validation.
pub fn a_valid_document_is_a_project_of_one_file()
    ensures holds { (bounds : Bounds) (schema : Schema) (source : SourceText) (tree : Document) (document : ExecutableDocument) → IsDocumentOf bounds source tree →
        DocumentBuilds (Some schema) tree → DocumentSays (Some schema) tree document → EveryRuleHolds (Some schema) document →
        ProjectHolds bounds schema (source ∷ []) [] }
    ensures exactly { (bounds : Bounds) (schema : Schema) (source : SourceText) → ¬ AreTokens source.text.now [] → ProjectHolds bounds schema (source ∷ []) [] ↔
        ((tree : Document) × (document : ExecutableDocument) × IsDocumentOf bounds source tree × DocumentBuilds (Some schema) tree ×
        DocumentSays (Some schema) tree document × EveryRuleHolds (Some schema) document) }
{}
