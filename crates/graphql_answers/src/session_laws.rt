//! Laws of sessions: what is answered of a schema that is kept is what `validate` and `validate_schema` answer of its text.
//!
//! Each function here does nothing. Its contract is the law.

ghost use Rattle.std.specs.Prelude.{◌≡◌, [], ◌∷◌, List, Option, Some, ℕ};
ghost use Rattle.graphql_answers.specs.Answers.{Finds, FindsInSchema, default_limits};
ghost use Rattle.graphql_answers.specs.Sessions.{FindsAgainst, FindsInFiles, IsReadFrom};
ghost use Rattle.graphql_answers.specs.declared.answers.Found.{Found};
ghost use Rattle.graphql_answers.specs.declared.files.SchemaFile.{SchemaFile};
ghost use Rattle.graphql_documents.specs.declared.documents.schemas.Schema.{Schema};

/// By the default limits, what is found in a document against a schema that was read of one file without a name is what `validate`
/// finds in the document and the text of that file.
///
/// Specification: 3 Type System; 5 Validation.
pub fn documents_are_answered_alike()
    ensures { (file : SchemaFile) (schema : Schema) (read : List ℕ) → file.name.now ≡ [] →
        IsReadFrom default_limits (file ∷ []) (Some schema) read → (document : List ℕ) (found : Found) (json : List ℕ) →
        FindsAgainst default_limits schema document found json → Finds file.text.now document found json }
{}

/// By the default limits, what is found in one file without a name is what `validate_schema` finds in its text.
///
/// Specification: 3 Type System.
pub fn schemas_are_answered_alike()
    ensures { (file : SchemaFile) (schema : Option Schema) (found : Found) (json : List ℕ) → file.name.now ≡ [] →
        FindsInFiles default_limits (file ∷ []) schema found json → FindsInSchema file.text.now found json }
{}
