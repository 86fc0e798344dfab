//! Laws of the grammar.

ghost use Rattle.std.specs.Prelude.{◌≡◌, ℕ, List};
ghost use Rattle.graphql_nodes.specs.declared.spans.FileId.{FileId};
ghost use Rattle.graphql_parser.specs.Parses.{ParsesDocument};
ghost use Rattle.graphql_parser.specs.Refusals.{error_at, error_token, IsRefusal};
ghost use Rattle.graphql_parser.specs.declared.bounds.Bounds.{Bounds};
ghost use Rattle.graphql_parser.specs.declared.errors.SyntaxError.{SyntaxError};
ghost use Rattle.graphql_parser.specs.declared.errors.SyntaxError.TheVariants.{OutOfMemory};
ghost use Rattle.graphql_trees.specs.declared.documents.Document.{Document};

/// A text is one document at most, whatever the bounds.
///
/// Specification: 2.2 Document.
pub fn a_text_is_one_document()
    ensures { (bounds others : Bounds) (file_id : FileId) (text : List ℕ) (tree other : Document) →
        ParsesDocument bounds file_id text tree → ParsesDocument others file_id text other → tree ≡ other }
{}

/// A syntax error of a text is at one place, and names one token there or none: the text has no other
/// within these bounds. So the first of the faults of a text is the one that is reported.
///
/// Specification: 2.2 Document, and Appendix B Grammar Summary.
pub fn a_syntax_error_has_one_place()
    ensures { (bounds : Bounds) (file_id : FileId) (text : List ℕ) (error other : SyntaxError) →
        IsRefusal bounds file_id text error → IsRefusal bounds file_id text other → (error ≡ OutOfMemory → ⊥) → (other ≡ OutOfMemory → ⊥) →
        (error_at text error ≡ error_at text other) × (error_token error ≡ error_token other) }
{}
