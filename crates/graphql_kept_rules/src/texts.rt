//! Laws of documents that say one text, each against its own schema: rules that ask nothing of a schema hold of both.

ghost use Rattle.std.specs.Prelude.{All, Some, ℕ};
ghost use Rattle.indexmap.specs.IndexMap.{values};
ghost use Rattle.graphql_documents.specs.declared.documents.executables.ExecutableDocument.{ExecutableDocument};
ghost use Rattle.graphql_documents.specs.declared.documents.schemas.Schema.{Schema};
ghost use Rattle.graphql_document_building.specs.Documents.{DocumentSays};
ghost use Rattle.graphql_input_rules.specs.InputFields.{InputFieldsAreUnique};
ghost use Rattle.graphql_sameness_laws.specs.Nesting.{NestsWithin};
ghost use Rattle.graphql_reach.specs.Reach.{ReachesWithin};
ghost use Rattle.graphql_specification.specs.Defer.{DeferHolds};
ghost use Rattle.graphql_specification.specs.FragmentsUsed.{IsFragmentUsed};
ghost use Rattle.graphql_trees.specs.declared.documents.Document.{Document};
ghost use Rattle.graphql_usage_rules.specs.UndefinedVariables.{VariableUsesAreDefined};
ghost use Rattle.graphql_kept_rules.specs.SameTexts.{SameText};

/// Documents that one tree says against two schemas say one text.
///
/// Specification: 2.2 Document.
pub fn documents_of_one_tree_say_one_text()
    ensures { (old new : Schema) (tree : Document) (d e : ExecutableDocument) →
        DocumentSays (Some old) tree d → DocumentSays (Some new) tree e → SameText d e }
{}

/// If all fragments of one of two documents of one text are used, so are those of the other.
///
/// Specification: 5.5.1.4 Fragments Must Be Used.
pub fn fragments_of_one_text_are_used_alike()
    ensures { (d e : ExecutableDocument) → SameText d e →
        All (λ f. IsFragmentUsed d f.value.value) (values d.fragments) → All (λ f. IsFragmentUsed e f.value.value) (values e.fragments) }
{}

/// If `@defer` holds in one of two documents of one text, so it does in the other.
///
/// Specification: the incremental delivery proposal.
pub fn defer_in_one_text_holds_alike()
    ensures { (d e : ExecutableDocument) → SameText d e → DeferHolds d → DeferHolds e }
{}

/// If the variables that one of two documents of one text uses are defined, so are those of the other.
///
/// Specification: 5.8.3 All Variable Uses Defined.
pub fn variable_uses_of_one_text_are_defined_alike()
    ensures { (d e : ExecutableDocument) → SameText d e → VariableUsesAreDefined d → VariableUsesAreDefined e }
{}

/// If the object values in one of two documents of one text give each input field once, so do those in the other.
///
/// Specification: 5.6.3 Input Object Field Uniqueness.
pub fn input_fields_of_one_text_are_unique_alike()
    ensures { (d e : ExecutableDocument) → SameText d e → InputFieldsAreUnique d → InputFieldsAreUnique e }
{}

/// Documents of one text nest within the same bounds.
///
/// Specification: 2.4 Selection Sets, 2.8 Fragments.
pub fn documents_of_one_text_nest_alike()
    ensures { (most : ℕ) (d e : ExecutableDocument) → SameText d e → NestsWithin most d → NestsWithin most e }
{}

/// The operations of documents of one text reach as many bytes.
///
/// Specification: 2.3 Operations, 2.8 Fragments.
pub fn documents_of_one_text_reach_alike()
    ensures { (most : ℕ) (d e : ExecutableDocument) → SameText d e → ReachesWithin most d → ReachesWithin most e }
{}
