//! Laws of documents that are the same, against schemas that are the same or without a schema. Their definitions of fields are
//! the same as well, but need not be shared: `SameDocument None`.

ghost use Rattle.std.specs.Prelude.{All, None, Option, Some, ℕ};
ghost use Rattle.indexmap.specs.IndexMap.{values};
ghost use Rattle.graphql_documents.specs.Contents.{SameIfAny};
ghost use Rattle.graphql_documents.specs.Executables.{operations_of};
ghost use Rattle.graphql_documents.specs.Selections.{fragments_of};
ghost use Rattle.graphql_documents.specs.declared.documents.executables.ExecutableDocument.{ExecutableDocument};
ghost use Rattle.graphql_documents.specs.declared.documents.schemas.Schema.{Schema};
ghost use Rattle.graphql_input_rules.specs.InputFields.{InputFieldsAreUnique};
ghost use Rattle.graphql_nesting.specs.Nesting.{NestsWithin};
ghost use Rattle.graphql_reach.specs.Reach.{ReachesWithin};
ghost use Rattle.graphql_specification.specs.Defer.{DeferHolds};
ghost use Rattle.graphql_specification.specs.FragmentsUsed.{IsFragmentUsed};
ghost use Rattle.graphql_specification.specs.Merging.{FieldsCanMerge};
ghost use Rattle.graphql_specification.specs.Operations.{OperationHolds};
ghost use Rattle.graphql_document_building.specs.BuildingRules.{DocumentBuilds};
ghost use Rattle.graphql_document_building.specs.Documents.{DocumentSays};
ghost use Rattle.graphql_document_building.specs.SameDocuments.{SameDocument};
ghost use Rattle.graphql_trees.specs.declared.documents.Document.{Document};
ghost use Rattle.graphql_usage_rules.specs.UndefinedVariables.{VariableUsesAreDefined};
ghost use Rattle.graphql_usage_rules.specs.VariableMisuses.{VariableUsagesAreAllowed};
ghost use Rattle.graphql_building_laws.specs.SameSchemas.{SameSchema};

/// Documents that share the definitions of a schema are the same as documents with definitions of their own.
///
/// Specification: 2.2 Document.
pub fn documents_of_one_schema_are_the_same()
    ensures { (schema : Option Schema) (d e : ExecutableDocument) → SameDocument schema d e → SameDocument None d e }
{}

/// Sameness of documents goes both ways.
///
/// Specification: 2.2 Document.
pub fn sameness_of_documents_goes_both_ways()
    ensures { (d e : ExecutableDocument) → SameDocument None d e → SameDocument None e d }
{}

/// What can be built against a schema can be built against a schema that is the same.
///
/// Specification: 5.3.1 Field Selections, 5.3.3 Leaf Field Selections, 5.5.1.3 Fragments On Composite Types.
pub fn documents_build_against_same_schemas_alike()
    ensures { (a b : Schema) → SameSchema a b → (tree : Document) → DocumentBuilds (Some a) tree → DocumentBuilds (Some b) tree }
{}

/// Documents that one tree says against schemas that are the same are the same.
///
/// Specification: 2.2 Document.
pub fn documents_said_against_same_schemas_are_the_same()
    ensures { (a b : Option Schema) → SameIfAny SameSchema a b → (tree : Document) (d e : ExecutableDocument) →
        DocumentSays a tree d → DocumentSays b tree e → SameDocument None d e }
{}

/// If the operations of one of two documents that are the same hold, so do those of the other.
///
/// Specification: 5.2 Operations, 5.3 Fields, 5.4 Arguments, 5.5 Fragments, 5.6 Values, 5.7 Directives, 5.8 Variables.
pub fn operations_of_same_documents_hold_alike()
    ensures { (a b : Option Schema) → SameIfAny SameSchema a b → (d e : ExecutableDocument) → SameDocument None d e →
        All (λ o. OperationHolds a d o.value.value) (operations_of d) → All (λ o. OperationHolds b e o.value.value) (operations_of e) }
{}

/// If all fragments of one of two documents that are the same are used, so are those of the other.
///
/// Specification: 5.5.1.4 Fragments Must Be Used.
pub fn fragments_of_same_documents_are_used_alike()
    ensures { (d e : ExecutableDocument) → SameDocument None d e →
        All (λ f. IsFragmentUsed d f.value.value) (values d.fragments) → All (λ f. IsFragmentUsed e f.value.value) (values e.fragments) }
{}

/// If `@defer` holds in one of two documents that are the same, so it does in the other.
///
/// Specification: the incremental delivery proposal.
pub fn defer_in_same_documents_holds_alike()
    ensures { (d e : ExecutableDocument) → SameDocument None d e → DeferHolds d → DeferHolds e }
{}

/// If the fields of one of two documents that are the same can merge, so can those of the other.
///
/// Specification: 5.3.2 Field Selection Merging.
pub fn fields_of_same_documents_merge_alike()
    ensures { (a b : Schema) → SameSchema a b → (d e : ExecutableDocument) → SameDocument None d e →
        All (λ o. FieldsCanMerge a (fragments_of d) o.value.value.selection_set) (operations_of d) →
        All (λ o. FieldsCanMerge b (fragments_of e) o.value.value.selection_set) (operations_of e) }
{}

/// If the variables that one of two documents that are the same uses are defined, so are those of the other.
///
/// Specification: 5.8.3 All Variable Uses Defined.
pub fn variable_uses_of_same_documents_are_defined_alike()
    ensures { (d e : ExecutableDocument) → SameDocument None d e → VariableUsesAreDefined d → VariableUsesAreDefined e }
{}

/// If all usages of variables in one of two documents that are the same are allowed, so are those in the other.
///
/// Specification: 5.8.5 All Variable Usages Are Allowed.
pub fn variable_usages_of_same_documents_are_allowed_alike()
    ensures { (a b : Schema) → SameSchema a b → (d e : ExecutableDocument) → SameDocument None d e →
        VariableUsagesAreAllowed a d → VariableUsagesAreAllowed b e }
{}

/// If the object values in one of two documents that are the same give each input field once, so do those in the other.
///
/// Specification: 5.6.3 Input Object Field Uniqueness.
pub fn input_fields_of_same_documents_are_unique_alike()
    ensures { (d e : ExecutableDocument) → SameDocument None d e → InputFieldsAreUnique d → InputFieldsAreUnique e }
{}

/// Documents that are the same nest within the same bounds.
///
/// Specification: 2.4 Selection Sets, 2.8 Fragments.
pub fn same_documents_nest_alike()
    ensures { (most : ℕ) (d e : ExecutableDocument) → SameDocument None d e → NestsWithin most d → NestsWithin most e }
{}

/// The operations of documents that are the same reach as many bytes.
///
/// Specification: 2.3 Operations, 2.8 Fragments.
pub fn same_documents_reach_alike()
    ensures { (most : ℕ) (d e : ExecutableDocument) → SameDocument None d e → ReachesWithin most d → ReachesWithin most e }
{}
