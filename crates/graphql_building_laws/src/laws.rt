//! Laws of what is built from texts.

ghost use Rattle.std.specs.Prelude.{List, Some};
ghost use Rattle.graphql_documents.specs.Built.{IsBuilt, StandsUnderOwnNames};
ghost use Rattle.graphql_documents.specs.declared.documents.executables.ExecutableDocument.{ExecutableDocument};
ghost use Rattle.graphql_documents.specs.declared.documents.schemas.Schema.{Schema};
ghost use Rattle.graphql_specification.specs.BuiltInScalars.{SchemaRetainsUsedBuiltInScalars};
ghost use Rattle.graphql_specification.specs.Schemas.{SchemaHolds};
ghost use Rattle.graphql_document_building.specs.Documents.{DocumentSays, HasOutputFields};
ghost use Rattle.graphql_schema_building.specs.SchemaSays.{SchemaSays};
ghost use Rattle.graphql_building_laws.specs.MetaFieldTypes.{HasTypesOfMetaFields};
ghost use Rattle.graphql_building_laws.specs.SameSchemas.{SameSchema};
ghost use Rattle.graphql_trees.specs.declared.documents.Document.{Document};

/// The definitions of a schema that texts say are listed under their own names.
///
/// Specification: 3.3 Schema.
pub fn said_schema_is_under_own_names()
    ensures { (trees : List Document) (schema : Schema) → SchemaSays trees schema → StandsUnderOwnNames schema }
{}

/// They still are once the used built-in scalars of the schema are retained.
///
/// Specification: 3.5 Scalars, Built-in Scalars.
pub fn retained_schema_is_under_own_names()
    ensures { (schema retained : Schema) → StandsUnderOwnNames schema → SchemaRetainsUsedBuiltInScalars schema retained →
        StandsUnderOwnNames retained }
{}

/// Each field of a schema that holds is of a defined output type, once the used built-in scalars of the schema are
/// retained, if it has the types of its meta-fields.
///
/// Specification: 3.4.2 Input and Output Types; 3.6 Objects; 4.2 Schema Introspection.
pub fn retained_schema_has_output_fields()
    ensures { (schema retained : Schema) → SchemaHolds schema → SchemaRetainsUsedBuiltInScalars schema retained →
        HasTypesOfMetaFields retained → HasOutputFields retained }
{}

/// A document that a text says against a schema that texts say and that holds is built against it: the premise of
/// `validate_executable_document`.
///
/// Specification: 2.4 Selection Sets; 5.3.1 Field Selections.
pub fn document_of_a_text_is_built()
    ensures { (trees : List Document) (schema retained : Schema) (tree : Document) (document : ExecutableDocument) →
        SchemaSays trees schema → SchemaHolds schema → SchemaRetainsUsedBuiltInScalars schema retained → HasTypesOfMetaFields retained →
        DocumentSays (Some retained) tree document → IsBuilt retained document }
{}

/// Texts say one schema at most: two that they say are the same, part by part, but for places in memory.
///
/// Specification: 3 Type System.
pub fn said_schemas_are_the_same()
    ensures { (trees : List Document) (a b : Schema) → SchemaSays trees a → SchemaSays trees b → SameSchema a b }
{}
