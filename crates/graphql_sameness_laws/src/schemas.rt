//! Laws of schemas that are the same.

ghost use Rattle.graphql_documents.specs.declared.documents.schemas.Schema.{Schema};
ghost use Rattle.graphql_input_rules.specs.SchemaValues.{SchemaInputFieldsAreUnique};
ghost use Rattle.graphql_specification.specs.BuiltInScalars.{SchemaRetainsUsedBuiltInScalars};
ghost use Rattle.graphql_specification.specs.DefaultValues.{DefaultValuesHold};
ghost use Rattle.graphql_specification.specs.Schemas.{SchemaHolds};
ghost use Rattle.graphql_building_laws.specs.SameSchemas.{SameSchema};

/// A schema is the same as itself.
///
/// Specification: 3 Type System.
pub fn schema_is_the_same_as_itself()
    ensures { (schema : Schema) → SameSchema schema schema }
{}

/// Sameness of schemas goes both ways.
///
/// Specification: 3 Type System.
pub fn sameness_of_schemas_goes_both_ways()
    ensures { (a b : Schema) → SameSchema a b → SameSchema b a }
{}

/// If one of two schemas that are the same holds, so does the other.
///
/// Specification: 3 Type System.
pub fn same_schemas_hold_alike()
    ensures { (a b : Schema) → SameSchema a b → SchemaHolds a → SchemaHolds b }
{}

/// Schemas that are the same still are once their used built-in scalars are retained.
///
/// Specification: 3.5 Scalars, Built-in Scalars.
pub fn same_schemas_retain_the_same_scalars()
    ensures { (a b retained other : Schema) → SameSchema a b → SchemaRetainsUsedBuiltInScalars a retained →
        SchemaRetainsUsedBuiltInScalars b other → SameSchema retained other }
{}

/// If the default values of one of two schemas that are the same hold, so do those of the other.
///
/// Specification: 3.6.1 Field Arguments, 3.10 Input Objects.
pub fn default_values_of_same_schemas_hold_alike()
    ensures { (a b : Schema) → SameSchema a b → DefaultValuesHold a → DefaultValuesHold b }
{}

/// If the object values in one of two schemas that are the same give each input field once, so do those in the other.
///
/// Specification: 5.6.3 Input Object Field Uniqueness.
pub fn input_fields_of_same_schemas_are_unique_alike()
    ensures { (a b : Schema) → SameSchema a b → SchemaInputFieldsAreUnique a → SchemaInputFieldsAreUnique b }
{}
