//! Laws of the values that input types have.

ghost use Rattle.graphql_documents.specs.Built.{StandsUnderOwnNames};
ghost use Rattle.graphql_specification.specs.Values.{HasFiniteValue};
ghost use Rattle.graphql_specification.specs.InputValueDefinitions.{NamesType};
ghost use Rattle.graphql_specification.specs.Schemas.{SchemaHolds};
ghost use Rattle.graphql_documents.specs.Schemas.{is_input_type};
ghost use Rattle.graphql_specification.specs.BuiltInScalars.{BuiltInScalarsHaveTheirNames, SchemaRetainsUsedBuiltInScalars};
ghost use Rattle.graphql_documents.specs.TypeReferences.{inner_named_type};
ghost use Rattle.graphql_documents.specs.declared.documents.schemas.Schema.{Schema};
ghost use Rattle.graphql_documents.specs.declared.documents.type_references.Type.{«Type»};
ghost use Rattle.graphql_schema_laws.specs.InputFields.{InputObjectsHaveFieldsOfMaps};

/// In a schema that holds, each type of an input has a value that can be written down, non-null types too:
/// no chain of required fields comes back, and no enum is empty.
///
/// Specification: 3.10 Input Objects, Circular References.
pub fn each_input_type_has_a_finite_value()
    ensures { (schema : Schema) (ty : «Type») →
        SchemaHolds schema → StandsUnderOwnNames schema → BuiltInScalarsHaveTheirNames schema →
        InputObjectsHaveFieldsOfMaps schema →
        NamesType schema is_input_type (inner_named_type ty) → HasFiniteValue schema ty }
{}

/// So it is once the built-in scalars of such a schema are retained, whatever is listed under their names.
///
/// Specification: 3.5 Scalars, Built-in Scalars; 3.10 Input Objects, Circular References.
pub fn each_input_type_of_the_retained_schema_has_a_finite_value()
    ensures { (schema retained : Schema) (ty : «Type») →
        SchemaHolds schema → StandsUnderOwnNames schema → BuiltInScalarsHaveTheirNames schema →
        InputObjectsHaveFieldsOfMaps schema → SchemaRetainsUsedBuiltInScalars schema retained →
        NamesType retained is_input_type (inner_named_type ty) → HasFiniteValue retained ty }
{}
