//! Laws of a schema that was accepted.

ghost use Rattle.graphql_specification.specs.DefaultValues.{DefaultValuesHold};
ghost use Rattle.graphql_specification.specs.Schemas.{SchemaHolds};
ghost use Rattle.graphql_specification.specs.BuiltInScalars.{SchemaRetainsUsedBuiltInScalars};
ghost use Rattle.graphql_documents.specs.declared.documents.schemas.Schema.{Schema};
ghost use Rattle.graphql_schema_laws.specs.BuiltInNames.{BuiltInNamesAreOfScalars, HasItsScalars};

/// A schema that was accepted is accepted again, as `validate_schema` leaves it: all holds of it once its built-in
/// scalars are retained, and where these are retained once more, its defaults hold again.
///
/// The schema has each built-in scalar that it uses. Where one is added by retaining, values that were given for it
/// before are looked at for the first time afterwards: `@flag(on: 3)` is accepted while `Boolean` is not defined, and
/// not once it is. What every schema has under the names of the built-in scalars are scalars; a schema's own type of
/// such a name may be anything.
///
/// Specification: 3 Type System; 3.5 Scalars, Built-in Scalars.
pub fn accepted_schema_is_accepted_again()
    ensures { (schema retained again : Schema) →
        BuiltInNamesAreOfScalars schema → HasItsScalars schema →
        SchemaHolds schema → SchemaRetainsUsedBuiltInScalars schema retained → DefaultValuesHold retained → SchemaRetainsUsedBuiltInScalars retained again →
        SchemaHolds retained × DefaultValuesHold again }
{}
