//! Laws of the type map that a schema has once its built-in scalars are retained.

ghost use Rattle.std.specs.Prelude.{◌≡◌, List, Contains, IsFalse, IsSome};
ghost use Rattle.graphql_nodes.specs.Names.{NameText};
ghost use Rattle.graphql_specification.specs.Schemas.{SchemaHolds};
ghost use Rattle.graphql_documents.specs.Schemas.{type_definition};
ghost use Rattle.graphql_specification.specs.BuiltInScalars.{names_built_in_scalar, types_referred, RetainsUsedBuiltInScalars, SchemaRetainsUsedBuiltInScalars, OnlyScalarsHaveBuiltInNames};
ghost use Rattle.graphql_schema_laws.specs.BuiltInNames.{BuiltInNamesAreOfScalars};
ghost use Rattle.graphql_documents.specs.declared.documents.schemas.ExtendedType.{ExtendedType};
ghost use Rattle.graphql_documents.specs.declared.documents.schemas.Schema.{Schema};

/// A retained schema refers to the same types, in the same order: the scalars that came and went refer
/// to none.
///
/// Specification: 3.5 Scalars, Built-in Scalars.
pub fn retained_schema_refers_to_the_same_types()
    ensures { (schema retained : Schema) →
        BuiltInNamesAreOfScalars schema → SchemaRetainsUsedBuiltInScalars schema retained →
        types_referred retained ≡ types_referred schema }
{}

/// A schema that is retained once more stays as it is, if what every schema has under the names of the
/// built-in scalars are scalars.
///
/// Specification: 3.5 Scalars, Built-in Scalars.
pub fn schema_that_is_retained_again_stays_as_it_is()
    ensures { (schema retained : Schema) (again : List (NameText × ExtendedType)) →
        BuiltInNamesAreOfScalars schema → SchemaRetainsUsedBuiltInScalars schema retained → RetainsUsedBuiltInScalars retained again →
        again ≡ retained.types.entries }
{}

/// A name that is none of the five stands for what it stood for before the schema was retained.
///
/// Specification: 3.5 Scalars, Built-in Scalars.
pub fn settling_leaves_the_other_types()
    ensures { (schema retained : Schema) (name : NameText) →
        SchemaRetainsUsedBuiltInScalars schema retained → IsFalse (names_built_in_scalar name.text) →
        type_definition retained name ≡ type_definition schema name }
{}

/// Only scalars are listed under the five names afterwards, if it was so before.
///
/// Specification: 3.5 Scalars, Built-in Scalars.
pub fn retained_schema_has_only_scalars_under_built_in_names()
    ensures { (schema retained : Schema) →
        OnlyScalarsHaveBuiltInNames schema → SchemaRetainsUsedBuiltInScalars schema retained → OnlyScalarsHaveBuiltInNames retained }
{}

/// A schema that holds defines each type to which it refers, once it is retained.
///
/// Specification: 3.3 Schema; 3.5 Scalars, Built-in Scalars.
pub fn retained_schema_defines_the_types_to_which_it_refers()
    ensures { (schema retained : Schema) (name : NameText) →
        SchemaHolds schema → BuiltInNamesAreOfScalars schema → SchemaRetainsUsedBuiltInScalars schema retained →
        Contains (types_referred retained) name → IsSome (type_definition retained name) }
{}
