//! Laws of the built-in scalars that a schema keeps.

ghost use Rattle.std.specs.Prelude.{◌≡◌, ℕ, List, [], Contains, IsTrue, IsFalse};
ghost use Rattle.graphql_nodes.specs.Names.{NameText};
ghost use Rattle.graphql_documents.specs.Schemas.{is_built_in};
ghost use Rattle.graphql_specification.specs.BuiltInScalars.{built_in_scalar_names, names_built_in_scalar, uses_type, has_type, is_unused_built_in, kept_types, missing_scalars, RetainsUsedBuiltInScalars};
ghost use Rattle.graphql_documents.specs.declared.documents.schemas.ExtendedType.{ExtendedType};
ghost use Rattle.graphql_documents.specs.declared.documents.schemas.Schema.{Schema};

/// A type that not every schema has stays.
///
/// Specification: 3.5 Scalars, Built-in Scalars.
pub fn type_that_is_not_built_in_stays()
    ensures { (schema : Schema) (entry : NameText × ExtendedType) →
        Contains schema.types.entries entry → IsFalse (is_built_in entry.1) → Contains (kept_types schema) entry }
{}

/// A type that the schema uses stays.
///
/// Specification: 3.5 Scalars, Built-in Scalars.
pub fn type_that_is_used_stays()
    ensures { (schema : Schema) (entry : NameText × ExtendedType) →
        Contains schema.types.entries entry → IsTrue (uses_type schema entry.0.text) → Contains (kept_types schema) entry }
{}

/// A built-in scalar that the schema does not use goes.
///
/// Specification: 3.5 Scalars, Built-in Scalars.
pub fn built_in_scalar_that_is_not_used_goes()
    ensures { (schema : Schema) (entry : NameText × ExtendedType) →
        IsTrue (is_built_in entry.1) → IsTrue (names_built_in_scalar entry.0.text) → IsFalse (uses_type schema entry.0.text) →
        ¬ Contains (kept_types schema) entry }
{}

/// A built-in scalar that the schema uses and lacks is missing.
///
/// Specification: 3.5 Scalars, Built-in Scalars.
pub fn built_in_scalar_that_is_used_and_lacked_is_missing()
    ensures { (schema : Schema) (text : List ℕ) →
        Contains built_in_scalar_names text → IsTrue (uses_type schema text) → IsFalse (has_type schema text) →
        Contains (missing_scalars schema) text }
{}

/// A schema that has no unused built-in scalar and lacks none is left as it is.
///
/// Specification: 3.5 Scalars, Built-in Scalars.
pub fn retained_schema_stays_as_it_is()
    ensures { (schema : Schema) (retained : List (NameText × ExtendedType)) →
        ((entry : NameText × ExtendedType) → Contains schema.types.entries entry → IsFalse (is_unused_built_in schema entry)) →
        missing_scalars schema ≡ [] → RetainsUsedBuiltInScalars schema retained → retained ≡ schema.types.entries }
{}
