//! Laws of the interfaces that the types of a schema list.

ghost use Rattle.std.specs.Prelude.{◌↔◌, Contains};
ghost use Rattle.graphql_documents.specs.Built.{StandsUnderOwnNames};
ghost use Rattle.graphql_nodes.specs.Names.{NameText};
ghost use Rattle.graphql_specification.specs.Schemas.{SchemaHolds};
ghost use Rattle.graphql_documents.specs.Schemas.{Implements, IsListed, NamesKind, interfaces_of, is_interface_type};
ghost use Rattle.graphql_specification.specs.BuiltInScalars.{SchemaRetainsUsedBuiltInScalars, OnlyScalarsHaveBuiltInNames};
ghost use Rattle.graphql_documents.specs.declared.documents.schemas.ExtendedType.{ExtendedType};
ghost use Rattle.graphql_documents.specs.declared.documents.schemas.Schema.{Schema};

/// No type implements itself, and so no interface.
///
/// Specification: 3.7 Interfaces, Type Validation.
pub fn no_type_implements_itself()
    ensures { (schema : Schema) (name : NameText) →
        SchemaHolds schema → StandsUnderOwnNames schema → ¬ Implements schema name name }
{}

/// What implements an interface implements what that implements.
///
/// Specification: 3.7 Interfaces, Interfaces Implementing Interfaces.
pub fn implementing_goes_on()
    ensures { (schema : Schema) (name interface further : NameText) →
        SchemaHolds schema → Implements schema name interface → Implements schema interface further →
        Implements schema name further }
{}

/// No two interfaces implement each other.
///
/// Specification: 3.7 Interfaces, Interfaces Implementing Interfaces.
pub fn no_two_interfaces_implement_each_other()
    ensures { (schema : Schema) (a b : NameText) →
        SchemaHolds schema → StandsUnderOwnNames schema → Implements schema a b → ¬ Implements schema b a }
{}

/// Each type lists what the interfaces list that it lists.
///
/// Specification: 3.6 Objects and 3.7 Interfaces, Type Validation.
pub fn each_type_lists_what_its_interfaces_list()
    ensures { (schema : Schema) (key interface further : NameText) (d : ExtendedType) →
        SchemaHolds schema → Contains schema.types.entries (key, d) → IsListed interface (interfaces_of d) →
        Implements schema interface further → IsListed further (interfaces_of d) }
{}

/// What a type lists are interfaces that the schema defines.
///
/// Specification: 3.6 Objects and 3.7 Interfaces, Type Validation.
pub fn each_listed_name_is_that_of_an_interface()
    ensures { (schema : Schema) (key interface : NameText) (d : ExtendedType) →
        SchemaHolds schema → Contains schema.types.entries (key, d) → IsListed interface (interfaces_of d) →
        NamesKind schema is_interface_type interface }
{}

/// The types of a schema implement the same interfaces once its built-in scalars are retained.
///
/// Specification: 3.5 Scalars, Built-in Scalars; 3.7 Interfaces.
pub fn retained_schema_has_the_same_implementations()
    ensures { (schema retained : Schema) (name interface : NameText) →
        OnlyScalarsHaveBuiltInNames schema → SchemaRetainsUsedBuiltInScalars schema retained →
        (Implements retained name interface ↔ Implements schema name interface) }
{}
