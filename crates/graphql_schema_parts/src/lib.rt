//! Parts of schemas that several crates read: the fields of a type, and the locations of directives in documents.
#![tactic(auto)]

ghost use Rattle.std.specs.Prelude.{◌≡◌, [], MatchOption};
ghost use Rattle.graphql_documents.specs.Schemas.{fields_of};
ghost use Rattle.graphql_schema_parts.specs.Locations.{is_in_documents};

use graphql_documents::documents::{Component, ExtendedType, FieldDefinition};
use graphql_hash_seeds::HashSeed;
use graphql_nodes::{DirectiveLocation, Name};
use indexmap::IndexMap;

/// The fields of a type, by their names.
pub type FieldMap = IndexMap<Name, Component<FieldDefinition>, HashSeed>;

/// The fields that an object or interface itself defines.
///
/// Specification: 3.6 Objects; 3.7 Interfaces.
pub fn fields_of(definition: &ExtendedType) -> Option<&FieldMap>
    ensures { MatchOption result (fields_of definition.now ≡ []) (λ fields. fields.now.entries ≡ fields_of definition.now) }
{
    match definition {
        ExtendedType::Object(definition) => Some(&definition.value.fields),
        ExtendedType::Interface(definition) => Some(&definition.value.fields),
        _ => None,
    }
}

/// Whether documents, and not only schemas, can apply a directive at a location.
///
/// Specification: 3.13 Directives, ExecutableDirectiveLocation.
pub fn is_executable_location(location: DirectiveLocation) -> bool
    ensures { result ≡ is_in_documents location }
{
    matches!(
        location,
        DirectiveLocation::Query
            | DirectiveLocation::Mutation
            | DirectiveLocation::Subscription
            | DirectiveLocation::Field
            | DirectiveLocation::FragmentDefinition
            | DirectiveLocation::FragmentSpread
            | DirectiveLocation::InlineFragment
            | DirectiveLocation::VariableDefinition
    )
}
