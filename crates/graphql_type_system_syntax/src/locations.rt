//! Directive locations.

ghost use Rattle.std.specs.Prelude.{◌≡◌};
ghost use Rattle.graphql_type_system_syntax.specs.DirectiveDefinitionReaders.{location_among, location_named};

use graphql_nodes::DirectiveLocation;

/// The directive location with this text.
///
/// Specification: 3.13 Directives.
#[tactic(auto, unfolding(crate::specs::DirectiveDefinitionReaders::location_named))]
pub fn location_named(text: &[u8]) -> Option<DirectiveLocation>
    ensures { result ≡ location_named text.now }
{
    location_among(&DirectiveLocation::ALL, text)
}

/// The first of the locations with this text.
fn location_among(locations: &[DirectiveLocation], text: &[u8]) -> Option<DirectiveLocation>
    ensures { result ≡ location_among locations.now text.now }
{
    for location in locations {
        if text == location.name().as_bytes() {
            return Some(*location);
        }
    }
    None
}
