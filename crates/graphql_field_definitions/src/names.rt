ghost use Rattle.std.specs.Prelude.{◌≡◌, ◌↔◌, IsTrue};
ghost use Rattle.graphql_diagnostics.specs.Diagnostics.{IsDiagnostic};
ghost use Rattle.graphql_specification.specs.InputValueDefinitions.{NameReport};
ghost use Rattle.graphql_nodes.specs.Names.{IsFreeName, begins_with_two_underscores, is_built_in_location};
ghost use Rattle.graphql_diagnostics.specs.Reports.{Checks};

use graphql_diagnostics::{Details, DiagnosticData, DiagnosticList};
use graphql_nodes::{FileId, Name, SourceSpan, ValidationError};

/// Reports a name that begins with two underscores, unless it is one of those that every schema has. The
/// report says what has the name. The only error is a failed allocation.
///
/// Specification: 2.1.9 Names, Reserved Names.
pub fn validate_type_system_name(
    diagnostics: &mut DiagnosticList,
    name: &Name,
    describe: &'static str,
) -> Result<(), ValidationError>
    ensures { Checks result (IsFreeName name.now) (IsDiagnostic (NameReport describe.now name.now)) diagnostics.old diagnostics.new }
{
    if is_free_name(name) {
        return Ok(());
    }
    let reserved = name.clone()?;
    diagnostics.push(
        name.location(),
        Details::Diagnostic(DiagnosticData::ReservedName {
            name: reserved,
            describe,
        }),
    )
}

/// Whether a schema may give the name.
fn is_free_name(name: &Name) -> bool
    ensures { IsTrue result ↔ IsFreeName name.now }
{
    !begins_with_two_underscores(name.as_str()) || is_built_in(name.location())
}

fn begins_with_two_underscores(text: &str) -> bool
    ensures { result ≡ begins_with_two_underscores text.now }
{
    text.starts_with("__")
}

/// Whether this is a place in the file of the definitions that every schema has.
pub fn is_built_in(location: Option<SourceSpan>) -> bool
    ensures { result ≡ is_built_in_location location }
{
    match location {
        Some(place) => place.file_id.0 == FileId::BUILT_IN.0,
        None => false,
    }
}
