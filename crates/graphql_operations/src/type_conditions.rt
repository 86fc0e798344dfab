ghost use Rattle.std.specs.Prelude.{◌↔◌, IsTrue, Some};
ghost use Rattle.graphql_diagnostics.specs.Diagnostics.{IsDiagnostic};
ghost use Rattle.graphql_specification.specs.Fragments.{NamesComposite, InvalidTargetReport};
ghost use Rattle.graphql_diagnostics.specs.Reports.{Checks};

use graphql_diagnostics::{Details, DiagnosticData, DiagnosticList};
use graphql_documents::documents::Schema;
use graphql_nodes::{Name, NamedType, SourceSpan, ValidationError};

/// Reports a fragment whose type condition names no object, interface or union of the schema, at the
/// fragment. An inline fragment has no name. The only error is a failed allocation.
///
/// Specification: 5.5.1.2 Fragment Spread Type Existence; 5.5.1.3 Fragments on Composite Types.
pub fn validate_fragment_type_condition(
    diagnostics: &mut DiagnosticList,
    schema: &Schema,
    fragment_name: Option<Name>,
    condition: &NamedType,
    fragment_location: Option<SourceSpan>,
) -> Result<(), ValidationError>
    ensures { Checks result (NamesComposite schema.now condition.now)
        (IsDiagnostic (InvalidTargetReport (Some schema.now) fragment_name condition.now fragment_location)) diagnostics.old diagnostics.new }
{
    if names_composite(schema, condition) {
        return Ok(());
    }
    let ty = condition.clone()?;
    diagnostics.push(
        fragment_location,
        Details::Diagnostic(DiagnosticData::InvalidFragmentTarget {
            name: fragment_name,
            ty,
        }),
    )
}

/// Whether the name is that of an object, an interface or a union.
fn names_composite(schema: &Schema, name: &NamedType) -> bool
    ensures { IsTrue result ↔ NamesComposite schema.now name.now }
{
    match schema.types.get(name) {
        Some(definition) => definition.is_composite(),
        None => false,
    }
}
