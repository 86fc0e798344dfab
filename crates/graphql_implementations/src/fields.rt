//! That a type has the fields of the interfaces that it lists.

ghost use Rattle.graphql_diagnostics.specs.Diagnostics.{IsDiagnostic};
ghost use Rattle.graphql_nodes.specs.Names.{NameText};
ghost use Rattle.graphql_diagnostics.specs.Reports.{Checks};
ghost use Rattle.graphql_implementations.specs.ImplementationSteps.{ImplementedFieldsReport, HasFieldOf, HasToImplement};

use super::implementer::Implementer;
use graphql_diagnostics::{Details, DiagnosticData, DiagnosticList};
use graphql_documents::documents::{Component, ComponentName, FieldDefinition};
use graphql_nodes::{SourceSpan, ValidationError};

/// Reports a field of a listed interface that the type lacks, at the type.
pub(super) fn check_is_provided(
    diagnostics: &mut DiagnosticList,
    implementer: &Implementer,
    location: Option<SourceSpan>,
    listed: &ComponentName,
    wanted: &Component<FieldDefinition>,
) -> Result<(), ValidationError>
    requires { (key : NameText) × HasToImplement implementer.now listed.now (key, wanted.now) }
    ensures { Checks result (HasFieldOf implementer.now.fields.now.entries wanted.now)
        (IsDiagnostic (ImplementedFieldsReport implementer.now location)) diagnostics.old diagnostics.new }
{
    if implementer.fields.contains_key(&wanted.node.value.name) {
        return Ok(());
    }
    let name = implementer.name.clone()?;
    let interface = listed.name.clone()?;
    let field = wanted.node.value.name.clone()?;
    diagnostics.push(
        location,
        Details::Diagnostic(DiagnosticData::MissingInterfaceField {
            name,
            interface,
            field,
            implements_location: listed.name.location(),
            field_location: wanted.node.location,
        }),
    )
}
