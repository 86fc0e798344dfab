//! That the types of fields may stand for those of the interfaces' fields.

ghost use Rattle.std.specs.Prelude.{◌↔◌, IsTrue};
ghost use Rattle.graphql_diagnostics.specs.Diagnostics.{IsDiagnostic};
ghost use Rattle.graphql_specification.specs.Implementations.{IsCovariant, IsValidImplementationType};
ghost use Rattle.graphql_diagnostics.specs.Reports.{Checks};
ghost use Rattle.graphql_implementations.specs.ImplementationSteps.{IsImplementing, TypeImplements, ImplementedFieldTypesReport};

use super::implementer::ImplementingField;
use graphql_diagnostics::{Details, DiagnosticData, DiagnosticList};
use graphql_documents::documents::{Schema, Type};
use graphql_nodes::{NamedType, ValidationError};

/// Reports a field whose type may not stand for that of the interface's field.
pub(super) fn check_type(
    diagnostics: &mut DiagnosticList,
    field: &ImplementingField,
) -> Result<(), ValidationError>
    requires { IsImplementing field.now }
    ensures { Checks result (TypeImplements field.now.implementer.now.schema.now field.now.wanted.now field.now.own.now)
        (IsDiagnostic (ImplementedFieldTypesReport field.now.implementer.now)) diagnostics.old diagnostics.new }
{
    let wanted = &field.wanted.node;
    let own = &field.own.node;
    let wanted_type = &wanted.value.ty;
    let own_type = &own.value.ty;
    if is_valid_implementation_field_type(field.implementer.schema, wanted_type, own_type) {
        return Ok(());
    }
    let name = field.implementer.name.clone()?;
    let interface = field.listed.name.clone()?;
    let field_name = field.name.clone()?;
    let interface_type = wanted_type.clone()?;
    let actual_type = own_type.clone()?;
    diagnostics.push(
        own.location,
        Details::Diagnostic(DiagnosticData::InvalidImplementationFieldType {
            name,
            interface,
            field: field_name,
            interface_type,
            actual_type,
            field_location: own.location,
            interface_field_location: wanted.location,
        }),
    )
}

/// Whether a field of the second type may stand for an interface's field of the first.
///
/// Specification: 3.6 Objects, IsValidImplementationFieldType.
pub fn is_valid_implementation_field_type(
    schema: &Schema,
    interface_type: &Type,
    field_type: &Type,
) -> bool
    ensures { IsTrue result ↔ IsValidImplementationType schema.now interface_type.now field_type.now }
{
    match (interface_type, field_type) {
        (Type::Named(wide), Type::Named(narrow) | Type::NonNullNamed(narrow)) => {
            is_covariant(schema, wide, narrow)
        }
        (Type::NonNullNamed(wide), Type::NonNullNamed(narrow)) => {
            is_covariant(schema, wide, narrow)
        }
        (Type::List(wide), Type::List(narrow) | Type::NonNullList(narrow)) => {
            is_valid_implementation_field_type(schema, wide, narrow)
        }
        (Type::NonNullList(wide), Type::NonNullList(narrow)) => {
            is_valid_implementation_field_type(schema, wide, narrow)
        }
        _ => false,
    }
}

/// Whether values of the second type are values of the first: the two are one, or the second is a subtype.
fn is_covariant(schema: &Schema, wide: &NamedType, narrow: &NamedType) -> bool
    ensures { IsTrue result ↔ IsCovariant schema.now wide.now narrow.now }
{
    wide == narrow || schema.is_subtype(wide, narrow)
}
