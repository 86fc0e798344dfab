ghost use Rattle.std.specs.Prelude.{◌≢◌, [], OnOk};
ghost use Rattle.graphql_diagnostics.specs.Diagnostics.{IsDiagnostic};
ghost use Rattle.graphql_specification.specs.Implementations.{DoesNotListItself};
ghost use Rattle.graphql_diagnostics.specs.Reports.{Checks};
ghost use Rattle.graphql_specification.specs.Types.{InterfaceHolds, TypeReport};
ghost use Rattle.graphql_specification.specs.BuiltInScalars.{types_referred_by};
ghost use Rattle.graphql_documents.specs.declared.documents.schemas.ExtendedType.TheVariants as types;
ghost use Rattle.graphql_documents.specs.declared.documents.schemas.Schema.{Schema};
ghost use Rattle.graphql_field_definitions.specs.BuiltInScalarUses.{Keeps, Records};

use crate::extensions::{interface_extensions, locations_of};
use crate::implementing_types::validate_implementations;
use graphql_diagnostics::{Details, DiagnosticData, DiagnosticList};
use graphql_documents::documents::{InterfaceType, Schema};
use graphql_field_definitions::built_in_scalars::BuiltInScalars;
use graphql_field_definitions::definition_directives::validate_component_directives;
use graphql_field_definitions::fields::validate_field_definitions;
use graphql_nodes::{DirectiveLocation, Node, ValidationError};

/// Validates an interface: the directives on it, that it does not list itself, its fields, that there is one,
/// and that it implements what it lists. Types that it refers to are recorded. The only error is a failed
/// allocation.
///
/// Specification: 3.7 Interfaces.
pub fn validate_interface_definition(
    diagnostics: &mut DiagnosticList,
    schema: &Schema,
    built_in_scalars: &mut BuiltInScalars,
    interface: &Node<InterfaceType>,
) -> Result<(), ValidationError>
    ensures checks { Checks result (InterfaceHolds schema.now interface.now)
        (IsDiagnostic (TypeReport schema.now (types.Interface interface.now))) diagnostics.old diagnostics.new }
    ensures records { OnOk result (Records built_in_scalars.old built_in_scalars.new (types_referred_by (types.Interface interface.now))) }
    ensures keeps { Keeps built_in_scalars.old built_in_scalars.new }
{
    validate_component_directives(
        diagnostics,
        schema,
        &interface.value.directives,
        DirectiveLocation::Interface,
    )?;
    validate_does_not_list_itself(diagnostics, interface)?;
    validate_field_definitions(
        diagnostics,
        schema,
        built_in_scalars,
        &interface.value.fields,
    )?;
    validate_is_not_empty(diagnostics, interface)?;
    validate_implementations(
        diagnostics,
        schema,
        &interface.value.name,
        interface.location,
        &interface.value.fields,
        &interface.value.implements_interfaces,
    )
}

/// Reports an interface that lists itself, at the listed name.
fn validate_does_not_list_itself(
    diagnostics: &mut DiagnosticList,
    interface: &Node<InterfaceType>,
) -> Result<(), ValidationError>
    ensures { (schema : Schema) →
        Checks result (DoesNotListItself interface.now.value.value.name interface.now.value.value.implements_interfaces.keys)
        (IsDiagnostic (TypeReport schema (types.Interface interface.now))) diagnostics.old diagnostics.new }
{
    let interfaces = &interface.value.implements_interfaces;
    let Some(listed) = interfaces.get(&interface.value.name) else {
        return Ok(());
    };
    let name = listed.name.clone()?;
    diagnostics.push(
        listed.name.location(),
        Details::Diagnostic(DiagnosticData::RecursiveInterfaceDefinition { name }),
    )
}

/// Reports an interface without fields.
fn validate_is_not_empty(
    diagnostics: &mut DiagnosticList,
    interface: &Node<InterfaceType>,
) -> Result<(), ValidationError>
    ensures { (schema : Schema) → Checks result (interface.now.value.value.fields.entries ≢ [])
        (IsDiagnostic (TypeReport schema (types.Interface interface.now))) diagnostics.old diagnostics.new }
{
    if !interface.value.fields.is_empty() {
        return Ok(());
    }
    let alloc = diagnostics.allocator();
    let type_name = interface.value.name.clone()?;
    let extensions = interface_extensions(alloc, interface)?;
    let extensions_locations = locations_of(alloc, &extensions)?;
    diagnostics.push(
        interface.location,
        Details::Diagnostic(DiagnosticData::EmptyFieldSet {
            type_name,
            type_location: interface.location,
            extensions_locations,
        }),
    )
}
