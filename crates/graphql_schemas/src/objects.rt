ghost use Rattle.std.specs.Prelude.{◌≢◌, [], OnOk};
ghost use Rattle.graphql_diagnostics.specs.Diagnostics.{IsDiagnostic};
ghost use Rattle.graphql_diagnostics.specs.Reports.{Checks};
ghost use Rattle.graphql_specification.specs.Types.{ObjectHolds, TypeReport};
ghost use Rattle.graphql_specification.specs.BuiltInScalars.{types_referred_by};
ghost use Rattle.graphql_documents.specs.declared.documents.schemas.ExtendedType.TheVariants as types;
ghost use Rattle.graphql_documents.specs.declared.documents.schemas.Schema.{Schema};
ghost use Rattle.graphql_field_definitions.specs.BuiltInScalarUses.{Keeps, Records};

use crate::extensions::{locations_of, object_extensions};
use crate::implementing_types::validate_implementations;
use graphql_diagnostics::{Details, DiagnosticData, DiagnosticList};
use graphql_documents::documents::{ObjectType, Schema};
use graphql_field_definitions::built_in_scalars::BuiltInScalars;
use graphql_field_definitions::definition_directives::validate_component_directives;
use graphql_field_definitions::fields::validate_field_definitions;
use graphql_nodes::{DirectiveLocation, Node, ValidationError};

/// Validates an object: the directives on it, its fields, that there is one, and that it implements what it
/// lists. Types that it refers to are recorded. The only error is a failed allocation.
///
/// Specification: 3.6 Objects.
pub fn validate_object_type_definition(
    diagnostics: &mut DiagnosticList,
    schema: &Schema,
    built_in_scalars: &mut BuiltInScalars,
    object: &Node<ObjectType>,
) -> Result<(), ValidationError>
    ensures checks { Checks result (ObjectHolds schema.now object.now)
        (IsDiagnostic (TypeReport schema.now (types.Object object.now))) diagnostics.old diagnostics.new }
    ensures records { OnOk result (Records built_in_scalars.old built_in_scalars.new (types_referred_by (types.Object object.now))) }
    ensures keeps { Keeps built_in_scalars.old built_in_scalars.new }
{
    validate_component_directives(
        diagnostics,
        schema,
        &object.value.directives,
        DirectiveLocation::Object,
    )?;
    validate_field_definitions(diagnostics, schema, built_in_scalars, &object.value.fields)?;
    validate_is_not_empty(diagnostics, object)?;
    validate_implementations(
        diagnostics,
        schema,
        &object.value.name,
        object.location,
        &object.value.fields,
        &object.value.implements_interfaces,
    )
}

/// Reports an object without fields.
fn validate_is_not_empty(
    diagnostics: &mut DiagnosticList,
    object: &Node<ObjectType>,
) -> Result<(), ValidationError>
    ensures { (schema : Schema) → Checks result (object.now.value.value.fields.entries ≢ [])
        (IsDiagnostic (TypeReport schema (types.Object object.now))) diagnostics.old diagnostics.new }
{
    if !object.value.fields.is_empty() {
        return Ok(());
    }
    let alloc = diagnostics.allocator();
    let type_name = object.value.name.clone()?;
    let extensions = object_extensions(alloc, object)?;
    let extensions_locations = locations_of(alloc, &extensions)?;
    diagnostics.push(
        object.location,
        Details::Diagnostic(DiagnosticData::EmptyFieldSet {
            type_name,
            type_location: object.location,
            extensions_locations,
        }),
    )
}
