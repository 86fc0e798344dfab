ghost use Rattle.graphql_diagnostics.specs.Diagnostics.{IsDiagnostic};
ghost use Rattle.graphql_specification.specs.Implementations.{ImplementationReport, ImplementationsHold};
ghost use Rattle.graphql_diagnostics.specs.Reports.{Checks};
ghost use Rattle.graphql_documents.specs.declared.documents.schemas.ExtendedType.{ExtendedType};
ghost use Rattle.graphql_schemas.specs.TypeSteps.{AreOf};

use graphql_diagnostics::DiagnosticList;
use graphql_documents::documents::{Component, ComponentName, FieldDefinition, Schema};
use graphql_hash_seeds::HashSeed;
use graphql_implementations::{
    validate_implementation_field_arguments, validate_implementation_field_types,
    validate_implements_interfaces, validate_interface_fields,
};
use graphql_nodes::{Name, SourceSpan, ValidationError};
use indexmap::{IndexMap, IndexSet};

/// Validates that a type implements the interfaces that it lists: of an object or interface with this name,
/// with this location, these fields and these listed names.
///
/// Specification: 3.6 Objects, IsValidImplementation.
pub(crate) fn validate_implementations(
    diagnostics: &mut DiagnosticList,
    schema: &Schema,
    name: &Name,
    location: Option<SourceSpan>,
    fields: &IndexMap<Name, Component<FieldDefinition>, HashSeed>,
    interfaces: &IndexSet<ComponentName, HashSeed>,
) -> Result<(), ValidationError>
    ensures { (d : ExtendedType) → AreOf d name.now location fields.now.entries interfaces.now.keys →
        Checks result (ImplementationsHold schema.now fields.now.entries interfaces.now.keys)
        (IsDiagnostic (ImplementationReport schema.now d)) diagnostics.old diagnostics.new }
{
    validate_implements_interfaces(diagnostics, schema, name, location, interfaces)?;
    validate_interface_fields(diagnostics, schema, name, location, fields, interfaces)?;
    validate_implementation_field_types(diagnostics, schema, name, fields, interfaces)?;
    validate_implementation_field_arguments(diagnostics, schema, name, fields, interfaces)
}
