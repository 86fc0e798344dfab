ghost use Rattle.std.specs.Option.{option_copied};
ghost use Rattle.std.specs.Prelude.{◌≡◌, IsFalse, List, Some, find, map};
ghost use Rattle.graphql_diagnostics.specs.Diagnostics.{IsDiagnostic};
ghost use Rattle.graphql_nodes.specs.Names.{same_name};
ghost use Rattle.graphql_diagnostics.specs.Reports.{Checks};
ghost use Rattle.graphql_specification.specs.SchemaDefinitions.{RootsReport};
ghost use Rattle.graphql_documents.specs.Schemas.{NamesKind, is_object_type, roots_of, type_definition};
ghost use Rattle.graphql_documents.specs.declared.documents.components.ComponentName.{ComponentName};
ghost use Rattle.graphql_nodes.specs.declared.operation_types.OperationType.{OperationType};
ghost use Rattle.graphql_documents.specs.declared.documents.schemas.Schema.{Schema};
ghost use Rattle.graphql_documents.specs.declared.documents.schemas.SchemaDefinition.{SchemaDefinition};
ghost use Rattle.graphql_schemas.specs.RootSteps.{FollowsWell, RootReport, lent_root, root_named};
ghost use Rattle.graphql_variables.specs.FirstPlaces.{IsNext};

use graphql_diagnostics::{Details, DiagnosticData, DiagnosticList};
use graphql_documents::documents::{ComponentName, ExtendedType, Schema};
use graphql_field_definitions::referred_types::report_undefined_type;
use graphql_nodes::{Name, NamedType, OperationType, ValidationError};

/// A root of a schema, with the kind of its operations.
pub(crate) type Root<'a> = (OperationType, &'a ComponentName);

/// Validates a root of a schema, behind those that were visited: that it is a defined object type, and then that
/// it is none of them.
///
/// Specification: 3.3.1 Root Operation Types.
pub(crate) fn validate_root(
    diagnostics: &mut DiagnosticList,
    schema: &Schema,
    root: Root,
    seen: &[Root],
) -> Result<(), ValidationError>
    ensures { IsNext (roots_of schema.now.schema_definition.value.value) (map lent_root seen.now) (lent_root root.entry) →
        Checks result (FollowsWell schema.now (map lent_root seen.now) (lent_root root.entry))
        (IsDiagnostic (RootsReport schema.now schema.now.schema_definition.value.value)) diagnostics.old diagnostics.new }
{
    validate_root_type(diagnostics, schema, &root.1.name)?;
    match first_root(seen, &root.1.name) {
        Some(first) => report_repetition(diagnostics, *first, root),
        None => Ok(()),
    }
}

/// Validates that a root is an object type that the schema defines.
fn validate_root_type(
    diagnostics: &mut DiagnosticList,
    schema: &Schema,
    name: &NamedType,
) -> Result<(), ValidationError>
    ensures { Checks result (NamesKind schema.now is_object_type name.now) (IsDiagnostic (RootReport schema.now name.now))
        diagnostics.old diagnostics.new }
{
    match schema.types.get(name) {
        Some(ExtendedType::Object(_)) => Ok(()),
        Some(definition) => report_no_object(diagnostics, definition, name),
        None => report_undefined_type(diagnostics, name),
    }
}

fn report_no_object(
    diagnostics: &mut DiagnosticList,
    definition: &ExtendedType,
    name: &NamedType,
) -> Result<(), ValidationError>
    requires { IsFalse (is_object_type definition.now) }
    ensures { (schema : Schema) → type_definition schema name.now ≡ Some definition.now →
        Checks result ⊥ (IsDiagnostic (RootReport schema name.now)) diagnostics.old diagnostics.new }
{
    let root = name.clone()?;
    diagnostics.push(
        name.location(),
        Details::Diagnostic(DiagnosticData::RootOperationObjectType {
            name: root,
            describe_type: definition.describe(),
        }),
    )
}

/// The first of these roots that has the name.
fn first_root<'s, 'a>(seen: &'s [Root<'a>], name: &Name) -> Option<&'s Root<'a>>
    ensures { option_copied result ≡ find (λ root. same_name root.1.now.name name.now) seen.now }
{
    seen.iter().find(|root| root.1.name == *name)
}

fn report_repetition(
    diagnostics: &mut DiagnosticList,
    first: Root,
    root: Root,
) -> Result<(), ValidationError>
    ensures { (schema : Schema) (d : SchemaDefinition) (before : List (OperationType × ComponentName)) →
        root_named root.entry.1.now.name before ≡ Some (lent_root first.entry) → IsNext (roots_of d) before (lent_root root.entry) →
        Checks result ⊥ (IsDiagnostic (RootsReport schema d)) diagnostics.old diagnostics.new }
{
    let name = root.1.name.clone()?;
    let location = root.1.name.location();
    diagnostics.push(
        location,
        Details::Diagnostic(DiagnosticData::DuplicateRootOperationType {
            name,
            original_operation: first.0,
            original_definition: first.1.name.location(),
            redefined_operation: root.0,
            redefined_definition: location,
        }),
    )
}
