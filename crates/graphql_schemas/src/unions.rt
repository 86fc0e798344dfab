ghost use Rattle.std.specs.Prelude.{◌≡◌, ◌≢◌, [], All, Contains, IsFalse, Some};
ghost use Rattle.graphql_diagnostics.specs.Diagnostics.{IsDiagnostic};
ghost use Rattle.graphql_diagnostics.specs.Reports.{Checks};
ghost use Rattle.graphql_specification.specs.Types.{UnionHolds, TypeReport};
ghost use Rattle.graphql_documents.specs.Schemas.{NamesKind, is_object_type, type_definition};
ghost use Rattle.graphql_nodes.specs.declared.nodes.Node.{Node};
ghost use Rattle.graphql_documents.specs.declared.documents.schemas.ExtendedType.TheVariants as types;
ghost use Rattle.graphql_documents.specs.declared.documents.schemas.Schema.{Schema};
ghost use Rattle.graphql_documents.specs.declared.documents.schemas.UnionType.{UnionType};

use crate::extensions::{locations_of, union_extensions};
use graphql_diagnostics::{Details, DiagnosticData, DiagnosticList};
use graphql_documents::documents::{ComponentName, ExtendedType, Schema, UnionType};
use graphql_field_definitions::definition_directives::validate_component_directives;
use graphql_field_definitions::referred_types::report_undefined_type;
use graphql_nodes::{DirectiveLocation, Node, ValidationError};

/// Validates a union: the directives on it, its members, which are defined object types, and that there is
/// one. The only error is a failed allocation.
///
/// Specification: 3.8 Unions.
pub fn validate_union_definition(
    diagnostics: &mut DiagnosticList,
    schema: &Schema,
    union: &Node<UnionType>,
) -> Result<(), ValidationError>
    ensures { Checks result (UnionHolds schema.now union.now)
        (IsDiagnostic (TypeReport schema.now (types.Union union.now))) diagnostics.old diagnostics.new }
{
    validate_component_directives(
        diagnostics,
        schema,
        &union.value.directives,
        DirectiveLocation::Union,
    )?;
    validate_members(diagnostics, schema, union)?;
    validate_is_not_empty(diagnostics, union)
}

/// Validates that each member of a union is a defined object type.
fn validate_members(
    diagnostics: &mut DiagnosticList,
    schema: &Schema,
    union: &Node<UnionType>,
) -> Result<(), ValidationError>
    ensures { Checks result (All (λ member. NamesKind schema.now is_object_type member.name) union.now.value.value.members.keys)
        (IsDiagnostic (TypeReport schema.now (types.Union union.now))) diagnostics.old diagnostics.new }
{
    for member in union.value.members.as_slice() {
        validate_member(diagnostics, schema, member)?;
    }
    Ok(())
}

fn validate_member(
    diagnostics: &mut DiagnosticList,
    schema: &Schema,
    member: &ComponentName,
) -> Result<(), ValidationError>
    ensures { (union : Node UnionType) → Contains union.value.value.members.keys member.now →
        Checks result (NamesKind schema.now is_object_type member.now.name)
        (IsDiagnostic (TypeReport schema.now (types.Union union))) diagnostics.old diagnostics.new }
{
    match schema.types.get(&member.name) {
        Some(ExtendedType::Object(_)) => Ok(()),
        Some(definition) => report_other_kind(diagnostics, member, definition),
        None => report_undefined_type(diagnostics, &member.name),
    }
}

/// Reports a member that is no object type.
fn report_other_kind(
    diagnostics: &mut DiagnosticList,
    member: &ComponentName,
    definition: &ExtendedType,
) -> Result<(), ValidationError>
    requires { IsFalse (is_object_type definition.now) }
    ensures { (schema : Schema) (union : Node UnionType) → type_definition schema member.now.name ≡ Some definition.now →
        Contains union.value.value.members.keys member.now →
        Checks result ⊥ (IsDiagnostic (TypeReport schema (types.Union union))) diagnostics.old diagnostics.new }
{
    let name = member.name.clone()?;
    diagnostics.push(
        member.name.location(),
        Details::Diagnostic(DiagnosticData::UnionMemberObjectType {
            name,
            describe_type: definition.describe(),
        }),
    )
}

/// Reports a union without members.
fn validate_is_not_empty(
    diagnostics: &mut DiagnosticList,
    union: &Node<UnionType>,
) -> Result<(), ValidationError>
    ensures { (schema : Schema) → Checks result (union.now.value.value.members.keys ≢ [])
        (IsDiagnostic (TypeReport schema (types.Union union.now))) diagnostics.old diagnostics.new }
{
    if !union.value.members.is_empty() {
        return Ok(());
    }
    let alloc = diagnostics.allocator();
    let type_name = union.value.name.clone()?;
    let extensions = union_extensions(alloc, union)?;
    let extensions_locations = locations_of(alloc, &extensions)?;
    diagnostics.push(
        union.location,
        Details::Diagnostic(DiagnosticData::EmptyMemberSet {
            type_name,
            type_location: union.location,
            extensions_locations,
        }),
    )
}
