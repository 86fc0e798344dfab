//! The types of a schema, each by its kind.

ghost use Rattle.std.specs.Prelude.{All, OnOk, flat_map};
ghost use Rattle.graphql_diagnostics.specs.Diagnostics.{IsDiagnostic};
ghost use Rattle.graphql_specification.specs.Types.{TypesLimit, TypesReport, TypeHolds, TypeReport};
ghost use Rattle.graphql_nodes.specs.Names.{IsFreeName};
ghost use Rattle.graphql_diagnostics.specs.Reports.{ChecksWithin};
ghost use Rattle.graphql_specification.specs.BuiltInScalars.{types_referred_by};
ghost use Rattle.graphql_field_definitions.specs.BuiltInScalarUses.{Keeps, Records};
ghost use Rattle.graphql_schemas.specs.TypeSteps.{NamedTypeReport, TypeLimit};

use crate::enums::validate_enum_definition;
use crate::input_objects::validate_input_object_by_levels;
use crate::interfaces::validate_interface_definition;
use crate::objects::validate_object_type_definition;
use crate::scalars::validate_scalar_definition;
use crate::unions::validate_union_definition;
use graphql_cycles::input_object_levels::InputObjectLevels;
use graphql_diagnostics::DiagnosticList;
use graphql_documents::documents::{ExtendedType, Schema};
use graphql_field_definitions::built_in_scalars::BuiltInScalars;
use graphql_field_definitions::names::validate_type_system_name;
use graphql_nodes::{Name, ValidationError};

/// Validates the types of a schema, in order. Types that they refer to are recorded.
///
/// Specification: 3.4 Types.
pub fn validate_types(
    diagnostics: &mut DiagnosticList,
    schema: &Schema,
    built_in_scalars: &mut BuiltInScalars,
) -> Result<(), ValidationError>
    ensures checks { ChecksWithin result
        (All (λ entry. IsFreeName entry.0 × TypeHolds schema.now entry.1) schema.now.types.entries)
        (IsDiagnostic (TypesReport schema.now)) (IsDiagnostic (TypesLimit schema.now)) diagnostics.old diagnostics.new }
    ensures records { OnOk result (Records built_in_scalars.old built_in_scalars.new
        (flat_map (λ entry. types_referred_by entry.1) schema.now.types.entries)) }
    ensures keeps { Keeps built_in_scalars.old built_in_scalars.new }
{
    let levels = InputObjectLevels::find(diagnostics.allocator(), schema)?;
    validate_types_by_levels(diagnostics, &levels, built_in_scalars)
}

/// Validates the types of the schema of the levels, in order. Types that they refer to are recorded.
fn validate_types_by_levels(
    diagnostics: &mut DiagnosticList,
    levels: &InputObjectLevels<'_>,
    built_in_scalars: &mut BuiltInScalars,
) -> Result<(), ValidationError>
    ensures checks { ChecksWithin result
        (All (λ entry. IsFreeName entry.0 × TypeHolds levels.now.schema.now entry.1) levels.now.schema.now.types.entries)
        (IsDiagnostic (TypesReport levels.now.schema.now)) (IsDiagnostic (TypesLimit levels.now.schema.now)) diagnostics.old diagnostics.new }
    ensures records { OnOk result (Records built_in_scalars.old built_in_scalars.new
        (flat_map (λ entry. types_referred_by entry.1) levels.now.schema.now.types.entries)) }
    ensures keeps { Keeps built_in_scalars.old built_in_scalars.new }
{
    for (name, definition) in &levels.schema.types {
        validate_type_definition(diagnostics, levels, built_in_scalars, name, definition)?;
    }
    Ok(())
}

/// Validates a type: the name under which it is, and then what its kind requires. Types that it refers to are
/// recorded.
fn validate_type_definition(
    diagnostics: &mut DiagnosticList,
    levels: &InputObjectLevels<'_>,
    built_in_scalars: &mut BuiltInScalars,
    name: &Name,
    definition: &ExtendedType,
) -> Result<(), ValidationError>
    ensures checks { ChecksWithin result (IsFreeName name.now × TypeHolds levels.now.schema.now definition.now)
        (IsDiagnostic (NamedTypeReport levels.now.schema.now name.now definition.now))
        (λ e. TypeLimit levels.now.schema.now definition.now e.details e.location) diagnostics.old diagnostics.new }
    ensures records { OnOk result (Records built_in_scalars.old built_in_scalars.new (types_referred_by definition.now)) }
    ensures keeps { Keeps built_in_scalars.old built_in_scalars.new }
{
    validate_type_system_name(diagnostics, name, definition.describe())?;
    validate_by_kind(diagnostics, levels, built_in_scalars, definition)
}

/// Validates a type by its kind, its name apart.
fn validate_by_kind(
    diagnostics: &mut DiagnosticList,
    levels: &InputObjectLevels<'_>,
    built_in_scalars: &mut BuiltInScalars,
    definition: &ExtendedType,
) -> Result<(), ValidationError>
    ensures checks { ChecksWithin result (TypeHolds levels.now.schema.now definition.now)
        (IsDiagnostic (TypeReport levels.now.schema.now definition.now))
        (λ e. TypeLimit levels.now.schema.now definition.now e.details e.location) diagnostics.old diagnostics.new }
    ensures records { OnOk result (Records built_in_scalars.old built_in_scalars.new (types_referred_by definition.now)) }
    ensures keeps { Keeps built_in_scalars.old built_in_scalars.new }
{
    let schema = levels.schema;
    match definition {
        ExtendedType::Scalar(scalar) => validate_scalar_definition(diagnostics, schema, scalar),
        ExtendedType::Object(object) => {
            validate_object_type_definition(diagnostics, schema, built_in_scalars, object)
        }
        ExtendedType::Interface(interface) => {
            validate_interface_definition(diagnostics, schema, built_in_scalars, interface)
        }
        ExtendedType::Union(union) => validate_union_definition(diagnostics, schema, union),
        ExtendedType::Enum(enum_type) => validate_enum_definition(diagnostics, schema, enum_type),
        ExtendedType::InputObject(input_object) => {
            validate_input_object_by_levels(diagnostics, levels, built_in_scalars, input_object)
        }
    }
}
