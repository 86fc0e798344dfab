ghost use Rattle.std.specs.Prelude.{All, OnOk, flat_map};
ghost use Rattle.graphql_diagnostics.specs.Diagnostics.{IsDiagnostic};
ghost use Rattle.graphql_specification.specs.DirectiveCycles.{DirectiveLimit, DirectivesLimit};
ghost use Rattle.graphql_diagnostics.specs.Reports.{ChecksWithin};
ghost use Rattle.graphql_specification.specs.DirectiveDefinitions.{DirectiveDefinitionReport, DirectiveDefinitionsReport, DirectiveDefinitionHolds};
ghost use Rattle.graphql_specification.specs.BuiltInScalars.{argument_types};
ghost use Rattle.graphql_field_definitions.specs.BuiltInScalarUses.{Keeps, Records};

use graphql_cycles::directive_levels::{DirectiveLevels, validate_directive_cycles_by_levels};
use graphql_diagnostics::DiagnosticList;
use graphql_documents::documents::{DirectiveDefinition, Schema};
use graphql_field_definitions::built_in_scalars::BuiltInScalars;
use graphql_field_definitions::input_values::{each_argument, validate_argument_definitions};
use graphql_field_definitions::names::validate_type_system_name;
use graphql_nodes::{DirectiveLocation, Node, ValidationError};

/// Validates a directive definition: its name, its arguments, and that it does not lead back to itself. Where
/// a path of references from it goes through more than 32 directives, or more than 32 types, before that is
/// known, this is reported instead. Types that it refers to are recorded. The only error is a failed
/// allocation.
///
/// Specification: 3.13 Directives.
pub fn validate_directive_definition(
    diagnostics: &mut DiagnosticList,
    schema: &Schema,
    built_in_scalars: &mut BuiltInScalars,
    definition: &Node<DirectiveDefinition>,
) -> Result<(), ValidationError>
    ensures checks { ChecksWithin result (DirectiveDefinitionHolds schema.now definition.now)
        (IsDiagnostic (DirectiveDefinitionReport schema.now definition.now))
        (λ e. DirectiveLimit schema.now definition.now e.details e.location) diagnostics.old diagnostics.new }
    ensures records { OnOk result (Records built_in_scalars.old built_in_scalars.new (argument_types definition.now.value.value.arguments.items)) }
    ensures keeps { Keeps built_in_scalars.old built_in_scalars.new }
{
    let levels = DirectiveLevels::unknown(diagnostics.allocator(), schema);
    validate_definition_by_levels(diagnostics, &levels, built_in_scalars, definition)
}

/// Validates a directive definition in the schema of the levels: its name, its arguments, and that it does
/// not lead back to itself. Reports what `validate_directive_definition` reports, but searches no cycle if
/// the level or the rank of the definition says that there is none. Types that it refers to are recorded. The
/// only error is a failed allocation.
///
/// Specification: 3.13 Directives.
fn validate_definition_by_levels(
    diagnostics: &mut DiagnosticList,
    levels: &DirectiveLevels<'_>,
    built_in_scalars: &mut BuiltInScalars,
    definition: &Node<DirectiveDefinition>,
) -> Result<(), ValidationError>
    ensures checks { ChecksWithin result (DirectiveDefinitionHolds levels.now.schema.now definition.now)
        (IsDiagnostic (DirectiveDefinitionReport levels.now.schema.now definition.now))
        (λ e. DirectiveLimit levels.now.schema.now definition.now e.details e.location) diagnostics.old diagnostics.new }
    ensures records { OnOk result (Records built_in_scalars.old built_in_scalars.new (argument_types definition.now.value.value.arguments.items)) }
    ensures keeps { Keeps built_in_scalars.old built_in_scalars.new }
{
    let arguments = each_argument(diagnostics.allocator(), &definition.value.arguments)?;
    validate_type_system_name(
        diagnostics,
        &definition.value.name,
        "a directive definition",
    )?;
    validate_argument_definitions(
        diagnostics,
        levels.schema,
        built_in_scalars,
        &arguments,
        DirectiveLocation::ArgumentDefinition,
    )?;
    validate_directive_cycles_by_levels(diagnostics, levels, definition)
}

/// Validates the directive definitions of a schema, in order. The only error is a failed allocation.
///
/// Specification: 3.13 Directives.
pub fn validate_directive_definitions(
    diagnostics: &mut DiagnosticList,
    schema: &Schema,
    built_in_scalars: &mut BuiltInScalars,
) -> Result<(), ValidationError>
    ensures checks { ChecksWithin result
        (All (λ entry. DirectiveDefinitionHolds schema.now entry.1) schema.now.directive_definitions.entries)
        (IsDiagnostic (DirectiveDefinitionsReport schema.now))
        (λ e. DirectivesLimit schema.now e.details e.location) diagnostics.old diagnostics.new }
    ensures records { OnOk result (Records built_in_scalars.old built_in_scalars.new
        (flat_map (λ entry. argument_types entry.1.value.value.arguments.items) schema.now.directive_definitions.entries)) }
    ensures keeps { Keeps built_in_scalars.old built_in_scalars.new }
{
    let levels = DirectiveLevels::find(diagnostics.allocator(), schema)?;
    validate_definitions_by_levels(diagnostics, &levels, built_in_scalars)
}

/// Validates the directive definitions of the schema of the levels, in order. Types that they refer to are
/// recorded.
///
/// Specification: 3.13 Directives.
fn validate_definitions_by_levels(
    diagnostics: &mut DiagnosticList,
    levels: &DirectiveLevels<'_>,
    built_in_scalars: &mut BuiltInScalars,
) -> Result<(), ValidationError>
    ensures checks { ChecksWithin result
        (All (λ entry. DirectiveDefinitionHolds levels.now.schema.now entry.1) levels.now.schema.now.directive_definitions.entries)
        (IsDiagnostic (DirectiveDefinitionsReport levels.now.schema.now))
        (λ e. DirectivesLimit levels.now.schema.now e.details e.location) diagnostics.old diagnostics.new }
    ensures records { OnOk result (Records built_in_scalars.old built_in_scalars.new
        (flat_map (λ entry. argument_types entry.1.value.value.arguments.items) levels.now.schema.now.directive_definitions.entries)) }
    ensures keeps { Keeps built_in_scalars.old built_in_scalars.new }
{
    for (_, definition) in &levels.schema.directive_definitions {
        validate_definition_by_levels(diagnostics, levels, built_in_scalars, definition)?;
    }
    Ok(())
}
