ghost use Rattle.std.specs.Prelude.{OnErr, OnOk};
ghost use Rattle.graphql_specification.specs.DefaultValues.{DefaultValuesHold};
ghost use Rattle.graphql_diagnostics.specs.Diagnostics.{IsDiagnostic, IsLimitEntry, entries};
ghost use Rattle.graphql_specification.specs.Schemas.{SchemaLimit, SchemaReport, SchemaHolds};
ghost use Rattle.graphql_diagnostics.specs.Reports.{ChecksWithin, KeepsReports, ReportsWithin};
ghost use Rattle.graphql_specification.specs.BuiltInScalars.{SchemaRetainsUsedBuiltInScalars, types_referred};
ghost use Rattle.graphql_field_definitions.specs.BuiltInScalarUses.{Records};
ghost use Rattle.graphql_schemas.specs.SchemaChecks.{IsSameSchema, SchemaEntryReport};

use crate::default_values::validate_default_values;
use crate::directive_definitions::validate_directive_definitions;
use crate::schema_definition::validate_schema_definition;
use crate::type_map::retain_used_built_in_scalars;
use crate::types::validate_types;
use graphql_diagnostics::DiagnosticList;
use graphql_documents::documents::Schema;
use graphql_field_definitions::built_in_scalars::BuiltInScalars;
use graphql_nodes::ValidationError;

/// Validates a schema and retains its types: what it says of itself, its directive definitions and its types,
/// in order, as they are handed in. Then the built-in scalars that it does not use are removed, and those
/// that it uses and lacks are added; last come the default values of arguments and input fields. The types
/// are retained also where something was reported. The only error is a failed allocation, and then the schema
/// is as it was.
///
/// Specification: 3 Type System; 3.5 Scalars, Built-in Scalars.
pub fn validate_schema(
    diagnostics: &mut DiagnosticList,
    schema: &mut Schema,
) -> Result<(), ValidationError>
    ensures holds { OnOk result (ReportsWithin IsLimitEntry (SchemaHolds schema.old × DefaultValuesHold schema.new)
        (SchemaEntryReport schema.old) (entries diagnostics.old) (entries diagnostics.new)) }
    ensures truth { KeepsReports (SchemaEntryReport schema.old) (entries diagnostics.old) (entries diagnostics.new) }
    ensures retained { OnOk result (SchemaRetainsUsedBuiltInScalars schema.old schema.new) }
    ensures refused { OnErr result (IsSameSchema schema.old schema.new) }
{
    let mut built_in_scalars = BuiltInScalars::new();
    validate_definitions(diagnostics, schema, &mut built_in_scalars)?;
    let changes = retain_used_built_in_scalars(&mut schema.types, &built_in_scalars)?;
    if let Err(refused) = validate_default_values(diagnostics, schema) {
        changes.undo(&mut schema.types);
        return Err(refused);
    }
    Ok(())
}

/// Validates what a schema says of itself, its directive definitions and its types. Types that they refer to are
/// recorded.
fn validate_definitions(
    diagnostics: &mut DiagnosticList,
    schema: &Schema,
    built_in_scalars: &mut BuiltInScalars,
) -> Result<(), ValidationError>
    ensures checks { ChecksWithin result (SchemaHolds schema.now) (IsDiagnostic (SchemaReport schema.now))
        (IsDiagnostic (SchemaLimit schema.now)) diagnostics.old diagnostics.new }
    ensures records { OnOk result (Records built_in_scalars.old built_in_scalars.new (types_referred schema.now)) }
{
    validate_schema_definition(diagnostics, schema)?;
    validate_directive_definitions(diagnostics, schema, built_in_scalars)?;
    validate_types(diagnostics, schema, built_in_scalars)
}
