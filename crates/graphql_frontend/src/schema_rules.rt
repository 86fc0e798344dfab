//! The rules of schemas, together: those of validation, and that of input fields, which validation does not ask.

ghost use Rattle.std.specs.Prelude.{[], IfOk};
ghost use Rattle.graphql_diagnostics.specs.Reports.{Reports};
ghost use Rattle.graphql_input_rules.specs.SchemaValues.{SchemaInputFieldReport, SchemaInputFieldsAreUnique};
ghost use Rattle.graphql_frontend.specs.SchemaRuleReadings.{ReadsSchemaRules};

use crate::first_reports::{is_full_of_rules, kept_reports, report_bound};
use crate::reports::SchemaReports;
use graphql_diagnostics::DiagnosticList;
use graphql_documents::documents::Schema;
use graphql_input_rules::{InputFieldRepetition, check_schema_input_fields};
use graphql_nodes::ValidationError;
use graphql_parser::Bounds;
use graphql_schemas::schema::validate_schema;
use graphql_usage_rules::ReportList;
use std::alloc::Global;

/// What the rules report of a schema, within bounds.
#[derive(Drop)]
pub(crate) enum SchemaRuleReports {
    /// All that they report.
    All(SchemaReports),
    /// The first reports of validation, of more than the bounds keep.
    First(DiagnosticList),
}

/// What the rules report of a schema, within the bounds. If all of it is kept, the used built-in scalars of the schema are
/// retained.
pub(crate) fn schema_reports(
    alloc: Global,
    schema: &mut Schema,
    bounds: Bounds,
) -> Result<SchemaRuleReports, ValidationError>
    ensures { IfOk result (ReadsSchemaRules bounds schema.old schema.new) }
{
    let mut has_more = false;
    let input_fields = repeated_input_fields(alloc, schema, bounds, &mut has_more)?;
    let mut rules = DiagnosticList::with_bound(alloc, schema.hash_seed(), report_bound(bounds));
    match validate_schema(&mut rules, schema) {
        Ok(()) => Ok(SchemaRuleReports::All(SchemaReports {
            rules,
            input_fields,
            has_more,
        })),
        Err(error) => {
            if is_full_of_rules(&rules, bounds) {
                Ok(SchemaRuleReports::First(rules))
            } else {
                Err(error)
            }
        }
    }
}

/// The input fields that object values give again: the first ones, if there are more than the bounds keep.
fn repeated_input_fields(
    alloc: Global,
    schema: &Schema,
    bounds: Bounds,
    has_more: &mut bool,
) -> Result<Vec<InputFieldRepetition>, ValidationError>
    ensures { IfOk result (λ fields. Reports (SchemaInputFieldsAreUnique schema.now) (SchemaInputFieldReport schema.now) [] fields.items) }
{
    let mut input_fields = ReportList::with_bound(alloc, report_bound(bounds));
    let checked = check_schema_input_fields(&mut input_fields, schema);
    kept_reports(input_fields, checked, has_more)
}
