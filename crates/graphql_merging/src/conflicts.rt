//! The conflicts in groups of fields: of each group the first field is compared with the rest.

ghost use Rattle.std.specs.Prelude.{◌≡◌, ◌↔◌, ◌≤◌, ◌+◌, ◌-◌, ◌∷◌, [], IsTrue, OnOk, length, sum_by};
ghost use Rattle.graphql_diagnostics.specs.Diagnostics.{entries};
ghost use Rattle.graphql_specification.specs.Merging.{shape_pass, SameResponseShape, type_of};
ghost use Rattle.graphql_specification.specs.MergedSets.{AreConflicts};
ghost use Rattle.graphql_diagnostics.specs.Reports.{Appends, KeepsReports};
ghost use Rattle.graphql_field_conflicts.specs.Conflicts.{ComparesField};
ghost use Rattle.graphql_field_conflicts.specs.FirstFields.{HasRead};
ghost use Rattle.graphql_merging.specs.NumberedFields.{listed, lists_of};
ghost use Rattle.graphql_field_conflicts.specs.FieldSelections as plain;
ghost use Rattle.graphql_merging.specs.Groups.{pass_of};
ghost use Rattle.graphql_merging.specs.Passes.{IsConflictAmong, counted};
ghost use Rattle.graphql_merging.specs.Works.{compared_in, weight};

use super::examined::Examined;
use super::groups::Pass;
use super::numbered_fields::NumberedField;
use graphql_diagnostics::DiagnosticList;
use graphql_documents::documents::Schema;
use graphql_field_conflicts::comparisons::{FirstField, same_output_type_shape};
use graphql_field_conflicts::conflict_reports::{report_conflict, report_types};
use graphql_field_conflicts::field_selections::FieldSelection;
use graphql_nodes::ValidationError;
use graphql_steps::Steps;
use std::sync::ledger::Ledger;

/// Compares the first field of each group with the rest, and reports each that does not agree with it.
pub(crate) fn compare_groups<'doc, L: Ledger>(
    diagnostics: &mut DiagnosticList,
    examined: &mut Examined<'doc>,
    schema: &Schema,
    pass: Pass,
    groups: &[Vec<NumberedField<'doc>>],
    steps: &mut Steps<L>,
) -> Result<(), ValidationError>
    ensures conflicts { OnOk result (Appends (AreConflicts schema.now (pass_of pass) (lists_of groups.now)) (entries diagnostics.old) (entries diagnostics.new)) }
    ensures comparisons { OnOk result (examined.new.comparisons ≡ counted (pass_of pass) examined.old.comparisons (sum_by (λ group. length group - 1) (lists_of groups.now))) }
    ensures lists { examined.new.lists ≡ examined.old.lists }
    ensures truth { KeepsReports (IsConflictAmong schema.now (pass_of pass) (lists_of groups.now)) (entries diagnostics.old) (entries diagnostics.new) }
    ensures steps { steps.new ≤ steps.old + weight (lists_of groups.now) + sum_by (compared_in pass) (lists_of groups.now) }
{
    for group in groups {
        steps.take(1);
        compare_group(diagnostics, examined, schema, pass, group, steps)?;
    }
    Ok(())
}

/// Compares the first field of one group with the rest, and reports each that does not agree with it.
fn compare_group<'doc, L: Ledger>(
    diagnostics: &mut DiagnosticList,
    examined: &mut Examined<'doc>,
    schema: &Schema,
    pass: Pass,
    group: &[NumberedField<'doc>],
    steps: &mut Steps<L>,
) -> Result<(), ValidationError>
    ensures conflicts { OnOk result (Appends (AreConflicts schema.now (pass_of pass) (listed group.now ∷ [])) (entries diagnostics.old) (entries diagnostics.new)) }
    ensures comparisons { OnOk result (examined.new.comparisons ≡ counted (pass_of pass) examined.old.comparisons (length (listed group.now) - 1)) }
    ensures lists { examined.new.lists ≡ examined.old.lists }
    ensures truth { KeepsReports (IsConflictAmong schema.now (pass_of pass) (listed group.now ∷ [])) (entries diagnostics.old) (entries diagnostics.new) }
    ensures steps { steps.new ≤ steps.old + length group.now + compared_in pass (listed group.now) }
{
    let Some((first, rest)) = group.split_first() else {
        return Ok(());
    };
    let alloc = diagnostics.allocator();
    let mut first = FirstField::new(alloc, examined.hash_seed(), first.selection())?;
    for field in rest {
        steps.take(1);
        compare(
            diagnostics,
            examined,
            schema,
            pass,
            &mut first,
            field.selection(),
            steps,
        )?;
    }
    Ok(())
}

/// Compares a field with the first of its group, and reports it if they do not agree.
fn compare<'doc, L: Ledger>(
    diagnostics: &mut DiagnosticList,
    examined: &mut Examined<'doc>,
    schema: &Schema,
    pass: Pass,
    first: &mut FirstField<'doc>,
    field: FieldSelection<'doc>,
    steps: &mut Steps<L>,
) -> Result<(), ValidationError>
    requires { HasRead first.old }
    ensures reports { ComparesField result schema.now (pass_of pass) (plain.selection_of first.old.selection) (plain.selection_of field.entry) diagnostics.old diagnostics.new }
    ensures comparisons { examined.new.comparisons ≡ counted (pass_of pass) examined.old.comparisons 1 }
    ensures lists { examined.new.lists ≡ examined.old.lists }
    ensures read { OnOk result (HasRead first.new) }
    ensures selection { first.new.selection ≡ first.old.selection }
    ensures steps { steps.new ≤ steps.old + compared_in pass (plain.selection_of first.old.selection ∷ plain.selection_of field.entry ∷ []) }
{
    match pass {
        Pass::Shapes => {
            if have_one_shape(examined, schema, first.selection, field) {
                return Ok(());
            }
            report_types(diagnostics, first.selection, field)
        }
        Pass::NamesAndArguments => {
            steps.take(first.selection.field.value.arguments.len());
            steps.take(field.field.value.arguments.len());
            match first.find_conflict(field)? {
                None => Ok(()),
                Some(conflict) => report_conflict(diagnostics, first.selection, field, conflict),
            }
        }
    }
}

/// Whether the types of two fields have one shape. Each call is counted.
fn have_one_shape<'doc>(
    examined: &mut Examined<'doc>,
    schema: &Schema,
    first: FieldSelection<'doc>,
    field: FieldSelection<'doc>,
) -> bool
    ensures answer { IsTrue result ↔ SameResponseShape schema.now (type_of (plain.selection_of first.entry)) (type_of (plain.selection_of field.entry)) }
    ensures comparisons { examined.new.comparisons ≡ counted shape_pass examined.old.comparisons 1 }
    ensures lists { examined.new.lists ≡ examined.old.lists }
{
    examined.comparisons = examined.comparisons.saturating_add(1);
    same_output_type_shape(schema, first, field)
}
