//! The variables in selections.

ghost use Rattle.graphql_usage_rules.specs.Parts.{FieldUses, FragmentUses, InlineFragmentUses, SelectionUses, SetUses};
ghost use Rattle.graphql_usage_rules.specs.VariableMisuses.{ChecksUsages};

use crate::reports::VariableMisuse;
use crate::values::{check_arguments, check_directives};
use graphql_documents::documents::{
    Field, Fragment, InlineFragment, Schema, Selection, SelectionSet,
};
use graphql_hash_seeds::HashSeed;
use graphql_nodes::ValidationError;
use graphql_reporting::ReportList;
use graphql_variables::VariablesByName;

/// Reports the variables that may not be where they are used, in the definition of a fragment.
pub(crate) fn check_fragment(
    reports: &mut ReportList<VariableMisuse>,
    schema: &Schema,
    hash_seed: HashSeed,
    variables: &VariablesByName,
    fragment: &Fragment,
) -> Result<(), ValidationError>
    ensures { ChecksUsages result variables.now (FragmentUses schema.now fragment.now) reports.old reports.new }
{
    check_directives(reports, schema, hash_seed, variables, &fragment.directives)?;
    check_selection_set(
        reports,
        schema,
        hash_seed,
        variables,
        &fragment.selection_set,
    )
}

/// Reports the variables that may not be where they are used, in the selections of a set, at any depth.
/// Spreads are not followed.
#[cycle(selection)]
pub(crate) fn check_selection_set(
    reports: &mut ReportList<VariableMisuse>,
    schema: &Schema,
    hash_seed: HashSeed,
    variables: &VariablesByName,
    set: &SelectionSet,
) -> Result<(), ValidationError>
    ensures { ChecksUsages result variables.now (SetUses schema.now set.now) reports.old reports.new }
{
    for selection in &set.selections {
        check_selection(reports, schema, hash_seed, variables, selection)?;
    }
    Ok(())
}

#[cycle(selection)]
fn check_selection(
    reports: &mut ReportList<VariableMisuse>,
    schema: &Schema,
    hash_seed: HashSeed,
    variables: &VariablesByName,
    selection: &Selection,
) -> Result<(), ValidationError>
    ensures { ChecksUsages result variables.now (SelectionUses schema.now selection.now) reports.old reports.new }
{
    match selection {
        Selection::Field(field) => check_field(reports, schema, hash_seed, variables, &field.value),
        Selection::FragmentSpread(spread) => {
            check_directives(
                reports,
                schema,
                hash_seed,
                variables,
                &spread.value.directives,
            )
        }
        Selection::InlineFragment(fragment) => {
            check_inline_fragment(reports, schema, hash_seed, variables, &fragment.value)
        }
    }
}

#[cycle(selection)]
fn check_field(
    reports: &mut ReportList<VariableMisuse>,
    schema: &Schema,
    hash_seed: HashSeed,
    variables: &VariablesByName,
    field: &Field,
) -> Result<(), ValidationError>
    ensures { ChecksUsages result variables.now (FieldUses schema.now field.now) reports.old reports.new }
{
    let definitions = &field.definition.value.arguments;
    check_arguments(
        reports,
        schema,
        hash_seed,
        variables,
        definitions,
        &field.arguments,
    )?;
    check_directives(reports, schema, hash_seed, variables, &field.directives)?;
    check_selection_set(reports, schema, hash_seed, variables, &field.selection_set)
}

#[cycle(selection)]
fn check_inline_fragment(
    reports: &mut ReportList<VariableMisuse>,
    schema: &Schema,
    hash_seed: HashSeed,
    variables: &VariablesByName,
    fragment: &InlineFragment,
) -> Result<(), ValidationError>
    ensures { ChecksUsages result variables.now (InlineFragmentUses schema.now fragment.now) reports.old reports.new }
{
    check_directives(reports, schema, hash_seed, variables, &fragment.directives)?;
    check_selection_set(
        reports,
        schema,
        hash_seed,
        variables,
        &fragment.selection_set,
    )
}
