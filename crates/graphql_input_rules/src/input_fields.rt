//! The input fields of the object values in a document.

ghost use Rattle.std.specs.Prelude.{Any, option_to_list};
ghost use Rattle.indexmap.specs.IndexMap.{values};
ghost use Rattle.graphql_input_rules.specs.Selections.{FieldWrites, InlineFragmentWrites, OperationsWrite, SelectionWrites};
ghost use Rattle.graphql_input_rules.specs.InputFields.{FieldReport, FieldsAreUnique, InputFieldReport, InputFieldsAreUnique};
ghost use Rattle.graphql_reporting.specs.Lists.{Checks};
ghost use Rattle.graphql_input_rules.specs.ValuesWritten.{FragmentWrites, OperationWrites, SetWrites, VariableWrites};

use crate::reports::InputFieldRepetition;
use crate::values::{check_arguments, check_default_value, check_directives};
use graphql_documents::documents::{
    ExecutableDocument, Field, Fragment, InlineFragment, Operation, OperationMap, Selection,
    SelectionSet, VariableDefinition,
};
use graphql_hash_seeds::HashSeed;
use graphql_nodes::{Name, Node, ValidationError};
use graphql_reporting::ReportList;
use indexmap::IndexMap;

/// Reports each input field that an object value in the document gives again: in the arguments of fields and directives and in
/// the default values of variables, at any depth. Nothing is reported exactly where every such value gives each of its fields
/// once.
///
/// The operations come first, the one without a name before the others, and then the fragments, each in the order of the text.
/// Old reports stay. The only error is a failed allocation.
///
/// Specification: 5.6.3 Input Object Field Uniqueness.
pub fn check_input_fields(
    reports: &mut ReportList<InputFieldRepetition>,
    document: &ExecutableDocument,
) -> Result<(), ValidationError>
    ensures { Checks result (InputFieldsAreUnique document.now) (InputFieldReport document.now) reports.old reports.new }
{
    let hash_seed = document.hash_seed();
    check_operations(reports, hash_seed, &document.operations)?;
    check_fragments(reports, hash_seed, &document.fragments)
}

fn check_operations(
    reports: &mut ReportList<InputFieldRepetition>,
    hash_seed: HashSeed,
    operations: &OperationMap,
) -> Result<(), ValidationError>
    ensures { Checks result (FieldsAreUnique (OperationsWrite operations.now)) (FieldReport (OperationsWrite operations.now)) reports.old reports.new }
{
    check_anonymous_operation(reports, hash_seed, &operations.anonymous)?;
    check_named_operations(reports, hash_seed, &operations.named)
}

fn check_anonymous_operation(
    reports: &mut ReportList<InputFieldRepetition>,
    hash_seed: HashSeed,
    operation: &Option<Node<Operation>>,
) -> Result<(), ValidationError>
    ensures { Checks result (FieldsAreUnique (λ v. Any (λ o. OperationWrites o.value.value v) (option_to_list operation.now))) (FieldReport (λ v. Any (λ o. OperationWrites o.value.value v) (option_to_list operation.now))) reports.old reports.new }
{
    match operation {
        Some(operation) => check_operation(reports, hash_seed, &operation.value),
        None => Ok(()),
    }
}

fn check_named_operations(
    reports: &mut ReportList<InputFieldRepetition>,
    hash_seed: HashSeed,
    operations: &IndexMap<Name, Node<Operation>, HashSeed>,
) -> Result<(), ValidationError>
    ensures { Checks result (FieldsAreUnique (λ v. Any (λ o. OperationWrites o.value.value v) (values operations.now))) (FieldReport (λ v. Any (λ o. OperationWrites o.value.value v) (values operations.now))) reports.old reports.new }
{
    for operation in operations.values() {
        check_operation(reports, hash_seed, &operation.value)?;
    }
    Ok(())
}

fn check_fragments(
    reports: &mut ReportList<InputFieldRepetition>,
    hash_seed: HashSeed,
    fragments: &IndexMap<Name, Node<Fragment>, HashSeed>,
) -> Result<(), ValidationError>
    ensures { Checks result (FieldsAreUnique (λ v. Any (λ f. FragmentWrites f.value.value v) (values fragments.now))) (FieldReport (λ v. Any (λ f. FragmentWrites f.value.value v) (values fragments.now))) reports.old reports.new }
{
    for fragment in fragments.values() {
        check_fragment(reports, hash_seed, &fragment.value)?;
    }
    Ok(())
}

fn check_operation(
    reports: &mut ReportList<InputFieldRepetition>,
    hash_seed: HashSeed,
    operation: &Operation,
) -> Result<(), ValidationError>
    ensures { Checks result (FieldsAreUnique (OperationWrites operation.now)) (FieldReport (OperationWrites operation.now)) reports.old reports.new }
{
    check_variables(reports, hash_seed, &operation.variables)?;
    check_directives(reports, hash_seed, &operation.directives)?;
    check_selection_set(reports, hash_seed, &operation.selection_set)
}

fn check_fragment(
    reports: &mut ReportList<InputFieldRepetition>,
    hash_seed: HashSeed,
    fragment: &Fragment,
) -> Result<(), ValidationError>
    ensures { Checks result (FieldsAreUnique (FragmentWrites fragment.now)) (FieldReport (FragmentWrites fragment.now)) reports.old reports.new }
{
    check_directives(reports, hash_seed, &fragment.directives)?;
    check_selection_set(reports, hash_seed, &fragment.selection_set)
}

fn check_variables(
    reports: &mut ReportList<InputFieldRepetition>,
    hash_seed: HashSeed,
    variables: &[Node<VariableDefinition>],
) -> Result<(), ValidationError>
    ensures { Checks result (FieldsAreUnique (λ v. Any (λ x. VariableWrites x.value.value v) variables.now)) (FieldReport (λ v. Any (λ x. VariableWrites x.value.value v) variables.now)) reports.old reports.new }
{
    for variable in variables {
        check_variable(reports, hash_seed, &variable.value)?;
    }
    Ok(())
}

fn check_variable(
    reports: &mut ReportList<InputFieldRepetition>,
    hash_seed: HashSeed,
    variable: &VariableDefinition,
) -> Result<(), ValidationError>
    ensures { Checks result (FieldsAreUnique (VariableWrites variable.now)) (FieldReport (VariableWrites variable.now)) reports.old reports.new }
{
    check_default_value(reports, hash_seed, &variable.default_value)?;
    check_directives(reports, hash_seed, &variable.directives)
}

#[cycle(selection)]
fn check_selection_set(
    reports: &mut ReportList<InputFieldRepetition>,
    hash_seed: HashSeed,
    set: &SelectionSet,
) -> Result<(), ValidationError>
    ensures { Checks result (FieldsAreUnique (SetWrites set.now)) (FieldReport (SetWrites set.now)) reports.old reports.new }
{
    for selection in &set.selections {
        check_selection(reports, hash_seed, selection)?;
    }
    Ok(())
}

#[cycle(selection)]
fn check_selection(
    reports: &mut ReportList<InputFieldRepetition>,
    hash_seed: HashSeed,
    selection: &Selection,
) -> Result<(), ValidationError>
    ensures { Checks result (FieldsAreUnique (SelectionWrites selection.now)) (FieldReport (SelectionWrites selection.now)) reports.old reports.new }
{
    match selection {
        Selection::Field(field) => check_field(reports, hash_seed, &field.value),
        Selection::FragmentSpread(spread) => check_directives(
            reports,
            hash_seed,
            &spread.value.directives,
        ),
        Selection::InlineFragment(fragment) => check_inline_fragment(
            reports,
            hash_seed,
            &fragment.value,
        ),
    }
}

#[cycle(selection)]
fn check_field(
    reports: &mut ReportList<InputFieldRepetition>,
    hash_seed: HashSeed,
    field: &Field,
) -> Result<(), ValidationError>
    ensures { Checks result (FieldsAreUnique (FieldWrites field.now)) (FieldReport (FieldWrites field.now)) reports.old reports.new }
{
    check_arguments(reports, hash_seed, &field.arguments)?;
    check_directives(reports, hash_seed, &field.directives)?;
    check_selection_set(reports, hash_seed, &field.selection_set)
}

#[cycle(selection)]
fn check_inline_fragment(
    reports: &mut ReportList<InputFieldRepetition>,
    hash_seed: HashSeed,
    fragment: &InlineFragment,
) -> Result<(), ValidationError>
    ensures { Checks result (FieldsAreUnique (InlineFragmentWrites fragment.now)) (FieldReport (InlineFragmentWrites fragment.now)) reports.old reports.new }
{
    check_directives(reports, hash_seed, &fragment.directives)?;
    check_selection_set(reports, hash_seed, &fragment.selection_set)
}
