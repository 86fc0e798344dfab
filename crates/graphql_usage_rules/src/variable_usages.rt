//! The variables that the operations of a document use.

ghost use Rattle.std.specs.Prelude.{All, Any, option_to_list};
ghost use Rattle.indexmap.specs.IndexMap.{values};
ghost use Rattle.graphql_documents.specs.Selections.{fragments_of};
ghost use Rattle.graphql_usage_rules.specs.Parts.{UsedInFragment, UsedInFragments, UsedInParts};
ghost use Rattle.graphql_reach.specs.Reached.{names_at};
ghost use Rattle.graphql_reporting.specs.Lists.{Checks};
ghost use Rattle.graphql_usage_rules.specs.VariableMisuses.{ChecksUsages, DocumentMisuseReport, OperationMisuseReport, OperationUsagesAreAllowed, VariableUsagesAreAllowed};

use crate::reports::VariableMisuse;
use crate::selections::{check_fragment, check_selection_set};
use crate::values::check_directives;
use graphql_documents::documents::{ExecutableDocument, Operation, Schema};
use graphql_hash_seeds::HashSeed;
use graphql_nodes::{Name, ValidationError};
use graphql_reach::reached_fragments;
use graphql_reporting::ReportList;
use graphql_variables::VariablesByName;
use indexmap::IndexSet;

/// Reports each use of a variable, in the scope of an operation that defines it, at a place where its type does not allow it:
/// in the arguments of fields and directives, at any depth of lists and objects. The scope of an operation is its directives,
/// the selections that it reaches, and the directives of the fragments that it reaches. Nothing is reported exactly where each
/// such usage is allowed.
///
/// A use in a fragment is reported for each operation that reaches it and does not allow it. The operation without a name comes
/// before the others, and these in the order of the text. Of one operation its directives come first, then its own selections,
/// and then each fragment that it reaches, once. Old reports stay. The only error is a failed allocation.
///
/// Specification: 5.8.5 All Variable Usages Are Allowed.
pub fn check_variable_usages(
    reports: &mut ReportList<VariableMisuse>,
    schema: &Schema,
    document: &ExecutableDocument,
) -> Result<(), ValidationError>
    ensures { Checks result (VariableUsagesAreAllowed schema.now document.now) (DocumentMisuseReport schema.now document.now) reports.old reports.new }
{
    check_anonymous_operation(reports, schema, document)?;
    check_named_operations(reports, schema, document)
}

fn check_anonymous_operation(
    reports: &mut ReportList<VariableMisuse>,
    schema: &Schema,
    document: &ExecutableDocument,
) -> Result<(), ValidationError>
    ensures { Checks result
        (All (λ o. OperationUsagesAreAllowed schema.now document.now o.value.value) (option_to_list document.now.operations.anonymous))
        (λ report. Any (λ o. OperationMisuseReport schema.now document.now o.value.value report) (option_to_list document.now.operations.anonymous))
        reports.old reports.new }
{
    match &document.operations.anonymous {
        Some(operation) => check_operation(reports, schema, document, &operation.value),
        None => Ok(()),
    }
}

fn check_named_operations(
    reports: &mut ReportList<VariableMisuse>,
    schema: &Schema,
    document: &ExecutableDocument,
) -> Result<(), ValidationError>
    ensures { Checks result
        (All (λ o. OperationUsagesAreAllowed schema.now document.now o.value.value) (values document.now.operations.named))
        (λ report. Any (λ o. OperationMisuseReport schema.now document.now o.value.value report) (values document.now.operations.named))
        reports.old reports.new }
{
    for operation in document.operations.named.values() {
        check_operation(reports, schema, document, &operation.value)?;
    }
    Ok(())
}

/// Reports the variables that may not be where they are used, in the scope of an operation.
fn check_operation(
    reports: &mut ReportList<VariableMisuse>,
    schema: &Schema,
    document: &ExecutableDocument,
    operation: &Operation,
) -> Result<(), ValidationError>
    ensures { Checks result (OperationUsagesAreAllowed schema.now document.now operation.now) (OperationMisuseReport schema.now document.now operation.now) reports.old reports.new }
{
    let alloc = reports.allocator();
    let variables = VariablesByName::new(alloc, document.hash_seed(), &operation.variables)?;
    let reached = reached_fragments(alloc, document, &operation.selection_set)?;
    check_scope(reports, schema, &variables, document, operation, &reached)
}

/// Reports the variables that may not be where they are used, in an operation with these variables and in the fragments that it
/// reaches.
fn check_scope(
    reports: &mut ReportList<VariableMisuse>,
    schema: &Schema,
    variables: &VariablesByName,
    document: &ExecutableDocument,
    operation: &Operation,
    reached: &IndexSet<&Name, HashSeed>,
) -> Result<(), ValidationError>
    ensures { ChecksUsages result variables.now (UsedInParts schema.now (fragments_of document.now) operation.now (names_at reached.now.keys)) reports.old reports.new }
{
    let hash_seed = document.hash_seed();
    check_directives(reports, schema, hash_seed, variables, &operation.directives)?;
    check_selection_set(
        reports,
        schema,
        hash_seed,
        variables,
        &operation.selection_set,
    )?;
    check_fragments(reports, schema, variables, document, reached)
}

/// Reports the variables that may not be where they are used, in the definitions of the fragments of these names.
fn check_fragments(
    reports: &mut ReportList<VariableMisuse>,
    schema: &Schema,
    variables: &VariablesByName,
    document: &ExecutableDocument,
    names: &IndexSet<&Name, HashSeed>,
) -> Result<(), ValidationError>
    ensures { ChecksUsages result variables.now (UsedInFragments schema.now (fragments_of document.now) (names_at names.now.keys)) reports.old reports.new }
{
    for name in names {
        check_fragment_named(reports, schema, variables, document, name)?;
    }
    Ok(())
}

fn check_fragment_named(
    reports: &mut ReportList<VariableMisuse>,
    schema: &Schema,
    variables: &VariablesByName,
    document: &ExecutableDocument,
    name: &Name,
) -> Result<(), ValidationError>
    ensures { ChecksUsages result variables.now (UsedInFragment schema.now (fragments_of document.now) name.now) reports.old reports.new }
{
    match document.fragments.get(name) {
        Some(fragment) => check_fragment(
            reports,
            schema,
            document.hash_seed(),
            variables,
            &fragment.value,
        ),
        None => Ok(()),
    }
}
