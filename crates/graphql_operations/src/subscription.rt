ghost use Rattle.std.specs.Option.{option_copied};
ghost use Rattle.std.specs.Prelude.{◌≡◌, [], All, IfOk, List, find, map};
ghost use Rattle.graphql_specification.specs.Subscriptions.{OperationSubscriptionHolds, SubscriptionLimit, SubscriptionReport, HasOneRootField, WalkedFields, is_conditional, is_introspection};
ghost use Rattle.graphql_nodes.specs.Names.{NameText};
ghost use Rattle.graphql_diagnostics.specs.Reports.{Checks, ChecksWithin};
ghost use Rattle.graphql_documents.specs.Selections.{Fragments, InExpandedSet, directives_of, fragments_of, selections_of, field_of, fields_among};
ghost use Rattle.graphql_nodes.specs.declared.operation_types.OperationType.TheVariants.{Subscription};
ghost use Rattle.graphql_operations.specs.Subscriptions.{ChecksAtRoot, IsNoIntrospection, IsUnconditional, RootSelectionHolds, SubscriptionRuleReport};

use graphql_diagnostics::{BuildError, Details, DiagnosticData, DiagnosticList};
use graphql_documents::documents::{Directive, ExecutableDocument, Field, Operation, Selection};
use graphql_nodes::{Name, Node, OperationType, ValidationError};
use graphql_variables::conditions::{INCLUDE_DIRECTIVE_NAME, SKIP_DIRECTIVE_NAME, directives_of};
use graphql_variables::walk_selections;
use std::alloc::Global;

/// Validates an operation that is a subscription: no root field is one of introspection, no root
/// selection has `@skip` or `@include`, and there is one root field at most. Root selections are those
/// of the operation and of the fragments in it, at any depth, but not below fields. Nothing is reported
/// of another operation.
///
/// Reports come in the order in which the root selections are visited, at each first of introspection, at
/// the field, then of a condition, at the first such directive; last that there are several fields, at
/// the operation, with their names.
///
/// Where the walk over the root passes its limit, a limit without a location follows the diagnostics of what
/// it visited, and the fields are not counted. The only error is a failed allocation.
///
/// Specification: 5.2.3.1 Single Root Field; draft, on conditions at the root.
pub fn validate_subscription(
    document: &ExecutableDocument,
    operation: &Node<Operation>,
    diagnostics: &mut DiagnosticList,
) -> Result<(), ValidationError>
    ensures { ChecksWithin result (OperationSubscriptionHolds document.now operation.now.value.value)
        (λ e. SubscriptionReport (fragments_of document.now) operation.now e.details e.location)
        (λ e. SubscriptionLimit (fragments_of document.now) operation.now.value.value e.details e.location)
        diagnostics.old diagnostics.new }
{
    if operation.value.operation_type != OperationType::Subscription {
        return Ok(());
    }
    let alloc = diagnostics.allocator();
    let walked = walk_selections(alloc, document, &operation.value.selection_set)?;
    check_selections(operation, &walked.selections, diagnostics)?;
    if walked.complete {
        check_number(operation, &walked.selections, diagnostics)
    } else {
        diagnostics.push(None, Details::Diagnostic(DiagnosticData::RecursionError))
    }
}

/// Reports the root selections that are fields of introspection, or that have a condition.
fn check_selections(
    operation: &Node<Operation>,
    selections: &[&Selection],
    diagnostics: &mut DiagnosticList,
) -> Result<(), ValidationError>
    ensures { (fragments : Fragments) → operation.now.value.value.operation_type ≡ Subscription →
        All (λ s. InExpandedSet fragments operation.now.value.value.selection_set s.now) selections.now →
        Checks result (All (λ s. RootSelectionHolds s.now) selections.now) (SubscriptionRuleReport fragments operation.now) diagnostics.old diagnostics.new }
{
    for selection in selections {
        check_introspection(operation, selection, diagnostics)?;
        check_condition(operation, selection, diagnostics)?;
    }
    Ok(())
}

/// Reports a root selection that is a field of introspection.
fn check_introspection(
    operation: &Node<Operation>,
    selection: &Selection,
    diagnostics: &mut DiagnosticList,
) -> Result<(), ValidationError>
    ensures { ChecksAtRoot result IsNoIntrospection operation.now selection.now diagnostics.old diagnostics.new }
{
    let Selection::Field(field) = selection else {
        return Ok(());
    };
    if !is_introspection(&field.value.name) {
        return Ok(());
    }
    let name = name_of(operation)?;
    let introspected = field.value.name.clone()?;
    diagnostics.push(
        field.location,
        Details::Build(BuildError::SubscriptionUsesIntrospection {
            name,
            field: introspected,
        }),
    )
}

/// Whether a field of this name is one of introspection.
fn is_introspection(name: &Name) -> bool
    ensures { result ≡ is_introspection name.now }
{
    let text = name.as_str();
    text == "__type" || text == "__schema" || text == "__typename"
}

/// A selection as a field, if it is one.
fn field_of(selection: &Selection) -> Option<&Node<Field>>
    ensures { option_copied result ≡ field_of selection.now }
{
    match selection {
        Selection::Field(field) => Some(field),
        Selection::FragmentSpread(_) | Selection::InlineFragment(_) => None,
    }
}

/// The name of an operation, if it has one.
fn name_of(operation: &Node<Operation>) -> Result<Option<Name>, ValidationError>
    ensures { IfOk result (λ name. name ≡ operation.now.value.value.name) }
{
    match &operation.value.name {
        Some(name) => Ok(Some(name.clone()?)),
        None => Ok(None),
    }
}

/// Reports a root selection that has a condition, at the first.
fn check_condition(
    operation: &Node<Operation>,
    selection: &Selection,
    diagnostics: &mut DiagnosticList,
) -> Result<(), ValidationError>
    ensures { ChecksAtRoot result IsUnconditional operation.now selection.now diagnostics.old diagnostics.new }
{
    let Some(condition) = condition_of(selection) else {
        return Ok(());
    };
    let name = name_of(operation)?;
    diagnostics.push(
        condition.location,
        Details::Build(BuildError::SubscriptionUsesConditionalSelection { name }),
    )
}

/// The first condition of a selection.
fn condition_of(selection: &Selection) -> Option<&Node<Directive>>
    ensures { option_copied result ≡ find (λ d. is_conditional d.value.value.name) (directives_of selection.now) }
{
    let directives = directives_of(selection);
    directives.iter().find(|d| is_conditional(&d.value.name))
}

/// Whether a directive of this name is a condition.
fn is_conditional(name: &Name) -> bool
    ensures { result ≡ is_conditional name.now }
{
    let text = name.as_str();
    text == SKIP_DIRECTIVE_NAME || text == INCLUDE_DIRECTIVE_NAME
}

/// Reports a subscription for which more than one field was visited, among all its root selections.
fn check_number(
    operation: &Node<Operation>,
    selections: &[&Selection],
    diagnostics: &mut DiagnosticList,
) -> Result<(), ValidationError>
    ensures { (document : ExecutableDocument) (visited : List NameText) → operation.now.value.value.operation_type ≡ Subscription →
        WalkedFields (fragments_of document) [] (selections_of operation.now.value.value.selection_set)
        (fields_among (map (λ s. s.now) selections.now)) visited →
        Checks result (HasOneRootField (fragments_of document) operation.now.value.value.selection_set)
        (SubscriptionRuleReport (fragments_of document) operation.now) diagnostics.old diagnostics.new }
{
    let fields = field_names(diagnostics.allocator(), selections)?;
    if fields.len() <= 1 {
        return Ok(());
    }
    let name = name_of(operation)?;
    diagnostics.push(
        operation.location,
        Details::Build(BuildError::SubscriptionUsesMultipleFields { name, fields }),
    )
}

/// The names of the fields among these selections, in order.
fn field_names(alloc: Global, selections: &[&Selection]) -> Result<Vec<Name>, ValidationError>
    ensures { IfOk result (λ names. names.items ≡ map (λ f. f.value.value.name) (fields_among (map (λ s. s.now) selections.now))) }
{
    let mut names = Vec::new(alloc);
    for selection in selections {
        if let Some(field) = field_of(selection) {
            names.push(field.value.name.clone()?)?;
        }
    }
    Ok(names)
}
