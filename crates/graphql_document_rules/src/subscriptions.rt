//! The root of a subscription.

ghost use Rattle.indexmap.specs.IndexMap.{keys};
ghost use Rattle.std.specs.Option.{option_copied};
ghost use Rattle.std.specs.Prelude.{◌≡◌, ◌∷◌, [], All, IfOk, List, find, map};
ghost use Rattle.graphql_diagnostics.specs.Reports.{Checks, ChecksWithin};
ghost use Rattle.graphql_document_rules.specs.RootSteps.{ChecksAtRoot, RootRuleReport};
ghost use Rattle.graphql_document_rules.specs.SingleRootField.{HasOneResponseKey, OperationRootHolds, SubscriptionRootReport};
ghost use Rattle.graphql_documents.specs.Selections.{Fragments, InExpandedSet, directives_of, fragments_of};
ghost use Rattle.graphql_nodes.specs.declared.operation_types.OperationType.TheVariants.{Subscription};
ghost use Rattle.graphql_operations.specs.Subscriptions.{IsNoIntrospection, IsUnconditional, RootSelectionHolds};
ghost use Rattle.graphql_specification.specs.CollectFields.{CollectsFrom};
ghost use Rattle.graphql_specification.specs.MergedSets.{keys_of};
ghost use Rattle.graphql_specification.specs.Merging as merging;
ghost use Rattle.graphql_specification.specs.Subscriptions.{SubscriptionLimit, is_conditional, is_introspection};

use graphql_diagnostics::{BuildError, Details, DiagnosticData, DiagnosticList};
use graphql_documents::documents::{
    Directive, ExecutableDocument, Operation, Schema, Selection, SelectionSet,
};
use graphql_field_conflicts::field_selections::FieldSelection;
use graphql_hash_seeds::HashSeed;
use graphql_nodes::{Name, Node, OperationType, ValidationError};
use graphql_validation::collect::collect_fields;
use graphql_variables::conditions::{INCLUDE_DIRECTIVE_NAME, SKIP_DIRECTIVE_NAME, directives_of};
use graphql_variables::walk_selections;
use indexmap::IndexMap;
use std::alloc::Global;

/// Validates an operation that is a subscription: no root field is one of introspection, no root selection has `@skip` or
/// `@include`, and the fields that are collected at the root have one response key at most. Root selections are those of the
/// operation and of the fragments in it, at any depth, but not below fields. Nothing is reported of another operation.
///
/// Reports come in the order in which the root selections are visited, at each first of introspection, at the field, then of a
/// condition, at the first such directive; last that there are several response keys, at the operation, with the keys in the
/// order of their first fields.
///
/// If the walk over the root passes its limit, a limit without a location follows the diagnostics of what it visited, and no
/// fields are collected. The only error is a failed allocation.
///
/// Specification: 5.2.3.1 Single Root Field.
pub(crate) fn validate_subscription_root(
    schema: &Schema,
    document: &ExecutableDocument,
    operation: &Node<Operation>,
    diagnostics: &mut DiagnosticList,
) -> Result<(), ValidationError>
    ensures { ChecksWithin result (OperationRootHolds schema.now document.now operation.now.value.value)
        (λ e. SubscriptionRootReport schema.now (fragments_of document.now) operation.now e.details e.location)
        (λ e. SubscriptionLimit (fragments_of document.now) operation.now.value.value e.details e.location)
        diagnostics.old diagnostics.new }
{
    if operation.value.operation_type != OperationType::Subscription {
        return Ok(());
    }
    let alloc = diagnostics.allocator();
    let walked = walk_selections(alloc, document, &operation.value.selection_set)?;
    check_selections(operation, &walked.selections, diagnostics)?;
    if walked.complete {
        check_response_keys(schema, document, operation, diagnostics)
    } else {
        diagnostics.push(None, Details::Diagnostic(DiagnosticData::RecursionError))
    }
}

/// Reports the root selections that are fields of introspection, or that have a condition.
fn check_selections(
    operation: &Node<Operation>,
    selections: &[&Selection],
    diagnostics: &mut DiagnosticList,
) -> Result<(), ValidationError>
    ensures { (schema : Schema) (fragments : Fragments) → operation.now.value.value.operation_type ≡ Subscription →
        All (λ s. InExpandedSet fragments operation.now.value.value.selection_set s.now) selections.now →
        Checks result (All (λ s. RootSelectionHolds s.now) selections.now) (RootRuleReport schema fragments operation.now) diagnostics.old diagnostics.new }
{
    for selection in selections {
        check_introspection(operation, selection, diagnostics)?;
        check_condition(operation, selection, diagnostics)?;
    }
    Ok(())
}

/// Reports a root selection that is a field of introspection.
fn check_introspection(
    operation: &Node<Operation>,
    selection: &Selection,
    diagnostics: &mut DiagnosticList,
) -> Result<(), ValidationError>
    ensures { ChecksAtRoot result IsNoIntrospection operation.now selection.now diagnostics.old diagnostics.new }
{
    let Selection::Field(field) = selection else {
        return Ok(());
    };
    if !is_introspection(&field.value.name) {
        return Ok(());
    }
    let name = name_of(operation)?;
    let introspected = field.value.name.clone()?;
    diagnostics.push(
        field.location,
        Details::Build(BuildError::SubscriptionUsesIntrospection {
            name,
            field: introspected,
        }),
    )
}

/// Whether a field of this name is one of introspection.
fn is_introspection(name: &Name) -> bool
    ensures { result ≡ is_introspection name.now }
{
    let text = name.as_str();
    text == "__type" || text == "__schema" || text == "__typename"
}

/// The name of an operation, if it has one.
fn name_of(operation: &Node<Operation>) -> Result<Option<Name>, ValidationError>
    ensures { IfOk result (λ name. name ≡ operation.now.value.value.name) }
{
    match &operation.value.name {
        Some(name) => Ok(Some(name.clone()?)),
        None => Ok(None),
    }
}

/// Reports a root selection that has a condition, at the first.
fn check_condition(
    operation: &Node<Operation>,
    selection: &Selection,
    diagnostics: &mut DiagnosticList,
) -> Result<(), ValidationError>
    ensures { ChecksAtRoot result IsUnconditional operation.now selection.now diagnostics.old diagnostics.new }
{
    let Some(condition) = condition_of(selection) else {
        return Ok(());
    };
    let name = name_of(operation)?;
    diagnostics.push(
        condition.location,
        Details::Build(BuildError::SubscriptionUsesConditionalSelection { name }),
    )
}

/// The first condition of a selection.
fn condition_of(selection: &Selection) -> Option<&Node<Directive>>
    ensures { option_copied result ≡ find (λ d. is_conditional d.value.value.name) (directives_of selection.now) }
{
    let directives = directives_of(selection);
    directives.iter().find(|d| is_conditional(&d.value.name))
}

/// Whether a directive of this name is a condition.
fn is_conditional(name: &Name) -> bool
    ensures { result ≡ is_conditional name.now }
{
    let text = name.as_str();
    text == SKIP_DIRECTIVE_NAME || text == INCLUDE_DIRECTIVE_NAME
}

/// Reports a subscription whose root fields have more than one response key.
fn check_response_keys(
    schema: &Schema,
    document: &ExecutableDocument,
    operation: &Node<Operation>,
    diagnostics: &mut DiagnosticList,
) -> Result<(), ValidationError>
    ensures { operation.now.value.value.operation_type ≡ Subscription →
        Checks result (HasOneResponseKey schema.now (fragments_of document.now) operation.now.value.value.selection_set)
        (RootRuleReport schema.now (fragments_of document.now) operation.now) diagnostics.old diagnostics.new }
{
    let alloc = diagnostics.allocator();
    let fields = collected_keys(alloc, schema, document, &operation.value.selection_set)?;
    if fields.len() <= 1 {
        return Ok(());
    }
    let name = name_of(operation)?;
    diagnostics.push(
        operation.location,
        Details::Build(BuildError::SubscriptionUsesMultipleFields { name, fields }),
    )
}

/// The response keys of the fields that are collected from a set for objects of its own type, each once, in the order of
/// their first fields.
fn collected_keys(
    alloc: Global,
    schema: &Schema,
    document: &ExecutableDocument,
    set: &SelectionSet,
) -> Result<Vec<Name>, ValidationError>
    ensures { IfOk result (λ names. (fields : List merging.FieldSelection) ×
        CollectsFrom schema.now (fragments_of document.now) set.now.ty [] (set.now ∷ []) fields × (names.items ≡ keys_of fields)) }
{
    let found = collect_fields(alloc, schema, document, &set.ty, &[set])?;
    names_of(alloc, &found)
}

/// The keys of a map, as names of their own.
fn names_of<'doc>(
    alloc: Global,
    found: &IndexMap<&'doc Name, Vec<FieldSelection<'doc>>, HashSeed>,
) -> Result<Vec<Name>, ValidationError>
    ensures { IfOk result (λ names. names.items ≡ map (λ key. key.now) (keys found.now)) }
{
    let mut names = Vec::new(alloc);
    for key in found.keys() {
        names.push((*key).clone()?)?;
    }
    Ok(names)
}
