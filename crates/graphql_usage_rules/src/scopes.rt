//! The variables in the scope of an operation.

ghost use Rattle.std.specs.Prelude.{◌↔◌, IfOk, OnOk};
ghost use Rattle.graphql_documents.specs.Selections.{fragments_of};
ghost use Rattle.graphql_documents.specs.declared.documents.values.Value.{Value};
ghost use Rattle.graphql_nodes.specs.declared.nodes.Node.{Node};
ghost use Rattle.graphql_reach.specs.Reached.{names_at};
ghost use Rattle.graphql_usage_rules.specs.Scopes.{Adds, AreVariablesInScope, InEntries, InFragmentNamed, InFragments, InItems, SelectionHasVariable, SetHasVariable, values_at};
ghost use Rattle.graphql_usage_rules.specs.UndefinedVariables.{VariableIn, VariableInArguments, VariableInDirectives};

use graphql_documents::documents::{
    Argument, Directive, ExecutableDocument, Operation, Selection, SelectionSet, Value,
};
use graphql_hash_seeds::HashSeed;
use graphql_nodes::{Name, Node, ValidationError};
use graphql_reach::reached_fragments;
use indexmap::IndexSet;
use std::alloc::Global;

/// The variables in the scope of an operation: in its directives, in the selections that it reaches, and in the directives of
/// the fragments that it reaches, in this order, each as often as it is there. The only error is a failed allocation.
pub(crate) fn variables_in_scope<'doc>(
    alloc: Global,
    document: &'doc ExecutableDocument,
    operation: &'doc Operation,
) -> Result<Vec<&'doc Node<Value>>, ValidationError>
    ensures { IfOk result (λ variables. AreVariablesInScope (fragments_of document.now) operation.now (values_at variables.items)) }
{
    let reached = reached_fragments(alloc, document, &operation.selection_set)?;
    let mut variables = Vec::new(alloc);
    add_in_directives(&mut variables, &operation.directives)?;
    add_in_selection_set(&mut variables, &operation.selection_set)?;
    add_in_fragments(&mut variables, document, &reached)?;
    Ok(variables)
}

/// Adds the variables in the definitions of the fragments of these names.
fn add_in_fragments<'doc>(
    variables: &mut Vec<&'doc Node<Value>>,
    document: &'doc ExecutableDocument,
    names: &IndexSet<&'doc Name, HashSeed>,
) -> Result<(), ValidationError>
    ensures { OnOk result (Adds (InFragments (fragments_of document.now) (names_at names.now.keys)) (values_at variables.old.items) (values_at variables.new.items)) }
{
    for name in names {
        add_in_fragment(variables, document, name)?;
    }
    Ok(())
}

fn add_in_fragment<'doc>(
    variables: &mut Vec<&'doc Node<Value>>,
    document: &'doc ExecutableDocument,
    name: &Name,
) -> Result<(), ValidationError>
    ensures { OnOk result (Adds (InFragmentNamed (fragments_of document.now) name.now) (values_at variables.old.items) (values_at variables.new.items)) }
{
    match document.fragments.get(name) {
        Some(fragment) => {
            add_in_directives(variables, &fragment.value.directives)?;
            add_in_selection_set(variables, &fragment.value.selection_set)
        }
        None => Ok(()),
    }
}

/// Adds the variables in the selections of a set, at any depth. Spreads are not followed.
#[cycle(selection)]
fn add_in_selection_set<'doc>(
    variables: &mut Vec<&'doc Node<Value>>,
    set: &'doc SelectionSet,
) -> Result<(), ValidationError>
    ensures { OnOk result (Adds (SetHasVariable set.now) (values_at variables.old.items) (values_at variables.new.items)) }
{
    for selection in &set.selections {
        add_in_selection(variables, selection)?;
    }
    Ok(())
}

#[cycle(selection)]
fn add_in_selection<'doc>(
    variables: &mut Vec<&'doc Node<Value>>,
    selection: &'doc Selection,
) -> Result<(), ValidationError>
    ensures { OnOk result (Adds (SelectionHasVariable selection.now) (values_at variables.old.items) (values_at variables.new.items)) }
{
    match selection {
        Selection::Field(field) => {
            add_in_arguments(variables, &field.value.arguments)?;
            add_in_directives(variables, &field.value.directives)?;
            add_in_selection_set(variables, &field.value.selection_set)
        }
        Selection::FragmentSpread(spread) => {
            add_in_directives(variables, &spread.value.directives)
        }
        Selection::InlineFragment(fragment) => {
            add_in_directives(variables, &fragment.value.directives)?;
            add_in_selection_set(variables, &fragment.value.selection_set)
        }
    }
}

/// Adds the variables in the arguments of directives.
fn add_in_directives<'doc>(
    variables: &mut Vec<&'doc Node<Value>>,
    directives: &'doc [Node<Directive>],
) -> Result<(), ValidationError>
    ensures { OnOk result (Adds (VariableInDirectives directives.now) (values_at variables.old.items) (values_at variables.new.items)) }
{
    for directive in directives {
        add_in_arguments(variables, &directive.value.arguments)?;
    }
    Ok(())
}

/// Adds the variables in the values of arguments.
fn add_in_arguments<'doc>(
    variables: &mut Vec<&'doc Node<Value>>,
    arguments: &'doc [Node<Argument>],
) -> Result<(), ValidationError>
    ensures { OnOk result (Adds (VariableInArguments arguments.now) (values_at variables.old.items) (values_at variables.new.items)) }
{
    for argument in arguments {
        add_in_value(variables, &argument.value.value)?;
    }
    Ok(())
}

/// Adds the variables in a value, at any depth of lists and objects.
#[cycle(value)]
fn add_in_value<'doc>(
    variables: &mut Vec<&'doc Node<Value>>,
    value: &'doc Node<Value>,
) -> Result<(), ValidationError>
    ensures { OnOk result (Adds (λ variable. VariableIn variable value.now) (values_at variables.old.items) (values_at variables.new.items)) }
{
    match &*value.value {
        Value::Variable(_) => variables.push(value)?,
        Value::List(items) => add_in_items(variables, items)?,
        Value::Object(entries) => add_in_entries(variables, entries)?,
        _ => {}
    }
    Ok(())
}

#[cycle(value)]
fn add_in_items<'doc>(
    variables: &mut Vec<&'doc Node<Value>>,
    items: &'doc [Node<Value>],
) -> Result<(), ValidationError>
    ensures { OnOk result (Adds (InItems items.now) (values_at variables.old.items) (values_at variables.new.items)) }
{
    for item in items {
        add_in_value(variables, item)?;
    }
    Ok(())
}

#[cycle(value)]
fn add_in_entries<'doc>(
    variables: &mut Vec<&'doc Node<Value>>,
    entries: &'doc [(Name, Node<Value>)],
) -> Result<(), ValidationError>
    ensures { OnOk result (Adds (InEntries entries.now) (values_at variables.old.items) (values_at variables.new.items)) }
{
    for (_, entry) in entries {
        add_in_value(variables, entry)?;
    }
    Ok(())
}
