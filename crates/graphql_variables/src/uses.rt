//! The variables that are in values, arguments and directives.

ghost use Rattle.std.specs.Prelude.{◌≡◌, ◌++◌, IfOk, OnOk};
ghost use Rattle.graphql_nodes.specs.Names.{NameText};
ghost use Rattle.graphql_documents.specs.Values.{StandsIn, VariablesIn, VariablesInEntries, VariablesInItems};
ghost use Rattle.graphql_documents.specs.VariableUses.{StandsInArguments, StandsInDirectives};
ghost use Rattle.graphql_variables.specs.Uses.{AddsNames, NamesAlso, names_of};

use graphql_documents::documents::{Argument, Directive, Value};
use graphql_nodes::{Name, Node, ValidationError};
use std::alloc::Global;

/// The variables in a value at any depth, in order, each as often as it is there. The only error is a failed
/// allocation.
///
/// Specification: 2.10 Variables.
pub fn variables_in_value(alloc: Global, value: &Value) -> Result<Vec<&Name>, ValidationError>
    ensures { IfOk result (λ names. VariablesIn value.now (names_of names.items)) }
{
    let mut names = Vec::new(alloc);
    add_variables(&mut names, value)?;
    Ok(names)
}

/// Adds the variables in a value.
#[cycle(value)]
fn add_variables<'doc>(
    names: &mut Vec<&'doc Name>,
    value: &'doc Value,
) -> Result<(), ValidationError>
    ensures { OnOk result (AddsNames (VariablesIn value.now) names.old.items names.new.items) }
{
    match value {
        Value::Variable(name) => names.push(name)?,
        Value::List(items) => add_in_items(names, items)?,
        Value::Object(entries) => add_in_entries(names, entries)?,
        _ => {}
    }
    Ok(())
}

#[cycle(value)]
fn add_in_items<'doc>(
    names: &mut Vec<&'doc Name>,
    items: &'doc [Node<Value>],
) -> Result<(), ValidationError>
    ensures { OnOk result (AddsNames (VariablesInItems items.now) names.old.items names.new.items) }
{
    for item in items {
        add_variables(names, &item.value)?;
    }
    Ok(())
}

#[cycle(value)]
fn add_in_entries<'doc>(
    names: &mut Vec<&'doc Name>,
    entries: &'doc [(Name, Node<Value>)],
) -> Result<(), ValidationError>
    ensures { OnOk result (AddsNames (VariablesInEntries entries.now) names.old.items names.new.items) }
{
    for (_, entry) in entries {
        add_variables(names, &entry.value)?;
    }
    Ok(())
}

/// Adds the variables in the values of arguments.
pub(super) fn add_in_arguments<'doc>(
    names: &mut Vec<&'doc Name>,
    arguments: &'doc [Node<Argument>],
) -> Result<(), ValidationError>
    ensures { OnOk result (NamesAlso (λ name. StandsInArguments name arguments.now) names.old.items names.new.items) }
{
    for argument in arguments {
        add_variables(names, &argument.value.value.value)?;
    }
    Ok(())
}

/// Adds the variables in the arguments of directives.
pub(super) fn add_in_directives<'doc>(
    names: &mut Vec<&'doc Name>,
    directives: &'doc [Node<Directive>],
) -> Result<(), ValidationError>
    ensures { OnOk result (NamesAlso (λ name. StandsInDirectives name directives.now) names.old.items names.new.items) }
{
    for directive in directives {
        add_in_arguments(names, &directive.value.arguments)?;
    }
    Ok(())
}
