//! Values.

ghost use Rattle.std.specs.Prelude.{◌≡◌, IfOk};
ghost use Rattle.graphql_leaf_building.specs.Values.{ContentsSay, FieldsSay, ItemsSay, ValueSays, value_place};

use graphql_documents::documents::Value;
use graphql_nodes::{Name, Node, SourceSpan, ValidationError};
use graphql_numbers::{FloatValue, IntValue};
use graphql_trees::{ObjectField, Value as ValueTree};
use std::alloc::Global;
use std::sync::Arc;

/// The value that the tree writes, with its place in the text. Fails only where an allocation fails.
///
/// Specification: 2.9 Input Values.
#[cycle(values)]
pub fn build_value(alloc: Global, tree: &ValueTree) -> Result<Node<Value>, ValidationError>
    ensures { IfOk result (ValueSays tree.now) }
{
    let contents = contents(alloc, tree)?;
    Ok(Node {
        value: Arc::new(alloc, contents)?,
        location: place(tree),
    })
}

#[cycle(values)]
fn contents(alloc: Global, tree: &ValueTree) -> Result<Value, ValidationError>
    ensures { IfOk result (ContentsSay tree.now) }
{
    match tree {
        ValueTree::Variable(variable) => Ok(Value::Variable(variable.name.clone_in(alloc)?)),
        ValueTree::Int(number, _span) => Ok(Value::Int(integer(alloc, number)?)),
        ValueTree::Float(number, _span) => Ok(Value::Float(float(alloc, number)?)),
        ValueTree::String(literal) => {
            let text = String::from_str(alloc, literal.value.as_str())?;
            Ok(Value::String(text))
        }
        ValueTree::Boolean(truth, _span) => Ok(Value::Boolean(*truth)),
        ValueTree::Null(_span) => Ok(Value::Null),
        ValueTree::Enum(name) => Ok(Value::Enum(name.clone_in(alloc)?)),
        ValueTree::List(items, _span) => Ok(Value::List(items_of_list(alloc, items.as_slice())?)),
        ValueTree::Object(fields, _span) => Ok(Value::Object(fields_of_object(
            alloc,
            fields.as_slice(),
        )?)),
    }
}

#[cycle(values)]
fn items_of_list(alloc: Global, trees: &[ValueTree]) -> Result<Vec<Node<Value>>, ValidationError>
    ensures { IfOk result (λ items. ItemsSay trees.now items.items) }
{
    let mut items = Vec::new(alloc);
    for tree in trees {
        let item = build_value(alloc, tree)?;
        items.push(item)?;
    }
    Ok(items)
}

#[cycle(values)]
fn fields_of_object(
    alloc: Global,
    trees: &[ObjectField],
) -> Result<Vec<(Name, Node<Value>)>, ValidationError>
    ensures { IfOk result (λ fields. FieldsSay trees.now fields.items) }
{
    let mut fields = Vec::new(alloc);
    for tree in trees {
        let name = tree.name.clone_in(alloc)?;
        let field = build_value(alloc, &tree.value)?;
        fields.push((name, field))?;
    }
    Ok(fields)
}

fn place(tree: &ValueTree) -> Option<SourceSpan>
    ensures { result ≡ value_place tree.now }
{
    match tree {
        ValueTree::Variable(variable) => Some(variable.span),
        ValueTree::String(literal) => Some(literal.span),
        ValueTree::Enum(name) => name.location(),
        ValueTree::Int(_, span)
        | ValueTree::Float(_, span)
        | ValueTree::Boolean(_, span)
        | ValueTree::Null(span)
        | ValueTree::List(_, span)
        | ValueTree::Object(_, span) => Some(*span),
    }
}

fn float(alloc: Global, number: &FloatValue) -> Result<FloatValue, ValidationError>
    ensures { IfOk result (λ copy. copy ≡ number.now) }
{
    let text = String::from_str(alloc, number.as_str())?;
    Ok(FloatValue::new(text).unwrap())
}

fn integer(alloc: Global, number: &IntValue) -> Result<IntValue, ValidationError>
    ensures { IfOk result (λ copy. copy ≡ number.now) }
{
    let text = String::from_str(alloc, number.as_str())?;
    Ok(IntValue::new(text).unwrap())
}
