//! Arguments and directives.

ghost use Rattle.std.specs.Prelude.{IfOk};
ghost use Rattle.graphql_leaf_building.specs.Directives.{ArgumentSays, ArgumentsSay, DirectiveSays, DirectivesSay};

use crate::values::build_value;
use graphql_documents::documents::{Argument, Directive};
use graphql_nodes::{Node, ValidationError};
use graphql_trees::{Argument as ArgumentTree, Directive as DirectiveTree};
use std::alloc::Global;

/// The arguments that the trees write, in order, each with its place. Fails only where an allocation fails.
///
/// Specification: 2.6 Arguments.
pub fn build_arguments(
    alloc: Global,
    trees: &[ArgumentTree],
) -> Result<Vec<Node<Argument>>, ValidationError>
    ensures { IfOk result (λ arguments. ArgumentsSay trees.now arguments.items) }
{
    let mut arguments = Vec::new(alloc);
    for tree in trees {
        let argument = build_argument(alloc, tree)?;
        arguments.push(argument)?;
    }
    Ok(arguments)
}

fn build_argument(alloc: Global, tree: &ArgumentTree) -> Result<Node<Argument>, ValidationError>
    ensures { IfOk result (ArgumentSays tree.now) }
{
    let name = tree.name.clone_in(alloc)?;
    let value = build_value(alloc, &tree.value)?;
    Node::new_located(alloc, Argument { name, value }, tree.span)
}

/// The applications of directives that the trees write, in order, each with its place. Fails only where an
/// allocation fails.
///
/// Specification: 2.12 Directives.
pub fn build_directives(
    alloc: Global,
    trees: &[DirectiveTree],
) -> Result<Vec<Node<Directive>>, ValidationError>
    ensures { IfOk result (λ directives. DirectivesSay trees.now directives.items) }
{
    let mut directives = Vec::new(alloc);
    for tree in trees {
        let directive = build_directive(alloc, tree)?;
        directives.push(directive)?;
    }
    Ok(directives)
}

fn build_directive(alloc: Global, tree: &DirectiveTree) -> Result<Node<Directive>, ValidationError>
    ensures { IfOk result (DirectiveSays tree.now) }
{
    let name = tree.name.clone_in(alloc)?;
    let arguments = build_arguments(alloc, tree.arguments.as_slice())?;
    Node::new_located(alloc, Directive { name, arguments }, tree.span)
}
