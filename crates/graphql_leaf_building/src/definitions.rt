//! Definitions of variables, input values, fields, enum values and directives.

ghost use Rattle.std.specs.Prelude.{◌≡◌, IfOk, map};
ghost use Rattle.graphql_leaf_building.specs.Definitions.{DefaultSays, DirectiveDefinitionSays, EnumValueSays, FieldDefinitionSays, InputValueSays, InputValuesSay, VariableSays, VariablesSay};

use crate::directives::build_directives;
use crate::types::{build_located_type, build_type};
use crate::values::build_value;
use graphql_documents::documents::{
    DirectiveDefinition, EnumValueDefinition, FieldDefinition, InputValueDefinition, Value,
    VariableDefinition,
};
use graphql_nodes::{DirectiveLocation, Node, ValidationError};
use graphql_trees::{
    DirectiveDefinition as DirectiveDefinitionTree, EnumValueDefinition as EnumValueTree,
    FieldDefinition as FieldDefinitionTree, InputValueDefinition as InputValueTree,
    PlacedDirectiveLocation, Value as ValueTree, VariableDefinition as VariableTree,
};
use sqlite_items::Boxed;
use std::alloc::Global;

/// The variables that the trees define, in order, each with its place. Fails only where an allocation fails.
///
/// Specification: 2.10 Variables.
pub fn build_variables(
    alloc: Global,
    trees: &[VariableTree],
) -> Result<Vec<Node<VariableDefinition>>, ValidationError>
    ensures { IfOk result (λ variables. VariablesSay trees.now variables.items) }
{
    let mut variables = Vec::new(alloc);
    for tree in trees {
        let variable = build_variable(alloc, tree)?;
        variables.push(variable)?;
    }
    Ok(variables)
}

fn build_variable(
    alloc: Global,
    tree: &VariableTree,
) -> Result<Node<VariableDefinition>, ValidationError>
    ensures { IfOk result (VariableSays tree.now) }
{
    let name = tree.variable.name.clone_in(alloc)?;
    let ty = build_located_type(alloc, &tree.type_reference)?;
    let default_value = build_default_value(alloc, &tree.default_value)?;
    let directives = build_directives(alloc, tree.directives.as_slice())?;
    let definition = VariableDefinition {
        name,
        ty,
        default_value,
        directives,
    };
    Node::new_located(alloc, definition, tree.span)
}

/// The arguments of a definition, or the fields of an input object, that the trees define, in order, each
/// with its place. Fails only where an allocation fails.
///
/// Specification: 3.6.1 Field Arguments, 3.10 Input Objects.
pub fn build_input_values(
    alloc: Global,
    trees: &[InputValueTree],
) -> Result<Vec<Node<InputValueDefinition>>, ValidationError>
    ensures { IfOk result (λ definitions. InputValuesSay trees.now definitions.items) }
{
    let mut definitions = Vec::new(alloc);
    for tree in trees {
        let definition = build_input_value(alloc, tree)?;
        definitions.push(definition)?;
    }
    Ok(definitions)
}

/// The argument of a definition, or the field of an input object, that the tree defines, with its place.
/// Fails only where an allocation fails.
///
/// Specification: 3.6.1 Field Arguments, 3.10 Input Objects.
pub fn build_input_value(
    alloc: Global,
    tree: &InputValueTree,
) -> Result<Node<InputValueDefinition>, ValidationError>
    ensures { IfOk result (InputValueSays tree.now) }
{
    let name = tree.name.clone_in(alloc)?;
    let ty = build_located_type(alloc, &tree.type_reference)?;
    let default_value = build_default_value(alloc, &tree.default_value)?;
    let directives = build_directives(alloc, tree.directives.as_slice())?;
    let definition = InputValueDefinition {
        name,
        ty,
        default_value,
        directives,
    };
    Node::new_located(alloc, definition, tree.span)
}

fn build_default_value(
    alloc: Global,
    tree: &Option<Boxed<ValueTree>>,
) -> Result<Option<Node<Value>>, ValidationError>
    ensures { IfOk result (DefaultSays tree.now) }
{
    match tree {
        Some(value) => Ok(Some(build_value(alloc, value.get())?)),
        None => Ok(None),
    }
}

/// The field of an object or an interface that the tree defines, with its place. Fails only where an
/// allocation fails.
///
/// Specification: 3.6 Objects.
pub fn build_field_definition(
    alloc: Global,
    tree: &FieldDefinitionTree,
) -> Result<Node<FieldDefinition>, ValidationError>
    ensures { IfOk result (FieldDefinitionSays tree.now) }
{
    let name = tree.name.clone_in(alloc)?;
    let arguments = build_input_values(alloc, tree.arguments.as_slice())?;
    let ty = build_type(alloc, &tree.type_reference)?;
    let directives = build_directives(alloc, tree.directives.as_slice())?;
    let definition = FieldDefinition {
        name,
        arguments,
        ty,
        directives,
    };
    Node::new_located(alloc, definition, tree.span)
}

/// The value of an enum that the tree defines, with its place. Fails only where an allocation fails.
///
/// Specification: 3.9 Enums.
pub fn build_enum_value(
    alloc: Global,
    tree: &EnumValueTree,
) -> Result<Node<EnumValueDefinition>, ValidationError>
    ensures { IfOk result (EnumValueSays tree.now) }
{
    let value = tree.name.clone_in(alloc)?;
    let directives = build_directives(alloc, tree.directives.as_slice())?;
    Node::new_located(alloc, EnumValueDefinition { value, directives }, tree.span)
}

/// The directive that the tree defines, with its place. Fails only where an allocation fails.
///
/// Specification: 3.13 Directives.
pub fn build_directive_definition(
    alloc: Global,
    tree: &DirectiveDefinitionTree,
) -> Result<Node<DirectiveDefinition>, ValidationError>
    ensures { IfOk result (DirectiveDefinitionSays tree.now) }
{
    let name = tree.name.clone_in(alloc)?;
    let arguments = build_input_values(alloc, tree.arguments.as_slice())?;
    let locations = build_locations(alloc, tree.locations.as_slice())?;
    let definition = DirectiveDefinition {
        name,
        arguments,
        repeatable: tree.repeatable,
        locations,
    };
    Node::new_located(alloc, definition, tree.span)
}

fn build_locations(
    alloc: Global,
    trees: &[PlacedDirectiveLocation],
) -> Result<Vec<DirectiveLocation>, ValidationError>
    ensures { IfOk result (λ locations. locations.items ≡ map (λ placed. placed.location) trees.now) }
{
    let mut locations = Vec::new(alloc);
    for tree in trees {
        locations.push(tree.location)?;
    }
    Ok(locations)
}
