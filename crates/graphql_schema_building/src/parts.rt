//! What types are made of, part by part.

ghost use Rattle.std.specs.Prelude.{◌≡◌, ◌++◌, ◌∷◌, [], List, OnOk, map};
ghost use Rattle.graphql_leaf_building.specs.Directives.{DirectiveSays};
ghost use Rattle.graphql_leaf_building.specs.Definitions.{EnumValueSays, FieldDefinitionSays, InputValueSays};
ghost use Rattle.graphql_nodes.specs.Names.{AreDistinct, NameText};
ghost use Rattle.graphql_trees.specs.declared.directives.Directive as directive_tree;
ghost use Rattle.graphql_trees.specs.declared.type_system.FieldDefinition as field_tree;
ghost use Rattle.graphql_trees.specs.declared.type_system.InputValueDefinition as input_value_tree;
ghost use Rattle.graphql_trees.specs.declared.type_system.EnumValueDefinition as enum_value_tree;
ghost use Rattle.graphql_schema_building.specs.Parts.{ComponentsSay, EntriesSay, Originated, names_said, written_names};

use graphql_documents::documents::{
    Component, ComponentName, ComponentOrigin, Directive, EnumValueDefinition, FieldDefinition,
    InputValueDefinition,
};
use graphql_hash_seeds::HashSeed;
use graphql_leaf_building::{
    build_directives, build_enum_value, build_field_definition, build_input_value,
};
use graphql_nodes::{Name, Node, ValidationError};
use graphql_trees::{
    Directive as DirectiveTree, EnumValueDefinition as EnumValueTree,
    FieldDefinition as FieldDefinitionTree, InputValueDefinition as InputValueTree,
};
use indexmap::{IndexMap, IndexSet};
use std::alloc::Global;

/// Adds the directives of a part, each with the origin of the part. The only error is a failed allocation.
///
/// Specification: 3.4.3 Type Extensions.
pub fn add_directives(
    directives: &mut Vec<Component<Directive>>,
    alloc: Global,
    origin: ComponentOrigin,
    trees: &[DirectiveTree],
) -> Result<(), ValidationError>
    ensures { OnOk result ((written : List (Originated directive_tree.Directive)) → ComponentsSay DirectiveSays written directives.old.items →
        ComponentsSay DirectiveSays (written ++ map (λ x. (origin, x)) trees.now) directives.new.items) }
{
    let nodes = build_directives(alloc, trees)?;
    push_directives(directives, origin, nodes)
}

fn push_directives(
    directives: &mut Vec<Component<Directive>>,
    origin: ComponentOrigin,
    nodes: Vec<Node<Directive>>,
) -> Result<(), ValidationError>
    ensures { OnOk result (directives.new.items ≡ directives.old.items ++ map (λ node. record { origin = origin; node = node }) nodes.items) }
{
    for node in nodes {
        directives.push(Component { origin, node })?;
    }
    Ok(())
}

/// Adds the fields of a part, each with the origin of the part, under its name. None is there already. The
/// only error is a failed allocation.
///
/// Specification: 3.6 Objects; 3.7 Interfaces.
pub fn add_fields(
    fields: &mut IndexMap<Name, Component<FieldDefinition>, HashSeed>,
    alloc: Global,
    origin: ComponentOrigin,
    trees: &[FieldDefinitionTree],
) -> Result<(), ValidationError>
    ensures { OnOk result ((written : List (Originated field_tree.FieldDefinition)) → AreDistinct (written_names (λ x. x.name) (written ++ map (λ x. (origin, x)) trees.now)) →
        EntriesSay (λ x. x.name) FieldDefinitionSays written fields.old.entries → EntriesSay (λ x. x.name) FieldDefinitionSays (written ++ map (λ x. (origin, x)) trees.now) fields.new.entries) }
{
    for tree in trees {
        add_field(fields, alloc, origin, tree)?;
    }
    Ok(())
}

fn add_field(
    fields: &mut IndexMap<Name, Component<FieldDefinition>, HashSeed>,
    alloc: Global,
    origin: ComponentOrigin,
    tree: &FieldDefinitionTree,
) -> Result<(), ValidationError>
    ensures { OnOk result ((written : List (Originated field_tree.FieldDefinition)) → AreDistinct (written_names (λ x. x.name) (written ++ (origin, tree.now) ∷ [])) →
        EntriesSay (λ x. x.name) FieldDefinitionSays written fields.old.entries → EntriesSay (λ x. x.name) FieldDefinitionSays (written ++ (origin, tree.now) ∷ []) fields.new.entries) }
{
    let node = build_field_definition(alloc, tree)?;
    let name = tree.name.clone_in(alloc)?;
    fields.insert(name, Component { origin, node })?;
    Ok(())
}

/// Adds the fields of an input object of a part, each with the origin of the part, under its name. None is there already. The
/// only error is a failed allocation.
///
/// Specification: 3.10 Input Objects.
pub fn add_input_fields(
    input_fields: &mut IndexMap<Name, Component<InputValueDefinition>, HashSeed>,
    alloc: Global,
    origin: ComponentOrigin,
    trees: &[InputValueTree],
) -> Result<(), ValidationError>
    ensures { OnOk result ((written : List (Originated input_value_tree.InputValueDefinition)) → AreDistinct (written_names (λ x. x.name) (written ++ map (λ x. (origin, x)) trees.now)) →
        EntriesSay (λ x. x.name) InputValueSays written input_fields.old.entries → EntriesSay (λ x. x.name) InputValueSays (written ++ map (λ x. (origin, x)) trees.now) input_fields.new.entries) }
{
    for tree in trees {
        add_input_field(input_fields, alloc, origin, tree)?;
    }
    Ok(())
}

fn add_input_field(
    input_fields: &mut IndexMap<Name, Component<InputValueDefinition>, HashSeed>,
    alloc: Global,
    origin: ComponentOrigin,
    tree: &InputValueTree,
) -> Result<(), ValidationError>
    ensures { OnOk result ((written : List (Originated input_value_tree.InputValueDefinition)) → AreDistinct (written_names (λ x. x.name) (written ++ (origin, tree.now) ∷ [])) →
        EntriesSay (λ x. x.name) InputValueSays written input_fields.old.entries → EntriesSay (λ x. x.name) InputValueSays (written ++ (origin, tree.now) ∷ []) input_fields.new.entries) }
{
    let node = build_input_value(alloc, tree)?;
    let name = tree.name.clone_in(alloc)?;
    input_fields.insert(name, Component { origin, node })?;
    Ok(())
}

/// Adds the values of an enum of a part, each with the origin of the part, under its name. None is there already. The
/// only error is a failed allocation.
///
/// Specification: 3.9 Enums.
pub fn add_values(
    values: &mut IndexMap<Name, Component<EnumValueDefinition>, HashSeed>,
    alloc: Global,
    origin: ComponentOrigin,
    trees: &[EnumValueTree],
) -> Result<(), ValidationError>
    ensures { OnOk result ((written : List (Originated enum_value_tree.EnumValueDefinition)) → AreDistinct (written_names (λ x. x.name) (written ++ map (λ x. (origin, x)) trees.now)) →
        EntriesSay (λ x. x.name) EnumValueSays written values.old.entries → EntriesSay (λ x. x.name) EnumValueSays (written ++ map (λ x. (origin, x)) trees.now) values.new.entries) }
{
    for tree in trees {
        add_value(values, alloc, origin, tree)?;
    }
    Ok(())
}

fn add_value(
    values: &mut IndexMap<Name, Component<EnumValueDefinition>, HashSeed>,
    alloc: Global,
    origin: ComponentOrigin,
    tree: &EnumValueTree,
) -> Result<(), ValidationError>
    ensures { OnOk result ((written : List (Originated enum_value_tree.EnumValueDefinition)) → AreDistinct (written_names (λ x. x.name) (written ++ (origin, tree.now) ∷ [])) →
        EntriesSay (λ x. x.name) EnumValueSays written values.old.entries → EntriesSay (λ x. x.name) EnumValueSays (written ++ (origin, tree.now) ∷ []) values.new.entries) }
{
    let node = build_enum_value(alloc, tree)?;
    let name = tree.name.clone_in(alloc)?;
    values.insert(name, Component { origin, node })?;
    Ok(())
}

/// Adds the names of a part, each with the origin of the part. None is there already. The only error is a failed
/// allocation.
///
/// Specification: 3.6 Objects; 3.7 Interfaces; 3.8 Unions.
pub fn add_names(
    names: &mut IndexSet<ComponentName, HashSeed>,
    alloc: Global,
    origin: ComponentOrigin,
    trees: &[Name],
) -> Result<(), ValidationError>
    ensures { OnOk result ((written : List (Originated NameText)) → AreDistinct (written_names (λ x. x) (written ++ map (λ x. (origin, x)) trees.now)) →
        names.old.keys ≡ names_said written → names.new.keys ≡ names_said (written ++ map (λ x. (origin, x)) trees.now)) }
{
    for tree in trees {
        add_name(names, alloc, origin, tree)?;
    }
    Ok(())
}

fn add_name(
    names: &mut IndexSet<ComponentName, HashSeed>,
    alloc: Global,
    origin: ComponentOrigin,
    tree: &Name,
) -> Result<(), ValidationError>
    ensures { OnOk result ((written : List (Originated NameText)) → AreDistinct (written_names (λ x. x) (written ++ (origin, tree.now) ∷ [])) →
        names.old.keys ≡ names_said written → names.new.keys ≡ names_said (written ++ (origin, tree.now) ∷ [])) }
{
    let name = tree.clone_in(alloc)?;
    names.insert(ComponentName { origin, name })?;
    Ok(())
}
