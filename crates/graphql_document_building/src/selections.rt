//! Selection sets on their types.

ghost use Rattle.std.specs.Prelude.{◌≡◌, ◌∷◌, [], IfOk, unwrap_or};
ghost use Rattle.graphql_document_building.specs.BuildingRules.{SelectionsBuildIn};
ghost use Rattle.std.specs.Option.{option_copied};
ghost use Rattle.graphql_document_building.specs.FieldDefinitions.{IsProper, IsTypeIn, schema_of};
ghost use Rattle.graphql_document_building.specs.Selections.{FragmentSpreadSays, SelectionSays, SelectionsSay, SetSays};
ghost use Rattle.graphql_document_building.specs.Trees.{selections_in};
ghost use Rattle.graphql_documents.specs.declared.documents.executables.Selection.TheVariants as kind;
ghost use Rattle.graphql_trees.specs.declared.executable.Field.{out-Field};
ghost use Rattle.graphql_trees.specs.declared.executable.Selection.TheVariants as tree_kind;

use crate::field_definitions::FieldDefinitions;
use graphql_documents::documents::{
    ExtendedType, Field, FragmentSpread, InlineFragment, Selection, SelectionSet,
};
use graphql_leaf_building::{build_arguments, build_directives};
use graphql_nodes::{Name, NamedType, Node, ValidationError};
use graphql_trees::{
    Field as FieldTree, FragmentSpread as FragmentSpreadTree, InlineFragment as InlineFragmentTree,
    Selection as SelectionTree,
};
use sqlite_items::Boxed;
use std::alloc::Global;

/// The set on this type that the trees say. Fails only where an allocation fails.
///
/// Specification: 2.4 Selection Sets.
#[cycle(selections)]
pub(crate) fn build_selection_set(
    alloc: Global,
    definitions: &FieldDefinitions<'_>,
    ty: &NamedType,
    trees: &[SelectionTree],
) -> Result<SelectionSet, ValidationError>
    requires proper { IsProper definitions.now }
    requires builds { SelectionsBuildIn (schema_of definitions.now) ty.now trees.now }
    ensures { IfOk result (SetSays (schema_of definitions.now) ty.now trees.now) }
{
    let mut selections = Vec::with_capacity(alloc, trees.len())?;
    let own_type = definitions.of_type(ty);
    for tree in trees {
        let selection = build_selection(alloc, definitions, ty, own_type, tree)?;
        selections.push(selection)?;
    }
    let ty = ty.clone_in(alloc)?;
    Ok(SelectionSet { ty, selections })
}

#[cycle(selections)]
fn build_selection<'a>(
    alloc: Global,
    definitions: &FieldDefinitions<'a>,
    parent: &NamedType,
    parent_type: Option<&'a ExtendedType>,
    tree: &SelectionTree,
) -> Result<Selection, ValidationError>
    requires proper { IsProper definitions.now }
    requires parent_type { IsTypeIn (schema_of definitions.now) parent.now (option_copied parent_type) }
    requires builds { SelectionsBuildIn (schema_of definitions.now) parent.now (tree.now ∷ []) }
    ensures { IfOk result (SelectionSays (schema_of definitions.now) parent.now tree.now) }
{
    match tree {
        SelectionTree::Field(field) => {
            let field = build_field(alloc, definitions, parent, parent_type, field)?;
            Ok(Selection::Field(field))
        }
        SelectionTree::FragmentSpread(spread) => {
            let spread = build_fragment_spread(alloc, spread)?;
            Ok(Selection::FragmentSpread(spread))
        }
        SelectionTree::InlineFragment(fragment) => {
            let fragment = build_inline_fragment(alloc, definitions, parent, fragment)?;
            Ok(Selection::InlineFragment(fragment))
        }
    }
}

#[cycle(selections)]
fn build_field<'a>(
    alloc: Global,
    definitions: &FieldDefinitions<'a>,
    parent: &NamedType,
    parent_type: Option<&'a ExtendedType>,
    tree: &FieldTree,
) -> Result<Node<Field>, ValidationError>
    requires proper { IsProper definitions.now }
    requires parent_type { IsTypeIn (schema_of definitions.now) parent.now (option_copied parent_type) }
    requires builds { SelectionsBuildIn (schema_of definitions.now) parent.now (tree_kind.Field tree.now ∷ []) }
    ensures { IfOk result (λ field. SelectionSays (schema_of definitions.now) parent.now (tree_kind.Field tree.now) (kind.Field field)) }
{
    let definition = definitions
        .of_field(parent, parent_type, &tree.name)
        .clone()?;
    let alias = copy_of_alias(alloc, &tree.alias)?;
    let name = tree.name.clone_in(alloc)?;
    let arguments = build_arguments(alloc, tree.arguments.as_slice())?;
    let directives = build_directives(alloc, tree.directives.as_slice())?;
    let selection_set = build_set_below(
        alloc,
        definitions,
        definition.value.ty.inner_named_type(),
        tree,
    )?;
    let field = Field {
        definition,
        alias,
        name,
        arguments,
        directives,
        selection_set,
    };
    let node = Node::new_located(alloc, field, tree.span)?;
    Ok(node)
}

/// The set of a field that gives this type: an empty one where the field has none.
#[cycle(selections)]
fn build_set_below(
    alloc: Global,
    definitions: &FieldDefinitions<'_>,
    ty: &NamedType,
    field: &FieldTree,
) -> Result<SelectionSet, ValidationError>
    requires proper { IsProper definitions.now }
    requires builds { SelectionsBuildIn (schema_of definitions.now) ty.now (selections_in (out-Field field.now).selection_set) }
    ensures { IfOk result (SetSays (schema_of definitions.now) ty.now (selections_in (out-Field field.now).selection_set)) }
{
    match &field.selection_set {
        Some(set) => build_selection_set(alloc, definitions, ty, set.get().selections.as_slice()),
        None => {
            let ty = ty.clone_in(alloc)?;
            Ok(SelectionSet {
                ty,
                selections: Vec::new(alloc),
            })
        }
    }
}

#[cycle(selections)]
fn build_inline_fragment(
    alloc: Global,
    definitions: &FieldDefinitions<'_>,
    parent: &NamedType,
    tree: &InlineFragmentTree,
) -> Result<Node<InlineFragment>, ValidationError>
    requires proper { IsProper definitions.now }
    requires builds { SelectionsBuildIn (schema_of definitions.now) parent.now (tree_kind.InlineFragment tree.now ∷ []) }
    ensures { IfOk result (λ fragment. SelectionSays (schema_of definitions.now) parent.now (tree_kind.InlineFragment tree.now) (kind.InlineFragment fragment)) }
{
    let type_condition = copy_of_name(alloc, &tree.type_condition)?;
    let directives = build_directives(alloc, tree.directives.as_slice())?;
    let ty = tree.type_condition.as_ref().unwrap_or(parent);
    let selection_set = build_selection_set(
        alloc,
        definitions,
        ty,
        tree.selection_set.selections.as_slice(),
    )?;
    let fragment = InlineFragment {
        type_condition,
        directives,
        selection_set,
    };
    let node = Node::new_located(alloc, fragment, tree.span)?;
    Ok(node)
}

fn build_fragment_spread(
    alloc: Global,
    tree: &FragmentSpreadTree,
) -> Result<Node<FragmentSpread>, ValidationError>
    ensures { IfOk result (FragmentSpreadSays tree.now) }
{
    let fragment_name = tree.name.clone_in(alloc)?;
    let directives = build_directives(alloc, tree.directives.as_slice())?;
    let spread = FragmentSpread {
        fragment_name,
        directives,
    };
    Node::new_located(alloc, spread, tree.span)
}

fn copy_of_alias(
    alloc: Global,
    alias: &Option<Boxed<Name>>,
) -> Result<Option<Name>, ValidationError>
    ensures { IfOk result (λ copy. copy ≡ alias.now) }
{
    match alias {
        Some(alias) => Ok(Some(alias.get().clone_in(alloc)?)),
        None => Ok(None),
    }
}

pub(crate) fn copy_of_name(
    alloc: Global,
    name: &Option<Name>,
) -> Result<Option<Name>, ValidationError>
    ensures { IfOk result (λ copy. copy ≡ name.now) }
{
    match name {
        Some(name) => Ok(Some(name.clone_in(alloc)?)),
        None => Ok(None),
    }
}
