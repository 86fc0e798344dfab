//! Selection sets that are built for their types.

ghost use Rattle.std.specs.Prelude.{◌↔◌, IsTrue};
ghost use Rattle.graphql_built.specs.BuiltSelections.{HasDefinitionOfType, HasSetOfOutputType, InlineFragmentIsBuilt, SelectionIsBuilt};
ghost use Rattle.graphql_documents.specs.Built.{FieldIsBuilt, SetsAreBuilt};
ghost use Rattle.graphql_documents.specs.Schemas.{NamesKind, is_output_type};

use graphql_documents::documents::{Field, InlineFragment, Schema, Selection, SelectionSet};
use graphql_nodes::NamedType;

/// Whether the set, and each set that is written in it, is built for its type.
#[cycle(selection)]
pub(super) fn sets_are_built(schema: &Schema, set: &SelectionSet) -> bool
    ensures { IsTrue result ↔ SetsAreBuilt schema.now set.now }
{
    for selection in &set.selections {
        if !selection_is_built(schema, &set.ty, selection) {
            return false;
        }
    }
    true
}

/// Whether a selection of a set of this type is built, with the sets that are written in it.
#[cycle(selection)]
fn selection_is_built(schema: &Schema, parent: &NamedType, selection: &Selection) -> bool
    ensures { IsTrue result ↔ SelectionIsBuilt schema.now parent.now selection.now }
{
    match selection {
        Selection::Field(field) => {
            field_is_built(schema, parent, &field.value)
                && sets_are_built(schema, &field.value.selection_set)
        }
        Selection::FragmentSpread(_) => true,
        Selection::InlineFragment(fragment) => {
            inline_fragment_is_built(parent, &fragment.value)
                && sets_are_built(schema, &fragment.value.selection_set)
        }
    }
}

/// Whether a field has the definition that the type gives it, of an output type, and a set of that type.
fn field_is_built(schema: &Schema, parent: &NamedType, field: &Field) -> bool
    ensures { IsTrue result ↔ FieldIsBuilt schema.now parent.now field.now }
{
    has_definition_of_type(schema, parent, field) && has_set_of_output_type(schema, field)
}

/// Whether a field has the definition that the type gives it, compared by contents.
fn has_definition_of_type(schema: &Schema, parent: &NamedType, field: &Field) -> bool
    ensures { IsTrue result ↔ HasDefinitionOfType schema.now parent.now field.now }
{
    match schema.type_field(parent, &field.name) {
        Ok(definition) => field.definition.value == definition.node.value,
        Err(_) => false,
    }
}

/// Whether a field is of an output type, and its set of that type.
fn has_set_of_output_type(schema: &Schema, field: &Field) -> bool
    ensures { IsTrue result ↔ HasSetOfOutputType schema.now field.now }
{
    let type_name = field.definition.value.ty.inner_named_type();
    field.selection_set.ty == *type_name && names_output_type(schema, type_name)
}

/// Whether the name is that of an output type.
fn names_output_type(schema: &Schema, type_name: &NamedType) -> bool
    ensures { IsTrue result ↔ NamesKind schema.now is_output_type type_name.now }
{
    match schema.types.get(type_name) {
        Some(definition) => definition.is_output_type(),
        None => false,
    }
}

/// Whether the set of an inline fragment has the type of its condition, or of the set around it where
/// it has none.
fn inline_fragment_is_built(parent: &NamedType, fragment: &InlineFragment) -> bool
    ensures { IsTrue result ↔ InlineFragmentIsBuilt parent.now fragment.now }
{
    let type_name = fragment.type_condition.as_ref().unwrap_or(parent);
    fragment.selection_set.ty == *type_name
}
