//! What is written in a selection, but for the selections in its set.

ghost use Rattle.graphql_contents.specs.Written.{IsWrittenIn, IsWrittenInField, IsWrittenInInline};

use graphql_documents::documents::{
    Argument, Directive, Field, FieldDefinition, FragmentSpread, InlineFragment, Selection,
};
use graphql_nodes::{Name, NamedType, Node};

/// What is written in a selection, one level deep.
#[derive(Clone, Copy, Debug, PartialEq, Eq, Hash)]
pub(crate) enum Written<'doc> {
    Field(WrittenField<'doc>),
    FragmentSpread(&'doc Node<FragmentSpread>),
    InlineFragment(WrittenInlineFragment<'doc>),
}

/// What is written in a field, with the definition that it was built from and the type of its set.
#[derive(Clone, Copy, Debug, PartialEq, Eq)]
#[derive_where(Hash)]
pub(crate) struct WrittenField<'doc> {
    alias: &'doc Option<Name>,
    name: &'doc Name,
    arguments: &'doc Vec<Node<Argument>>,
    directives: &'doc Vec<Node<Directive>>,
    ty: &'doc NamedType,
    // Fields that are alike but for their definitions are rare, and a definition is longer than what is written.
    #[derive_where(skip(Hash))]
    definition: &'doc Node<FieldDefinition>,
}

/// What is written in an inline fragment, with the type of its set.
#[derive(Clone, Copy, Debug, PartialEq, Eq, Hash)]
pub(crate) struct WrittenInlineFragment<'doc> {
    type_condition: &'doc Option<NamedType>,
    directives: &'doc Vec<Node<Directive>>,
    ty: &'doc NamedType,
}

impl<'doc> Written<'doc> {
    /// What is written in this selection.
    pub(crate) fn of(selection: &'doc Selection) -> Written<'doc>
        ensures { IsWrittenIn selection.now result }
    {
        match selection {
            Selection::Field(field) => Written::Field(WrittenField::of(&field.value)),
            Selection::FragmentSpread(spread) => Written::FragmentSpread(spread),
            Selection::InlineFragment(inline) => {
                Written::InlineFragment(WrittenInlineFragment::of(&inline.value))
            }
        }
    }
}

impl<'doc> WrittenField<'doc> {
    fn of(field: &'doc Field) -> WrittenField<'doc>
        ensures { IsWrittenInField field.now result }
    {
        WrittenField {
            alias: &field.alias,
            name: &field.name,
            arguments: &field.arguments,
            directives: &field.directives,
            ty: &field.selection_set.ty,
            definition: &field.definition,
        }
    }
}

impl<'doc> WrittenInlineFragment<'doc> {
    fn of(inline: &'doc InlineFragment) -> WrittenInlineFragment<'doc>
        ensures { IsWrittenInInline inline.now result }
    {
        WrittenInlineFragment {
            type_condition: &inline.type_condition,
            directives: &inline.directives,
            ty: &inline.selection_set.ty,
        }
    }
}
