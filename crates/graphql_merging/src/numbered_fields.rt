//! Fields with the numbers of their contents, and lists of them.

ghost use Rattle.std.specs.Prelude.{◌≡◌};
ghost use Rattle.graphql_field_conflicts.specs.FieldSelections.{selection_of};
ghost use Rattle.graphql_merging.specs.NumberedFields as numbered;

use graphql_documents::documents::Field;
use graphql_field_conflicts::field_selections::FieldSelection;
use graphql_nodes::{NamedType, Node};

/// A field, with the type of the set in which it is and the number of its contents. Two are compared and hashed by the text of
/// the type and by the number.
#[derive(Clone, Copy)]
#[derive_where(PartialEq, Eq, Hash)]
pub(crate) struct NumberedField<'doc> {
    pub(crate) parent_type: &'doc NamedType,
    pub(crate) content: usize,
    #[derive_where(skip)]
    pub(crate) field: &'doc Node<Field>,
}

impl<'doc> NumberedField<'doc> {
    /// The field without its number.
    pub(crate) fn selection(&self) -> FieldSelection<'doc>
        ensures { selection_of result ≡ numbered.selection_of self.now }
    {
        FieldSelection {
            parent_type: self.parent_type,
            field: self.field,
        }
    }
}

/// Fields that come together.
#[derive(Drop, PartialEq, Eq, Hash)]
pub(crate) struct FieldList<'doc> {
    pub(crate) fields: Vec<NumberedField<'doc>>,
}
