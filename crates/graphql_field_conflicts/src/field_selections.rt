//! Fields, each with the type of the set in which it is.

ghost use Rattle.std.specs.Prelude.{◌≡◌, IfOk};

use graphql_coordinates::TypeAttributeCoordinate;
use graphql_documents::documents::Field;
use graphql_nodes::{NamedType, Node, ValidationError};
use std::alloc::Global;

/// A field, with the type of the set in which it is. Two are compared and hashed by the text of the type and
/// by what the fields hold, wherever these are.
///
/// Specification: 5.3.2 Field Selection Merging.
#[derive(Clone, Copy, Debug, PartialEq, Eq, Hash)]
pub struct FieldSelection<'a> {
    pub parent_type: &'a NamedType,
    pub field: &'a Node<Field>,
}

impl<'a> FieldSelection<'a> {
    /// The coordinate of the field: its name, on the type of the set. The only error is that memory is refused.
    pub fn coordinate(&self, alloc: Global) -> Result<TypeAttributeCoordinate, ValidationError>
        ensures { IfOk result (λ c. c ≡ record { ty = self.now.parent_type.now; attribute = self.now.field.now.value.value.name }) }
    {
        TypeAttributeCoordinate::new(alloc, self.parent_type, &self.field.value.name)
    }
}
