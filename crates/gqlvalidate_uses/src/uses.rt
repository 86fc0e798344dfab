//! What a document uses of a schema.

use graphql_documents::documents::{ExtendedType, Schema};
use graphql_nodes::NamedType;
use std::alloc::{AllocError, Global};
use std::collections::BTreeSet;

/// Something of a schema that a document uses.
#[derive(Clone, Copy, PartialEq, Eq, PartialOrd, Ord)]
pub(crate) enum Use<'a> {
    /// An operation of the kind that has this name.
    Operation(&'a str),
    /// A type: of a selection set, of a field, or of a literal.
    Type(&'a str),
    /// A type that a value of a variable may be of, or a part of such a value.
    InputType(&'a str),
    /// A field that is selected: its type and its name.
    Field(&'a str, &'a str),
    /// An argument that a field gets: also its name.
    Argument(&'a str, &'a str, &'a str),
    /// An input field or enum value of a literal: its type and its name.
    Attribute(&'a str, &'a str),
    /// A directive.
    Directive(&'a str),
    /// An argument that a directive gets.
    DirectiveArgument(&'a str, &'a str),
}

/// What a document uses of a schema against which it is built.
///
/// Specification: 2 Language.
#[derive(Drop)]
pub(crate) struct Uses<'a> {
    pub(crate) schema: &'a Schema,
    uses: BTreeSet<Use<'a>>,
}

impl<'a> Uses<'a> {
    /// A document uses nothing yet of this schema.
    pub(crate) fn new(alloc: Global, schema: &'a Schema) -> Uses<'a> {
        Uses {
            schema,
            uses: BTreeSet::new(alloc),
        }
    }

    /// Whether the document uses this.
    pub(crate) fn has(&self, used: Use<'a>) -> bool {
        self.uses.contains(&used)
    }

    /// Adds something that the document uses. The answer is whether it is new.
    pub(crate) fn add(&mut self, used: Use<'a>) -> Result<bool, AllocError> {
        Ok(self.uses.insert(used)?)
    }

    /// Adds the type of a variable, and the types of all input fields that a value of it may have, at any depth.
    pub(crate) fn add_input_type(
        &mut self,
        alloc: Global,
        ty: &'a NamedType,
    ) -> Result<(), AllocError> {
        let mut types = Vec::new(alloc);
        self.add_to(&mut types, ty)?;
        // Each type is added to the list once.
        for _ in 0..self.schema.types.len() {
            let Some(ty) = types.pop() else {
                break;
            };
            self.add_types_of_fields(&mut types, ty)?;
        }
        Ok(())
    }

    /// Adds the input type, here and to the list, unless the document uses it already.
    fn add_to(
        &mut self,
        types: &mut Vec<&'a NamedType>,
        ty: &'a NamedType,
    ) -> Result<(), AllocError> {
        if self.add(Use::InputType(ty.as_str()))? {
            types.push(ty)?;
        }
        Ok(())
    }

    fn add_types_of_fields(
        &mut self,
        types: &mut Vec<&'a NamedType>,
        ty: &NamedType,
    ) -> Result<(), AllocError> {
        let schema: &'a Schema = self.schema;
        if let Some(ExtendedType::InputObject(object)) = schema.types.get(ty) {
            for field in object.value.fields.values() {
                self.add_to(types, field.node.value.ty.value.inner_named_type())?;
            }
        }
        Ok(())
    }
}
