//! The places where values of input types can be given.

use graphql_documents::documents::{
    Component, DirectiveDefinition, ExtendedType, FieldDefinition, InputObjectType,
    InputValueDefinition, Schema,
};
use graphql_nodes::{NamedType, Node, OperationType, ValidationError};
use graphql_schema_parts::{FieldMap, fields_of, is_executable_location};
use std::alloc::Global;

/// A place where a value is given. Types are known by their indices in the map of types.
#[derive(Clone, Copy)]
pub enum InputSite<'a> {
    /// An argument of a field of the type at this index.
    Argument {
        place: usize,
        field: &'a Component<FieldDefinition>,
        argument: &'a Node<InputValueDefinition>,
    },
    DirectiveArgument {
        directive: &'a Node<DirectiveDefinition>,
        argument: &'a Node<InputValueDefinition>,
    },
    /// A field of the input object at this index.
    Entry {
        object: usize,
        field: &'a Node<InputValueDefinition>,
    },
    /// An object that is given for the custom scalar at this index: a variable of any input type can be in it, so one of the type
    /// at the other index.
    InScalar {
        scalar: usize,
        input: usize,
    },
}

/// For each input type, the first place that was found for its values.
#[derive(Drop)]
pub(crate) struct InputSites<'a> {
    sites: Vec<Option<InputSite<'a>>>,
}

impl<'a> InputSites<'a> {
    /// Finds the places of a schema, whose selections can be on the types at these indices, in this order.
    pub fn new(
        alloc: Global,
        schema: &'a Schema,
        places: &[usize],
    ) -> Result<InputSites<'a>, ValidationError> {
        let mut search = InputSearch {
            schema,
            sites: Vec::new(alloc),
            order: Vec::new(alloc),
        };
        search.begin()?;
        search.reach_arguments(places)?;
        search.reach_directive_arguments()?;
        search.go_on()?;
        search.reach_others()?;
        let InputSearch { sites, .. } = search;
        Ok(InputSites { sites })
    }

    /// The place for values of the type at this index.
    pub fn site_of(&self, index: usize) -> Option<InputSite<'a>> {
        *self.sites.get(index)?
    }
}

#[derive(Drop)]
struct InputSearch<'a> {
    schema: &'a Schema,
    sites: Vec<Option<InputSite<'a>>>,
    /// The types that were reached, in order.
    order: Vec<usize>,
}

impl<'a> InputSearch<'a> {
    fn begin(&mut self) -> Result<(), ValidationError> {
        for _ in &self.schema.types {
            self.sites.push(None)?;
        }
        Ok(())
    }

    /// Reaches the types of the arguments of the fields of these types.
    fn reach_arguments(&mut self, places: &[usize]) -> Result<(), ValidationError> {
        for place in places {
            self.reach_from_place(*place)?;
        }
        Ok(())
    }

    fn reach_from_place(&mut self, place: usize) -> Result<(), ValidationError> {
        let Some((name, definition)) = self.schema.types.get_index(place) else {
            return Ok(());
        };
        if let Some(fields) = fields_of(definition) {
            self.reach_from_fields(place, fields)?;
        }
        if self.schema.root_operation(OperationType::Query) == Some(name) {
            self.reach_from_field(place, &self.schema.meta_fields.type_by_name)?;
        }
        Ok(())
    }

    fn reach_from_fields(
        &mut self,
        place: usize,
        fields: &'a FieldMap,
    ) -> Result<(), ValidationError> {
        for (_, field) in fields {
            self.reach_from_field(place, field)?;
        }
        Ok(())
    }

    fn reach_from_field(
        &mut self,
        place: usize,
        field: &'a Component<FieldDefinition>,
    ) -> Result<(), ValidationError> {
        for argument in &field.node.value.arguments {
            let site = InputSite::Argument {
                place,
                field,
                argument,
            };
            self.reach(argument.value.ty.value.inner_named_type(), site)?;
        }
        Ok(())
    }

    /// Reaches the types of the arguments of directives that documents can apply.
    fn reach_directive_arguments(&mut self) -> Result<(), ValidationError> {
        for (_, directive) in &self.schema.directive_definitions {
            if directive
                .value
                .locations
                .iter()
                .any(|l| is_executable_location(*l))
            {
                self.reach_from_directive(directive)?;
            }
        }
        Ok(())
    }

    fn reach_from_directive(
        &mut self,
        directive: &'a Node<DirectiveDefinition>,
    ) -> Result<(), ValidationError> {
        for argument in &directive.value.arguments {
            let site = InputSite::DirectiveArgument {
                directive,
                argument,
            };
            self.reach(argument.value.ty.value.inner_named_type(), site)?;
        }
        Ok(())
    }

    /// Reaches the types of the fields of input objects: there are no more input objects than types.
    fn go_on(&mut self) -> Result<(), ValidationError> {
        for position in 0..self.schema.types.len() {
            let Some(index) = self.order.get(position) else {
                break;
            };
            let index = *index;
            self.reach_from_type(index)?;
        }
        Ok(())
    }

    fn reach_from_type(&mut self, index: usize) -> Result<(), ValidationError> {
        match self.schema.types.get_index(index) {
            Some((_, ExtendedType::InputObject(object))) => {
                self.reach_from_object(index, &object.value)
            }
            _ => Ok(()),
        }
    }

    fn reach_from_object(
        &mut self,
        index: usize,
        object: &'a InputObjectType,
    ) -> Result<(), ValidationError> {
        for (_, field) in &object.fields {
            let field = &field.node;
            let site = InputSite::Entry {
                object: index,
                field,
            };
            self.reach(field.value.ty.value.inner_named_type(), site)?;
        }
        Ok(())
    }

    /// Reaches all other input types, if a custom scalar was reached.
    fn reach_others(&mut self) -> Result<(), ValidationError> {
        let Some(scalar) = self.first_custom_scalar() else {
            return Ok(());
        };
        for (input, (name, definition)) in self.schema.types.iter().enumerate() {
            if definition.is_input_type() {
                self.reach(name, InputSite::InScalar { scalar, input })?;
            }
        }
        Ok(())
    }

    fn first_custom_scalar(&self) -> Option<usize> {
        for index in &self.order {
            let (_, definition) = self.schema.types.get_index(*index)?;
            if is_custom_scalar(definition) {
                return Some(*index);
            }
        }
        None
    }

    /// Reaches a type at this place, if it was not reached before.
    fn reach(&mut self, name: &NamedType, site: InputSite<'a>) -> Result<(), ValidationError> {
        let Some(index) = self.schema.types.get_index_of(name) else {
            return Ok(());
        };
        let Some(known) = self.sites.get_mut(index) else {
            return Ok(());
        };
        if known.is_none() {
            *known = Some(site);
            self.order.push(index)?;
        }
        Ok(())
    }
}

/// Whether values of the type are not looked into.
///
/// Specification: 3.5 Scalars.
fn is_custom_scalar(definition: &ExtendedType) -> bool {
    matches!(definition, ExtendedType::Scalar(_)) && !definition.is_built_in()
}
