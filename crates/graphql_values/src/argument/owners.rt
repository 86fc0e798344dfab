ghost use Rattle.std.specs.Prelude.{◌≡◌, IfOk};
ghost use Rattle.graphql_values.specs.GivenArguments.{AreOfDirective, AreOfField, argument_coordinate_of, owner_coordinate};

use graphql_coordinates::{
    DirectiveArgumentCoordinate, DirectiveCoordinate, FieldArgumentCoordinate, SchemaCoordinate,
    TypeAttributeCoordinate,
};
use graphql_documents::documents::{
    Argument, Component, Directive, DirectiveDefinition, Field, FieldDefinition,
    InputValueDefinition,
};
use graphql_nodes::{Name, NamedType, Node, SourceSpan, ValidationError};
use std::alloc::Global;

/// What arguments are given to: a field of a type, or a directive, which its definition may write
/// otherwise than its application.
#[derive(Drop)]
pub enum ArgumentOwner<'a> {
    Field {
        parent: &'a NamedType,
        field: &'a Name,
    },
    Directive {
        application: &'a Name,
        definition: &'a Name,
    },
}

/// The arguments of a field or directive beside the definitions of its arguments.
#[derive(Drop)]
pub struct GivenArguments<'a> {
    pub owner: ArgumentOwner<'a>,
    pub location: Option<SourceSpan>,
    pub given: &'a [Node<Argument>],
    pub definitions: &'a [Node<InputValueDefinition>],
    pub definition_location: Option<SourceSpan>,
}

impl ArgumentOwner<'_> {
    /// The coordinate of the field or directive.
    pub fn coordinate(&self, alloc: Global) -> Result<SchemaCoordinate, ValidationError>
        ensures { IfOk result (λ c. c ≡ owner_coordinate self.now) }
    {
        match *self {
            ArgumentOwner::Field { parent, field } => {
                let coordinate = TypeAttributeCoordinate::new(alloc, parent, field)?;
                Ok(SchemaCoordinate::TypeAttribute(coordinate))
            }
            ArgumentOwner::Directive { application, .. } => {
                let coordinate = DirectiveCoordinate::new(alloc, application)?;
                Ok(SchemaCoordinate::Directive(coordinate))
            }
        }
    }

    /// The coordinate of an argument of the field or directive.
    pub fn argument_coordinate(
        &self,
        alloc: Global,
        argument: &Name,
    ) -> Result<SchemaCoordinate, ValidationError>
        ensures { IfOk result (λ c. c ≡ argument_coordinate_of self.now argument.now) }
    {
        match *self {
            ArgumentOwner::Field { parent, field } => {
                let coordinate = FieldArgumentCoordinate::new(alloc, parent, field, argument)?;
                Ok(SchemaCoordinate::FieldArgument(coordinate))
            }
            ArgumentOwner::Directive { definition, .. } => {
                let coordinate = DirectiveArgumentCoordinate::new(alloc, definition, argument)?;
                Ok(SchemaCoordinate::DirectiveArgument(coordinate))
            }
        }
    }
}

impl<'a> GivenArguments<'a> {
    /// The arguments of a field that is on this type.
    pub fn of_field(
        parent: &'a NamedType,
        field: &'a Node<Field>,
        definition: &'a Component<FieldDefinition>,
    ) -> GivenArguments<'a>
        ensures { AreOfField parent.now field.now definition.now result }
    {
        GivenArguments {
            owner: ArgumentOwner::Field {
                parent,
                field: &field.value.name,
            },
            location: field.location,
            given: &field.value.arguments,
            definitions: &definition.node.value.arguments,
            definition_location: definition.node.location,
        }
    }

    /// The arguments of an applied directive.
    pub fn of_directive(
        directive: &'a Node<Directive>,
        definition: &'a Node<DirectiveDefinition>,
    ) -> GivenArguments<'a>
        ensures { AreOfDirective directive.now definition.now result }
    {
        GivenArguments {
            owner: ArgumentOwner::Directive {
                application: &directive.value.name,
                definition: &definition.value.name,
            },
            location: directive.location,
            given: &directive.value.arguments,
            definitions: &definition.value.arguments,
            definition_location: definition.location,
        }
    }
}
