ghost use Rattle.std.specs.Prelude.{◌≡◌, IfOk, Some};
ghost use Rattle.graphql_coordinates.specs.Coordinates.{type_coordinate_text, type_attribute_text, field_argument_text, directive_text, directive_argument_text, coordinate_text};

use graphql_nodes::{Name, NamedType, ValidationError};
use std::alloc::Global;
use std::fmt;

/// The coordinate of a type: `T`.
#[derive(Debug, Drop, PartialEq, Eq)]
pub struct TypeCoordinate {
    pub ty: NamedType,
}

/// The coordinate of a field of an object, interface or input object, or of an enum value: `T.f`.
#[derive(Debug, Drop, PartialEq, Eq)]
pub struct TypeAttributeCoordinate {
    pub ty: NamedType,
    pub attribute: Name,
}

/// The coordinate of an argument of a field: `T.f(a:)`.
#[derive(Debug, Drop, PartialEq, Eq)]
pub struct FieldArgumentCoordinate {
    pub ty: NamedType,
    pub field: Name,
    pub argument: Name,
}

/// The coordinate of a directive: `@d`.
#[derive(Debug, Drop, PartialEq, Eq)]
pub struct DirectiveCoordinate {
    pub directive: Name,
}

/// The coordinate of an argument of a directive: `@d(a:)`.
#[derive(Debug, Drop, PartialEq, Eq)]
pub struct DirectiveArgumentCoordinate {
    pub directive: Name,
    pub argument: Name,
}

/// A coordinate of any kind.
#[derive(Debug, Drop, PartialEq, Eq)]
pub enum SchemaCoordinate {
    Type(TypeCoordinate),
    TypeAttribute(TypeAttributeCoordinate),
    FieldArgument(FieldArgumentCoordinate),
    Directive(DirectiveCoordinate),
    DirectiveArgument(DirectiveArgumentCoordinate),
}

impl TypeAttributeCoordinate {
    /// The coordinate of this field, input field or value of this type.
    pub fn new(
        alloc: Global,
        ty: &NamedType,
        attribute: &Name,
    ) -> Result<TypeAttributeCoordinate, ValidationError>
        ensures { IfOk result (λ c. c ≡ record { ty = ty.now; attribute = attribute.now }) }
    {
        Ok(TypeAttributeCoordinate {
            ty: ty.clone_in(alloc)?,
            attribute: attribute.clone_in(alloc)?,
        })
    }
}

impl FieldArgumentCoordinate {
    /// The coordinate of this argument of this field of the type.
    pub fn new(
        alloc: Global,
        ty: &NamedType,
        field: &Name,
        argument: &Name,
    ) -> Result<FieldArgumentCoordinate, ValidationError>
        ensures { IfOk result (λ c. c ≡ record { ty = ty.now; field = field.now; argument = argument.now }) }
    {
        Ok(FieldArgumentCoordinate {
            ty: ty.clone_in(alloc)?,
            field: field.clone_in(alloc)?,
            argument: argument.clone_in(alloc)?,
        })
    }
}

impl DirectiveCoordinate {
    /// The coordinate of the directive of this name.
    pub fn new(alloc: Global, directive: &Name) -> Result<DirectiveCoordinate, ValidationError>
        ensures { IfOk result (λ c. c ≡ record { directive = directive.now }) }
    {
        Ok(DirectiveCoordinate {
            directive: directive.clone_in(alloc)?,
        })
    }
}

impl DirectiveArgumentCoordinate {
    /// The coordinate of this argument of the directive.
    pub fn new(
        alloc: Global,
        directive: &Name,
        argument: &Name,
    ) -> Result<DirectiveArgumentCoordinate, ValidationError>
        ensures { IfOk result (λ c. c ≡ record { directive = directive.now; argument = argument.now }) }
    {
        Ok(DirectiveArgumentCoordinate {
            directive: directive.clone_in(alloc)?,
            argument: argument.clone_in(alloc)?,
        })
    }
}

impl fmt::Display for TypeCoordinate {
    ghost output = { λ c. Some (type_coordinate_text c) };

    fn fmt<W: fmt::Write>(&self, f: &mut fmt::Formatter<W>) -> fmt::Result {
        let ty = &self.ty;
        write!(f, "{ty}")
    }
}

impl fmt::Display for TypeAttributeCoordinate {
    ghost output = { λ c. Some (type_attribute_text c) };

    fn fmt<W: fmt::Write>(&self, f: &mut fmt::Formatter<W>) -> fmt::Result {
        let ty = &self.ty;
        let attribute = &self.attribute;
        write!(f, "{ty}.{attribute}")
    }
}

impl fmt::Display for FieldArgumentCoordinate {
    ghost output = { λ c. Some (field_argument_text c) };

    fn fmt<W: fmt::Write>(&self, f: &mut fmt::Formatter<W>) -> fmt::Result {
        let ty = &self.ty;
        let field = &self.field;
        let argument = &self.argument;
        write!(f, "{ty}.{field}({argument}:)")
    }
}

impl fmt::Display for DirectiveCoordinate {
    ghost output = { λ c. Some (directive_text c) };

    fn fmt<W: fmt::Write>(&self, f: &mut fmt::Formatter<W>) -> fmt::Result {
        let directive = &self.directive;
        write!(f, "@{directive}")
    }
}

impl fmt::Display for DirectiveArgumentCoordinate {
    ghost output = { λ c. Some (directive_argument_text c) };

    fn fmt<W: fmt::Write>(&self, f: &mut fmt::Formatter<W>) -> fmt::Result {
        let directive = &self.directive;
        let argument = &self.argument;
        write!(f, "@{directive}({argument}:)")
    }
}

impl fmt::Display for SchemaCoordinate {
    ghost output = { λ c. Some (coordinate_text c) };

    fn fmt<W: fmt::Write>(&self, f: &mut fmt::Formatter<W>) -> fmt::Result {
        match self {
            SchemaCoordinate::Type(c) => write!(f, "{c}"),
            SchemaCoordinate::TypeAttribute(c) => write!(f, "{c}"),
            SchemaCoordinate::FieldArgument(c) => write!(f, "{c}"),
            SchemaCoordinate::Directive(c) => write!(f, "{c}"),
            SchemaCoordinate::DirectiveArgument(c) => write!(f, "{c}"),
        }
    }
}
