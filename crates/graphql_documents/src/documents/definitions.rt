ghost use Rattle.std.specs.Option.{option_copied};
ghost use Rattle.std.specs.Prelude.{◌≡◌, Some};
ghost use Rattle.graphql_documents.specs.Definitions.{definition_named, variable_named};

use super::directives::Directive;
use super::type_references::Type;
use super::values::Value;
use graphql_nodes::{DirectiveLocation, Name, Node};

/// An argument of a field or directive definition, or a field of an input object.
///
/// Specification: 3.6.1 Field Arguments; 3.10 Input Objects.
#[derive(Debug, Drop, PartialEq, Eq, Hash)]
pub struct InputValueDefinition {
    pub name: Name,
    pub ty: Node<Type>,
    pub default_value: Option<Node<Value>>,
    pub directives: Vec<Node<Directive>>,
}

impl InputValueDefinition {
    ghost use Rattle.std.specs.Prelude.{◌≡◌};
    ghost use Rattle.graphql_documents.specs.Schemas.{is_required};

    /// Whether a value must be given: the type is non-null, and there is no default.
    ///
    /// Specification: 5.4.2.1 Required Arguments.
    pub fn is_required(&self) -> bool
        ensures { result ≡ is_required self.now }
    {
        self.ty.value.is_non_null() && self.default_value.is_none()
    }
}

/// The first definition with this name.
///
/// Specification: 5.4.1 Argument Names.
pub fn definition_named<'a>(
    definitions: &'a [Node<InputValueDefinition>],
    name: &Name,
) -> Option<&'a Node<InputValueDefinition>>
    ensures { option_copied result ≡ definition_named name.now definitions.now }
{
    definitions.iter().find(|d| d.value.name == *name)
}

/// A field of an object type or an interface.
///
/// Specification: 3.6 Objects.
#[derive(Debug, Drop, PartialEq, Eq, Hash)]
pub struct FieldDefinition {
    pub name: Name,
    pub arguments: Vec<Node<InputValueDefinition>>,
    pub ty: Type,
    pub directives: Vec<Node<Directive>>,
}

/// A value of an enum type.
///
/// Specification: 3.9 Enums.
#[derive(Debug, Drop, PartialEq, Eq)]
pub struct EnumValueDefinition {
    pub value: Name,
    pub directives: Vec<Node<Directive>>,
}

/// A directive definition.
///
/// Specification: 3.13 Directives.
#[derive(Debug, Drop, PartialEq, Eq)]
pub struct DirectiveDefinition {
    pub name: Name,
    pub arguments: Vec<Node<InputValueDefinition>>,
    pub repeatable: bool,
    pub locations: Vec<DirectiveLocation>,
}

/// A variable of an operation.
///
/// Specification: 2.10 Variables.
#[derive(Debug, Drop, PartialEq, Eq)]
pub struct VariableDefinition {
    pub name: Name,
    pub ty: Node<Type>,
    pub default_value: Option<Node<Value>>,
    pub directives: Vec<Node<Directive>>,
}

/// The first variable with this name.
///
/// Specification: 5.8.1 Variable Uniqueness.
pub fn variable_named<'a>(
    variables: &'a [Node<VariableDefinition>],
    name: &Name,
) -> Option<&'a Node<VariableDefinition>>
    ensures { option_copied result ≡ variable_named name.now variables.now }
{
    variables.iter().find(|v| v.value.name == *name)
}
