//! What is reported of the use of a deprecated element.

ghost use Rattle.std.specs.Prelude.{◌≡◌, Some};
ghost use Rattle.graphql_deprecations.specs.Deprecations.{element_text, reason_of, usage_text};

use crate::deprecations::reason_of;
use graphql_coordinates::{
    DirectiveArgumentCoordinate, FieldArgumentCoordinate, TypeAttributeCoordinate,
};
use graphql_documents::documents::Directive;
use graphql_nodes::{Node, SourceSpan};
use std::fmt;

/// An element of a schema that can be deprecated, by its coordinate. The last name of the coordinate is the name as it is used. It
/// prints with its kind, as "the field `User.name`".
///
/// Specification: 3.13.3 @deprecated.
#[derive(Debug, Drop)]
pub enum DeprecatedElement {
    Field(TypeAttributeCoordinate),
    FieldArgument(FieldArgumentCoordinate),
    DirectiveArgument(DirectiveArgumentCoordinate),
    InputField(TypeAttributeCoordinate),
    EnumValue(TypeAttributeCoordinate),
}

/// A use of a deprecated element, with the place of the name that uses it. It shares the directive that deprecates the element with
/// the schema, and prints as a message.
///
/// Specification: 3.13.3 @deprecated.
#[derive(Debug, Drop)]
pub struct DeprecatedUsage {
    pub element: DeprecatedElement,
    pub place: Option<SourceSpan>,
    pub deprecation: Node<Directive>,
}

impl DeprecatedUsage {
    /// Why the element is deprecated: the string that the directive gives as its reason, or "No longer supported" if it gives none.
    ///
    /// Specification: 3.13.3 @deprecated.
    pub fn reason(&self) -> &str
        ensures { result.now ≡ reason_of self.now.deprecation.value.value }
    {
        reason_of(&self.deprecation.value)
    }
}

impl fmt::Display for DeprecatedElement {
    ghost output = { λ element. Some (element_text element) };

    fn fmt<W: fmt::Write>(&self, f: &mut fmt::Formatter<W>) -> fmt::Result {
        match self {
            DeprecatedElement::Field(c) => write!(f, "the field `{c}`"),
            DeprecatedElement::FieldArgument(c) => write!(f, "the argument `{c}`"),
            DeprecatedElement::DirectiveArgument(c) => write!(f, "the argument `{c}`"),
            DeprecatedElement::InputField(c) => write!(f, "the input field `{c}`"),
            DeprecatedElement::EnumValue(c) => write!(f, "the enum value `{c}`"),
        }
    }
}

impl fmt::Display for DeprecatedUsage {
    ghost output = { λ usage. Some (usage_text usage) };

    fn fmt<W: fmt::Write>(&self, f: &mut fmt::Formatter<W>) -> fmt::Result {
        let element = &self.element;
        let reason = self.reason();
        write!(f, "{element} is deprecated: {reason}")
    }
}
