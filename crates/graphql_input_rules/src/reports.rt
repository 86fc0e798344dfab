//! What is reported of object values.

ghost use Rattle.std.specs.Prelude.{Some};
ghost use Rattle.graphql_input_rules.specs.InputFields.{repetition_message};

use graphql_nodes::{Name, SourceSpan};
use std::fmt;

/// An input field that an object value gives again, with the places of the first of its name and of this one. It prints as a
/// message.
///
/// Specification: 5.6.3 Input Object Field Uniqueness.
#[derive(Debug, Drop)]
pub struct InputFieldRepetition {
    pub name: Name,
    pub original: Option<SourceSpan>,
    pub location: Option<SourceSpan>,
}

impl fmt::Display for InputFieldRepetition {
    ghost output = { λ repetition. Some (repetition_message repetition.name) };

    fn fmt<W: fmt::Write>(&self, f: &mut fmt::Formatter<W>) -> fmt::Result {
        let name = &self.name;
        write!(f, "there can be only one input field named `{name}`")
    }
}
