//! What is reported of variables.

ghost use Rattle.std.specs.Prelude.{Some};
ghost use Rattle.graphql_usage_rules.specs.VariableMisuses.{misuse_message};

use graphql_documents::documents::Type;
use graphql_nodes::{Name, Node, SourceSpan};
use std::fmt;

/// A variable that is used at a place that its type does not allow, with the type that is expected there, and the places of its
/// definition and of this use. It shares the type with the definition, and prints as a message.
///
/// Specification: 5.8.5 All Variable Usages Are Allowed.
#[derive(Debug, Drop)]
pub struct VariableMisuse {
    pub name: Name,
    pub variable_type: Node<Type>,
    pub location_type: Type,
    pub definition_location: Option<SourceSpan>,
    pub location: Option<SourceSpan>,
}

impl fmt::Display for VariableMisuse {
    ghost output = { λ misuse. Some (misuse_message misuse.name misuse.variable_type.value.value misuse.location_type) };

    fn fmt<W: fmt::Write>(&self, f: &mut fmt::Formatter<W>) -> fmt::Result {
        let name = &self.name;
        let variable_type = &*self.variable_type.value;
        let location_type = &self.location_type;
        write!(
            f,
            "variable `${name}` of type `{variable_type}` used in position expecting type `{location_type}`"
        )
    }
}
