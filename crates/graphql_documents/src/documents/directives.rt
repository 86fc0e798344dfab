ghost use Rattle.std.specs.Option.{option_copied};
ghost use Rattle.std.specs.Prelude.{◌≡◌};
ghost use Rattle.graphql_documents.specs.Directives.{argument_named};

use super::values::Value;
use graphql_nodes::{Name, Node};

/// An argument as given: a name and a value.
///
/// Specification: 2.6 Arguments.
#[derive(Debug, Drop, PartialEq, Eq, Hash)]
pub struct Argument {
    pub name: Name,
    pub value: Node<Value>,
}

/// The first argument with this name.
///
/// Specification: 5.4.2 Argument Uniqueness.
pub fn argument_named<'a>(
    arguments: &'a [Node<Argument>],
    name: &Name,
) -> Option<&'a Node<Argument>>
    ensures { option_copied result ≡ argument_named name.now arguments.now }
{
    arguments.iter().find(|a| a.value.name == *name)
}

/// An application of a directive.
///
/// Specification: 2.12 Directives.
#[derive(Debug, Drop, PartialEq, Eq, Hash)]
pub struct Directive {
    pub name: Name,
    pub arguments: Vec<Node<Argument>>,
}

impl Directive {
    /// The first argument with this name, as given.
    pub fn specified_argument_by_name(&self, name: &Name) -> Option<&Node<Argument>>
        ensures { option_copied result ≡ argument_named name.now self.now.arguments.items }
    {
        argument_named(&self.arguments, name)
    }
}
