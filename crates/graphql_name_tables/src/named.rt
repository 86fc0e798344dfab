//! What has a name.

ghost use Rattle.std.specs.Prelude.{◌≡◌};
ghost use Rattle.graphql_nodes.specs.Names.{NameText};

use graphql_documents::documents::{Argument, InputValueDefinition, Value};
use graphql_nodes::{Name, Node};

/// What is found by its name.
pub trait Named: Drop {
    ghost name_of: { Self → NameText };

    /// The name.
    fn name(&self) -> &Name
        ensures { result.now ≡ name_of self.now };
}

impl Named for Node<Argument> {
    ghost name_of = { λ argument. argument.value.value.name };

    fn name(&self) -> &Name {
        &self.value.name
    }
}

impl Named for Node<InputValueDefinition> {
    ghost name_of = { λ definition. definition.value.value.name };

    fn name(&self) -> &Name {
        &self.value.name
    }
}

impl Named for (Name, Node<Value>) {
    ghost name_of = { λ entry. entry.0 };

    fn name(&self) -> &Name {
        &self.0
    }
}
