ghost use Rattle.std.specs.Prelude.{◌≡◌, option_map};
ghost use Rattle.std.specs.Iterator.{YieldsFirstBy, item_count};
ghost use Rattle.std.specs.Option.{option_copied};
ghost use Rattle.graphql_documents.specs.Roots.{roots_left};
ghost use Rattle.graphql_documents.specs.Schemas.{root_operation, roots_of};

use super::components::ComponentName;
use super::schemas::Schema;
use graphql_nodes::{NamedType, OperationType};

/// The root operation types that a schema names, with the kinds of their operations: query, mutation,
/// subscription.
///
/// Specification: 3.3.1 Root Operation Types.
#[derive(Drop)]
pub struct RootOperations<'a> {
    query: Option<&'a ComponentName>,
    mutation: Option<&'a ComponentName>,
    subscription: Option<&'a ComponentName>,
}

impl<'a> Iterator for RootOperations<'a> {
    type Item = (OperationType, &'a ComponentName);

    ghost next_gives = { YieldsFirstBy (λ root. (root.0, root.1.now)) roots_left };

    ghost remaining = { item_count roots_left };

    fn next(&mut self) -> Option<(OperationType, &'a ComponentName)> {
        if let Some(root) = self.query.take() {
            return Some((OperationType::Query, root));
        }
        if let Some(root) = self.mutation.take() {
            return Some((OperationType::Mutation, root));
        }
        let root = self.subscription.take()?;
        Some((OperationType::Subscription, root))
    }
}

impl Schema {
    /// The root type of the operations of a kind.
    ///
    /// Specification: 3.3.1 Root Operation Types.
    pub fn root_operation(&self, operation_type: OperationType) -> Option<&NamedType>
        ensures { option_copied result ≡ option_map (λ root. root.name) (root_operation self.now.schema_definition.value.value operation_type) }
    {
        let definition = &self.schema_definition.value;
        let root = match operation_type {
            OperationType::Query => &definition.query,
            OperationType::Mutation => &definition.mutation,
            OperationType::Subscription => &definition.subscription,
        };
        Some(&root.as_ref()?.name)
    }

    /// The root types that the schema names, each with the kind of its operations.
    ///
    /// Specification: 3.3.1 Root Operation Types.
    pub fn iter_root_operations(&self) -> RootOperations<'_>
        ensures { roots_left result ≡ roots_of self.now.schema_definition.value.value }
    {
        let definition = &self.schema_definition.value;
        RootOperations {
            query: definition.query.as_ref(),
            mutation: definition.mutation.as_ref(),
            subscription: definition.subscription.as_ref(),
        }
    }
}
