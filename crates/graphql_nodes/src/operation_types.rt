//! The kinds of operations.

ghost use Rattle.std.specs.Prelude.{◌≡◌, Some};
ghost use Rattle.graphql_nodes.specs.OperationTypes.{operation_type_text};

use std::fmt;

/// The kind of an operation.
///
/// Specification: 2.3 Operations.
#[derive(Clone, Copy, Debug, PartialEq, Eq)]
pub enum OperationType {
    Query,
    Mutation,
    Subscription,
}

impl OperationType {
    /// The keyword of the operation.
    pub fn name(&self) -> &'static str
        ensures { result.now ≡ operation_type_text self.now }
    {
        match self {
            OperationType::Query => "query",
            OperationType::Mutation => "mutation",
            OperationType::Subscription => "subscription",
        }
    }
}

impl fmt::Display for OperationType {
    ghost output = { λ operation. Some (operation_type_text operation) };

    fn fmt<W: fmt::Write>(&self, f: &mut fmt::Formatter<W>) -> fmt::Result {
        f.write_str(self.name())
    }
}
