//! The laws of the numbers of values and of arguments.

ghost use Rattle.std.specs.Prelude.{◌≡◌, ◌↔◌, ℕ, List};
ghost use Rattle.graphql_documents.specs.Values.{SameValue};
ghost use Rattle.graphql_documents.specs.declared.documents.directives.Argument.{Argument};
ghost use Rattle.graphql_documents.specs.declared.documents.values.Value.{Value};
ghost use Rattle.graphql_nodes.specs.declared.nodes.Node.{Node};
ghost use Rattle.graphql_specification.specs.Merging.{SameArguments};
ghost use Rattle.graphql_value_numbers.specs.Arguments.{HaveNumber};
ghost use Rattle.graphql_value_numbers.specs.Numbers.{HasNumber, IsTable};
ghost use Rattle.graphql_value_numbers.specs.declared.shapes.Shape.{Shape};

/// Numbers of one table are equal exactly where the values are the same.
///
/// Specification: 5.3.2 Field Selection Merging.
pub fn numbers_decide_sameness_of_values()
    ensures { (shapes : List Shape) → IsTable shapes → (v w : Value) (m n : ℕ) → HasNumber shapes v m → HasNumber shapes w n → (m ≡ n) ↔ SameValue v w }
{}

/// Numbers of one table are equal exactly where the arguments are the same.
///
/// Specification: 5.3.2 Field Selection Merging.
pub fn numbers_decide_sameness_of_arguments()
    ensures { (shapes : List Shape) → IsTable shapes → (a b : List (Node Argument)) (m n : ℕ) → HaveNumber shapes a m → HaveNumber shapes b n → (m ≡ n) ↔ SameArguments a b }
{}
