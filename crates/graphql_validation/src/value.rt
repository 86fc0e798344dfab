//! Values against types.

pub use graphql_rules::values::value::{validate_values, value_of_correct_type};
