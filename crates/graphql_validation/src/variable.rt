//! Variables: where they may be used, and which of them are.

pub use graphql_variables::{
    VariablesByName, Walked, check_variable_usage, is_variable_usage_allowed,
    validate_unused_variables, validate_variable_usage, variables_in_value, walk_open_selections,
    walk_selections, walk_selections_with_deduped_fragments,
};
