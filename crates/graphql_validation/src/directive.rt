//! Directives where they are applied, and those of the definitions of variables.

pub use graphql_rules::cycles::directives::validate_directive_cycles;
pub use graphql_rules::values::directive::{validate_directives, validate_variable_definitions};
