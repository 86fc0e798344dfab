//! The rules of schemas, one module for each kind of definition. Each call reports what breaks a rule, and its contract
//! says what it means that nothing is reported.
#![tactic(auto)]

pub mod default_values;
pub mod directive_definitions;
pub mod enums;
pub mod extensions;
mod implementing_types;
pub mod input_objects;
pub mod interfaces;
pub mod objects;
mod roots;
pub mod scalars;
pub mod schema;
pub mod schema_definition;
pub mod type_map;
pub mod types;
pub mod unions;

pub use graphql_field_definitions as field_definitions;
pub use graphql_implementations as implementations;
