//! Input values, arguments, variables and applied directives against a schema. Each call reports what
//! breaks a rule, and its contract says what it means that nothing is reported.
#![tactic(auto)]

pub mod argument;
pub mod directive;
pub mod value;

pub use graphql_numbers::{FloatValue, IntValue};
