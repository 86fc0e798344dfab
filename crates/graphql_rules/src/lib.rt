//! The rules of executable documents: of their operations, selections and fragments. Each call reports
//! what breaks a rule, and its contract says what it means that nothing is reported.
#![tactic(auto)]

pub mod operations;

pub use graphql_cycles as cycles;
pub use graphql_values as values;
