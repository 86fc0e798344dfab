//! The rules of the specification on the variables that a document uses, at any depth of a value: that each is defined, and
//! that it may be used at its place.
#![tactic(auto)]

mod allowed;
mod locations;
pub mod reports;
mod scopes;
mod selections;
pub mod undefined_variables;
mod values;
pub mod variable_usages;

pub use graphql_reach::{ReachReport, check_reach};
pub use graphql_reporting::ReportList;
pub use reports::VariableMisuse;
pub use undefined_variables::check_undefined_variables;
pub use variable_usages::check_variable_usages;
