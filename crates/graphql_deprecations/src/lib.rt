//! The deprecated elements of a schema that a document uses: fields, arguments, input fields and enum values.
#![tactic(auto)]

mod arguments;
mod deprecations;
mod elements;
pub mod reports;
mod selections;
pub mod usages;
mod values;

pub use reports::{DeprecatedElement, DeprecatedUsage};
pub use usages::deprecated_usages;
