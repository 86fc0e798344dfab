//! What helps with a report: names that may have been meant, and what to write instead.
#![tactic(auto)]

pub mod building;
mod field_types;
pub mod helps;
mod lists;
pub mod validation;

pub use building::help_of_building;
pub use helps::Help;
pub use validation::help_of_details;
