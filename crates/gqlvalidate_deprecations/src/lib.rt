//! Reports on the deprecated elements of a schema that documents use, for the program.
#![tactic(auto)]

mod reports;

pub use reports::{DEPRECATED_USAGE, deprecation_reports};
