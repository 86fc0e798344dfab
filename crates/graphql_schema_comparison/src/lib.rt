//! What changes from one schema to another, and whether each document that is valid against the first stays valid.
#![tactic(auto)]

mod comparison;
mod directives;
mod fields;
mod roots;
mod types;

pub use comparison::{Comparison, compare_schemas};
