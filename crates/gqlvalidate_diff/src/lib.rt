//! What `gqlvalidate diff` does: it compares two schemas, and validates documents against both.
#![tactic(auto)]

pub mod changes;
mod operations;

pub use changes::{Compared, compare, presentation_of};
