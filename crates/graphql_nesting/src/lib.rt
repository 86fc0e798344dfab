//! How deep a document nests through its fragments: decided before it is validated, in time that is linear in the document,
//! and without recursion.
#![tactic(auto)]

mod fragments;
mod levels;
mod nesting;
mod reports;
mod spreads;
mod written;

pub use levels::DocumentLevels;
pub use nesting::check_nesting;
pub use reports::{NestedPart, NestingReport};
