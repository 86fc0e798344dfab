//! The values that string tokens stand for.
//!
//! Specification: 2.9.4 String Value.
#![tactic(auto)]

mod block_strings;
pub mod laws;
mod lines;
mod parts;
mod values;

pub use values::{StringValue, string_value};
