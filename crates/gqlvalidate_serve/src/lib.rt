//! What `gqlvalidate serve` does: it answers questions on standard input.
#![tactic(auto)]

mod answers;
mod lines;
mod questions;

pub use answers::{Allowance, serve};
