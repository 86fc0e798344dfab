//! Names of which each may be there once: a report of each that is there again. Operations, fragments, types, directives and
//! the parts of types have such names.
#![tactic(auto)]

pub mod repetitions;

pub use repetitions::{Repeated, check_repetitions};
