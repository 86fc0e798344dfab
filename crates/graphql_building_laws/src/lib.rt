//! Laws of schemas and documents that texts say: what holds of each that was built from its trees.
//!
//! Each function here does nothing. Its contract is the law.
#![tactic(auto)]

pub mod laws;
