//! Laws of the rules that are asked of one operation, and of its reports: they depend on no fragment that it does not reach.
//!
//! Each function here does nothing. Its contract is the law.
#![tactic(auto)]

pub mod operations;
pub mod reports;
