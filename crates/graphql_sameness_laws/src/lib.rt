//! Laws of schemas and documents that are the same part by part, wherever they are in memory: no rule tells them apart.
//!
//! Each function here does nothing. Its contract is the law.
#![tactic(auto)]

pub mod documents;
pub mod schemas;
