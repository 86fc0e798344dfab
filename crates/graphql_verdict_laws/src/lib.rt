//! Laws of verdicts: rules do not depend on which typed values say a text, and texts that are valid by one choice of these are
//! valid by each.
//!
//! Each function here does nothing. Its contract is the law.
#![tactic(auto)]

pub mod rules;
pub mod verdicts;
