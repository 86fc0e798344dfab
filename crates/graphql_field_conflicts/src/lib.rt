//! When two fields disagree, so that they cannot be merged, and what is reported of them.
//!
//! Specification: 5.3.2 Field Selection Merging.
#![tactic(auto)]

pub mod comparisons;
pub mod conflict_reports;
pub mod field_selections;
pub mod laws;
