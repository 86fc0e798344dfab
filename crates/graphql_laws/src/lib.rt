//! Laws of the definitions: what holds of every schema and document, whatever a validator does.
//!
//! Each function here does nothing. Its contract is the law.
#![tactic(auto)]

pub mod expansion;
pub mod field_contents;
pub mod fragments;
pub mod merged_sets;
pub mod merging;
pub mod ordered_groups;
pub mod reports;
pub mod schemas;
pub mod seen_lists;
pub mod selections;
pub mod subscriptions;
pub mod type_maps;
pub mod values;
pub mod variables;
