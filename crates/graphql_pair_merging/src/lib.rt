//! Merging of fields, decided by pairs: two sets of fields that come together are looked at once in each pass,
//! whatever leads to them.
#![tactic(auto)]

mod disagreements;
mod field_groups;
mod joined_sets;
pub mod merging;
mod numbered_sets;
mod pairs;
pub mod work;
