//! Operations in which nothing has to be merged: each response key is that of one field, or of equal leaves.
#![tactic(auto)]

mod counted_expansion;
mod keys;
pub mod laws;
pub mod lone_fields;
