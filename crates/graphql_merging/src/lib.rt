//! Merging of fields: whether all fields that come together in a response agree. What follows is decided
//! for lists of fields that are put together, from an operation's set down.
#![tactic(auto)]

pub mod bounded;
mod conflicts;
mod examined;
pub mod expansion;
pub mod groups;
mod keyed_fields;
pub mod laws;
pub mod merging;
mod numbered_expansion;
mod numbered_fields;
mod passes;
mod work;
