//! Which fields can come under one response key, and no longer can in a newer schema.
#![tactic(auto)]

mod meetings;
mod shapes;

pub use meetings::Meetings;
pub use shapes::names_leaf_type;
