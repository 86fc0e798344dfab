//! The other places of reports: what is defined or first given there, and the way round a cycle, each with its words.
#![tactic(auto)]

pub mod building;
mod conflicts;
mod cycles;
mod definitions;
pub mod details;
mod lists;
pub mod notes;

pub use building::notes_of_building;
pub use details::notes_of_details;
pub use notes::{Note, note_beside};
