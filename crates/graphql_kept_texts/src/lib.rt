//! What is left of the text of a document, or of a schema, without those of its parts that cannot be built. Each byte that is left keeps its place.
#![tactic(auto)]

pub mod cuts;
pub mod faults;
pub mod kept;
mod members;
mod rooms;
mod selections;
mod type_system;
mod variables;
pub mod walks;

pub use cuts::{Cut, Fill, kept_text};
pub use faults::Faults;
pub use kept::{Kept, kept_of};
pub use walks::cuts_of;
