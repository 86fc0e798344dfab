//! Which changes of a schema matter to a document: those of something that it uses.
#![tactic(auto)]

mod changes;
mod marks;
mod selections;
mod uses;
mod values;

pub use marks::mark_used;
