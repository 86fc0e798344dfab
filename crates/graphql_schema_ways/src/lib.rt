//! Documents that use a part of a schema: the shortest ways on which documents come to its types, and texts of documents on them.
//!
//! The texts are meant to be valid, and short. Whether they are valid, validation says.
#![tactic(auto)]

pub mod directives;
pub mod inputs;
pub mod literals;
pub mod texts;
pub mod values;
pub mod ways;

pub use inputs::InputSite;
pub use ways::{Step, Way, Ways};
