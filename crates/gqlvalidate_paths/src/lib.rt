//! The files that words of a command line name: files, folders and patterns.
#![tactic(auto)]

pub mod expansion;
mod folders;
pub mod plain;

pub use expansion::{Expansion, PathError, expand, without};
pub use folders::UnreadFolder;
