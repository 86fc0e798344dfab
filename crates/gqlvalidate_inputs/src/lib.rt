//! What the commands of `gqlvalidate` read: files, folders and standard input. It says what cannot be read, and with which status a run ends.
#![tactic(auto)]

pub mod faults;
pub mod introspections;
pub mod printable;
pub mod sources;
pub mod statuses;
pub mod terminals;
pub mod word_paths;
