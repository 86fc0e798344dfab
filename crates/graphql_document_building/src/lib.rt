//! Executable documents as typed data, built from their syntax trees, against a schema or without one.
#![tactic(auto)]

pub mod documents;
mod field_definitions;
pub mod laws;
mod selections;
pub mod type_fields;

pub use documents::{build_document, build_standalone_document};
pub use sqlite_items::Items;
