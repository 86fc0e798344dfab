//! Whether an executable document can be built, against a schema or without one, checked on its syntax tree.
#![tactic(auto)]

pub mod definitions;
pub mod documents;
pub mod selections;

pub use definitions::check_definitions;
pub use documents::{check_document, check_standalone_document};
pub use graphql_document_building::{Items, build_document, build_standalone_document};
pub use graphql_repetitions::{Repeated, check_repetitions};
pub use selections::check_selections;
