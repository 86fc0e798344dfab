//! What schemas and documents mean beyond the specification: in a subgraph of Apollo Federation, and to clients.
//!
//! All is done on texts: definitions that a schema lacks are a text of their own, and keywords and fields that do not count become blank, so that
//! each byte keeps its place. What is read is GraphQL of the specification.
#![tactic(auto)]

pub mod adoption;
pub mod answered;
mod client_tables;
pub mod clients;
pub mod definitions;
mod federation;
pub mod links;
pub mod rows;

pub use adoption::{adopted_extensions, adopted_text};
pub use answered::{ClientField, client_fields, text_without};
pub use clients::{Client, client_definitions};
pub use definitions::federation_definitions;
pub use graphql_schema_checking::definitions::SortedDefinitions;
pub use links::{Import, Link, argument};
pub use rows::{Row, lacking_definitions};
