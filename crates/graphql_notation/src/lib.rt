//! Schemas, documents and their parts as data, from GraphQL text with some additions.
#![tactic(auto)]

pub mod build;
pub mod errors;

pub use errors::ExampleError;
