//! GraphQL documents, from text to the syntax tree.
//!
//! Specification: 2 Language, and Appendix B Grammar Summary.
#![tactic(auto)]

pub mod bounds;
mod definitions;
pub mod errors;
pub mod laws;
mod parse;

pub use bounds::Bounds;
pub use errors::SyntaxError;
pub use parse::parse_document;
