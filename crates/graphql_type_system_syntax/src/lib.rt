//! Definitions and extensions of the type system, from tokens to the syntax tree.
//!
//! Specification: 3 Type System, and Appendix B.3 Document Syntax.
#![tactic(auto)]

pub mod bodies;
pub mod definitions;
pub mod directive_definitions;
pub mod fields;
pub mod input_values;
pub mod locations;
pub mod parts;
pub mod schemas;
pub mod type_definitions;
pub mod type_extensions;

pub use definitions::{begins_type_system_definition, extension, type_system_definition};
