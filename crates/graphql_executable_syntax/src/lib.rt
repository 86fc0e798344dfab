//! Executable definitions, from tokens to the syntax tree: operations, fragments and what they select.
//!
//! Specification: Appendix B.3 Document Syntax.
#![tactic(auto)]

pub mod fragments;
pub mod operations;
pub mod selections;

pub use fragments::fragment_definition;
pub use operations::{begins_operation, operation_definition, variable_definitions};
pub use selections::selection_set;
