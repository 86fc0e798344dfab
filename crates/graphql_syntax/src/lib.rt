//! The parts that all documents share, from tokens to the syntax tree: names, keywords, types, values,
//! arguments, directives, default values and the kinds of operation.
//!
//! Specification: Appendix B.3 Document Syntax.
#![tactic(auto)]

pub mod cursor;
pub mod default_values;
pub mod directives;
pub mod keywords;
pub mod operation_types;
pub mod production;
pub mod refusals;
pub mod steps;
pub mod types;
pub mod values;

pub use cursor::Cursor;
pub use keywords::Keyword;
pub use production::{More, Production};
pub use refusals::{Expected, Refusal};
