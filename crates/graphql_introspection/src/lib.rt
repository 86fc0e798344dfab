//! The answer to an introspection query, printed as a schema in the schema definition language.
//!
//! Specification: 4 Introspection.
#![tactic(auto)]

mod constants;
mod directives;
mod errors;
mod faults;
mod fields;
mod input_values;
mod members;
mod names;
mod paths;
mod printer;
mod quoting;
mod references;
mod schemas;
mod types;

pub use errors::{IntrospectionError, Problem};
pub use names::is_name;
pub use quoting::push_quoted;
pub use references::MAX_WRAPPERS;
pub use schemas::schema_text;
