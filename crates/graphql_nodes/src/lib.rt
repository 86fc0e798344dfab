//! What schemas and documents are made of: names, places in source files, shared values with a place;
//! and the errors of all calls.
#![tactic(auto)]

pub mod directive_locations;
pub mod errors;
pub mod names;
pub mod nodes;
pub mod operation_types;
mod short_names;
pub mod spans;

pub use directive_locations::DirectiveLocation;
pub use errors::{RecursionLimitError, ValidationError};
pub use names::{Name, NamedType};
pub use nodes::Node;
pub use operation_types::OperationType;
pub use spans::{FileId, SourceSpan};
