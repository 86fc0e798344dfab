//! Reports on documents and schemas: what is wrong, where, and with which text; and the definitions that
//! say which rule a diagnostic names.
#![tactic(auto)]

pub mod bounds;
pub mod build_error_messages;
pub mod build_errors;
pub mod data;
pub mod details;
pub mod lists;
pub mod names;

pub use bounds::ReportBound;
pub use build_error_messages::BuildErrorMessage;
pub use build_errors::BuildError;
pub use data::DiagnosticData;
pub use details::Details;
pub use graphql_coordinates::{
    DirectiveArgumentCoordinate, DirectiveCoordinate, FieldArgumentCoordinate, SchemaCoordinate,
    TypeAttributeCoordinate, TypeCoordinate,
};
pub use graphql_hash_seeds::HashSeed;
pub use lists::{DiagnosticEntry, DiagnosticList};
pub use names::NameOrAnon;
