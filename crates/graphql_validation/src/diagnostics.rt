//! What the calls report, with the texts, and their only error.

pub use graphql_diagnostics::{
    BuildError, Details, DiagnosticData, DiagnosticEntry, DiagnosticList,
    DirectiveArgumentCoordinate, DirectiveCoordinate, FieldArgumentCoordinate, NameOrAnon,
    SchemaCoordinate, TypeAttributeCoordinate, TypeCoordinate,
};
pub use graphql_nodes::{RecursionLimitError, ValidationError};
