//! What operations are validated with.

use graphql_documents::documents::{ExecutableDocument, Schema};
use graphql_parser::Bounds;

/// What operations are validated with.
#[derive(Clone, Copy)]
pub(crate) struct Context<'a> {
    pub schema: &'a Schema,
    /// The fragments of all files, as a document without operations.
    pub pool: &'a ExecutableDocument,
    pub bounds: Bounds,
}
