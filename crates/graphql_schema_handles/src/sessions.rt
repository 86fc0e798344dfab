//! What is kept between calls.

use graphql_documents::documents::Schema;
use std::sync::Arc;

/// What is kept of a schema that was read.
#[derive(Drop)]
pub struct Session {
    /// The schema, unless its texts were reported. Several sessions may share it, in several threads.
    pub schema: Option<Arc<Schema>>,
    /// The answer of the last call.
    pub answer: Vec<u8>,
}
