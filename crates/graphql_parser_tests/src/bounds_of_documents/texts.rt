use graphql_documents::documents::{ExecutableDocument, Schema};
use graphql_nodes::{FileId, SourceSpan};
use graphql_notation::build::document_in_file;
use std::alloc::Global;
use std::process::Abort;

/// The schema of all documents.
pub(crate) const SCHEMA: &str = "type Query { f: Int q: Query }";

/// The document of a text.
pub(crate) fn document(
    rt: &impl Abort,
    alloc: Global,
    schema: &Schema,
    text: &str,
) -> ExecutableDocument {
    let Ok(document) = document_in_file(alloc, schema, text, FileId(1)) else {
        panic!(rt; "no document: {text}")
    };
    document
}

/// A report as a line: the byte where it is, and its message.
pub(crate) fn line(
    rt: &impl Abort,
    alloc: Global,
    location: Option<SourceSpan>,
    message: &str,
) -> String {
    let start = location.expect(rt, "a place").start;
    format!(in alloc; "{start} {message}").expect(rt, "memory for a line")
}
