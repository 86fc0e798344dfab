//! What tests build and print. Where memory is refused, the test ends.
use graphql_diagnostics::DiagnosticList;
use graphql_documents::documents::{Schema, Valid};
use graphql_nodes::Name;
use graphql_notation::build::schema;
use std::alloc::Global;
use std::fmt::Write;
use std::process::Abort;

pub(crate) fn text(rt: &impl Abort, alloc: Global, written: &str) -> String {
    String::from_str(alloc, written).expect(rt, "memory for a text")
}

pub(crate) fn name(rt: &impl Abort, alloc: Global, written: &str) -> Name {
    Name::new(text(rt, alloc, written), None).expect(rt, "a name")
}

/// The schema of this text.
pub(crate) fn schema_of(rt: &impl Abort, alloc: Global, written: &str) -> Valid<Schema> {
    schema(alloc, written).expect(rt, "a schema")
}

/// A schema whose query has fields of its own type.
pub(crate) fn query_of_itself(rt: &impl Abort, alloc: Global) -> Valid<Schema> {
    schema_of(rt, alloc, "type Query { q: Query a: Int b: Int }")
}

/// The texts are the same.
pub(crate) fn is_text(rt: &impl Abort, found: &str, expected: &str) {
    if found != expected {
        panic!(rt; "{expected} was expected, not {found}");
    }
}

/// The call brought these reports, each on a line behind its place; `-` stands for none, and `+` for
/// any.
pub(crate) fn reports(
    rt: &impl Abort,
    alloc: Global,
    diagnostics: &DiagnosticList,
    expected: &str,
) {
    let mut found = String::new(alloc);
    for entry in diagnostics.iter() {
        let place = if entry.location.is_none() { "-" } else { "+" };
        let written = write!(found, "{place} {}\n", entry.details);
        written.expect(rt, "memory for a line");
    }
    is_text(rt, found.as_str(), expected);
}
