//! What tests build and print. Where memory is refused, the test ends.
use graphql_diagnostics::DiagnosticList;
use graphql_documents::documents::{InputValueDefinition, Schema, Valid};
use graphql_nodes::{Name, Node, SourceSpan};
use graphql_notation::build::{inputs, schema};
use std::alloc::Global;
use std::fmt::Write;
use std::process::Abort;

pub(crate) fn text(rt: &impl Abort, alloc: Global, written: &str) -> String {
    String::from_str(alloc, written).expect(rt, "memory for a text")
}

pub(crate) fn name(rt: &impl Abort, alloc: Global, written: &str) -> Name {
    Name::new(text(rt, alloc, written), None).expect(rt, "a name")
}

pub(crate) fn node<T: Drop>(rt: &impl Abort, alloc: Global, value: T) -> Node<T> {
    Node::new(alloc, value).expect(rt, "memory for a node")
}

/// The definition of an argument that a text as `(a: Int)` writes.
pub(crate) fn argument_definition(
    rt: &impl Abort,
    alloc: Global,
    written: &str,
) -> Node<InputValueDefinition> {
    let mut built = inputs(alloc, written).expect(rt, "an argument");
    built.pop().expect(rt, "an argument")
}

/// The schema of this text.
pub(crate) fn schema_of(rt: &impl Abort, alloc: Global, written: &str) -> Valid<Schema> {
    schema(alloc, written).expect(rt, "a schema")
}

/// A schema whose query has fields of its own type.
pub(crate) fn query_of_itself(rt: &impl Abort, alloc: Global) -> Valid<Schema> {
    schema_of(rt, alloc, "type Query { q: Query a: Int b: Int }")
}

/// The texts are the same.
pub(crate) fn is_text(rt: &impl Abort, found: &str, expected: &str) {
    if found != expected {
        panic!(rt; "{expected} was expected, not {found}");
    }
}

/// The call brought these reports, each on a line behind its place; `-` stands for none, and `+` for
/// any.
pub(crate) fn reports(
    rt: &impl Abort,
    alloc: Global,
    diagnostics: &DiagnosticList,
    expected: &str,
) {
    let mut found = String::new(alloc);
    for entry in diagnostics.iter() {
        let place = if entry.location.is_none() { "-" } else { "+" };
        let written = write!(found, "{place} {}\n", entry.details);
        written.expect(rt, "memory for a line");
    }
    is_text(rt, found.as_str(), expected);
}

/// The call brought these reports, each on a line as examples have it: its place as `file:start-end`, or
/// `-` for none, and what it says.
pub(crate) fn reports_as_lines(
    rt: &impl Abort,
    alloc: Global,
    diagnostics: &DiagnosticList,
    expected: &str,
) {
    let mut found = String::new(alloc);
    for entry in diagnostics.iter() {
        show_file(rt, &mut found, entry.location);
        show_place(rt, &mut found, entry.location);
        let written = write!(found, " {}\n", entry.details);
        written.expect(rt, "memory for a line");
    }
    is_text(rt, found.as_str(), expected);
}

fn show(rt: &impl Abort, shown: &mut String, text: &str) {
    shown.push_str(text).expect(rt, "memory for a line");
}

/// Shows the file of a place, if there is one.
fn show_file(rt: &impl Abort, shown: &mut String, place: Option<SourceSpan>) {
    if let Some(span) = place {
        let written = write!(shown, "{}:", span.file_id.0);
        written.expect(rt, "memory for a line");
    }
}

fn show_place(rt: &impl Abort, shown: &mut String, place: Option<SourceSpan>) {
    match place {
        Some(span) => {
            let written = write!(shown, "{}-{}", span.start, span.end);
            written.expect(rt, "memory for a line");
        }
        None => show(rt, shown, "-"),
    }
}
