//! What tests build and print. Where memory is refused, the test ends.
use graphql_documents::documents::{InputValueDefinition, Schema, Valid};
use graphql_nodes::{Name, Node};
use graphql_notation::build::{inputs, schema};
use std::alloc::Global;
use std::process::Abort;

pub(crate) fn text(rt: &impl Abort, alloc: Global, written: &str) -> String {
    String::from_str(alloc, written).expect(rt, "memory for a text")
}

pub(crate) fn name(rt: &impl Abort, alloc: Global, written: &str) -> Name {
    Name::new(text(rt, alloc, written), None).expect(rt, "a name")
}

pub(crate) fn node<T: Drop>(rt: &impl Abort, alloc: Global, value: T) -> Node<T> {
    Node::new(alloc, value).expect(rt, "memory for a node")
}

/// The definition of an argument that a text as `(a: Int)` writes.
pub(crate) fn argument_definition(
    rt: &impl Abort,
    alloc: Global,
    written: &str,
) -> Node<InputValueDefinition> {
    let mut built = inputs(alloc, written).expect(rt, "an argument");
    built.pop().expect(rt, "an argument")
}

/// The schema of this text.
pub(crate) fn schema_of(rt: &impl Abort, alloc: Global, written: &str) -> Valid<Schema> {
    schema(alloc, written).expect(rt, "a schema")
}

/// A schema whose query has fields of its own type.
pub(crate) fn query_of_itself(rt: &impl Abort, alloc: Global) -> Valid<Schema> {
    schema_of(rt, alloc, "type Query { q: Query a: Int b: Int }")
}

/// The texts are the same.
pub(crate) fn is_text(rt: &impl Abort, found: &str, expected: &str) {
    if found != expected {
        panic!(rt; "{expected} was expected, not {found}");
    }
}
