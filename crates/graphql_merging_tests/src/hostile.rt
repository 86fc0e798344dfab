use graphql_diagnostics::DiagnosticList;
use graphql_documents::documents::Schema;
use graphql_nodes::FileId;
use graphql_notation::build::{document_in_file, schema};
use graphql_validation::entry::validate_executable_document_within;
use std::alloc::{AllocError, Global};
use std::fmt::Write;
use std::process::Abort;

/// The schema of the document.
const SCHEMA: &str = "type Query { a: Int b: Int q: Query }";

/// How many levels the document has: so many that no one can go through the merged sets, which each level doubles.
const LEVELS: u32 = 24;

/// How many fields merging by sets may list.
const WORK: usize = 10_000;

/// A document of fragments, each of which puts the next one under one key alone, and under another together with a chain
/// of its own. At the bottom are these fields.
fn hostile(alloc: Global, bottom: &str) -> Result<String, AllocError> {
    let mut text = String::from_str(alloc, "{ ...F0 } ")?;
    push_levels(&mut text, bottom).and(Ok(text))
}

fn push_levels(text: &mut String, bottom: &str) -> Result<(), AllocError> {
    for level in 0..LEVELS {
        let next = level + 1;
        write!(
            text,
            "fragment F{level} on Query {{ x: q {{ ...F{next} }} y: q {{ ...F{next} ...C{level}x{next} }} }} "
        )?;
        push_chain(text, level)?;
    }
    write!(text, "fragment F{LEVELS} on Query {{ {bottom} }} ")
}

/// The chain of a level, down to the last.
fn push_chain(text: &mut String, level: u32) -> Result<(), AllocError> {
    for depth in 0..LEVELS {
        if level < depth {
            push_link(text, level, depth, depth + 1)?;
        }
    }
    write!(
        text,
        "fragment C{level}x{LEVELS} on Query {{ k: a c{level}: b }} "
    )
}

fn push_link(text: &mut String, level: u32, depth: u32, next: u32) -> Result<(), AllocError> {
    write!(
        text,
        "fragment C{level}x{depth} on Query {{ x: q {{ ...C{level}x{next} }} y: q {{ ...C{level}x{next} }} }} "
    )
}

/// How many diagnostics there are of the document with these fields at the bottom.
fn reports(rt: &impl Abort, alloc: Global, schema: &Schema, bottom: &str) -> usize {
    let text = hostile(alloc, bottom).expect(rt, "memory for a text");
    let Ok(document) = document_in_file(alloc, schema, &text, FileId(1)) else {
        panic!(rt; "no document: {text}")
    };
    let mut diagnostics = DiagnosticList::new(alloc);
    validate_executable_document_within(&mut diagnostics, schema, &document, WORK).expect(
        rt,
        "memory for reports",
    );
    diagnostics.len()
}

#[test]
fn hostile_documents_are_decided_within_the_bound(rt: HostRuntime) {
    let alloc = rt.alloc();
    let Ok(schema) = schema(alloc, SCHEMA) else {
        panic!(rt; "no schema")
    };
    assert_eq!(rt; reports(&rt, alloc, &schema.0, "k: a"), 0);
    assert_eq!(rt; reports(&rt, alloc, &schema.0, "k: b"), 1);
}
