use graphql_nodes::FileId;
use graphql_parser::{Bounds, SyntaxError, parse_document};
use graphql_syntax::Expected;
use std::alloc::Global;
use std::process::Abort;

const FILE: FileId = FileId(1);

/// Each text is a document of so many definitions.
pub(crate) fn are_read(rt: &impl Abort, alloc: Global, documents: &[(&str, usize)]) {
    for (text, definitions) in documents {
        is_read(rt, alloc, text, *definitions);
    }
}

fn is_read(rt: &impl Abort, alloc: Global, text: &str, definitions: usize) {
    match parse_document(alloc, FILE, text, Bounds::DEFAULT) {
        Ok(document) => assert_eq!(rt; document.definitions.len(), definitions, "in {text}"),
        Err(error) => panic!(rt; "{error} at {} in {text}", error.at(text)),
    }
}

/// Each text is refused at this byte, where this was expected.
pub(crate) fn are_refused(rt: &impl Abort, alloc: Global, texts: &[(&str, usize, Expected)]) {
    for (text, at, expected) in texts {
        is_refused(rt, alloc, text, *at, *expected);
    }
}

fn is_refused(rt: &impl Abort, alloc: Global, text: &str, at: usize, expected: Expected) {
    let error = error_within(rt, alloc, text, Bounds::DEFAULT);
    assert_eq!(rt; error.at(text), at, "in {text}");
    match error {
        SyntaxError::Unexpected(_, found) => assert_eq!(rt; found, expected, "in {text}"),
        _ => panic!(rt; "{error} in {text}"),
    }
}

/// Why the text is refused within the bounds.
pub(crate) fn error_within(
    rt: &impl Abort,
    alloc: Global,
    text: &str,
    bounds: Bounds,
) -> SyntaxError {
    match parse_document(alloc, FILE, text, bounds) {
        Ok(_) => panic!(rt; "read {text}"),
        Err(error) => error,
    }
}
