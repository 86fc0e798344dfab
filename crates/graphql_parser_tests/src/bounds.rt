use crate::texts::{are_read, error_within};
use graphql_parser::{Bounds, SyntaxError};
use std::alloc::Global;
use std::process::Abort;

/// Two brackets or braces may be open, and twelve tokens come. The parser does not ask what is reached.
const BOUNDS: Bounds = Bounds {
    tokens: 12,
    depth: 2,
    reach: 0,
    work: usize::MAX,
    reports: usize::MAX,
    report_bytes: usize::MAX,
};

/// Texts of twelve tokens at most, in which a third bracket or brace opens at this byte.
const TOO_DEEP: &[(&str, usize)] = &[
    ("{ a { b { c } } }", 8),
    ("{ a(b: [[1]]) }", 8),
    ("{ a(b: {c: []}) }", 11),
    ("query ($a: [[[Int]]]) { b }", 13),
];

fn is_too_deep(rt: &impl Abort, alloc: Global, text: &str, at: usize) {
    let error = error_within(rt, alloc, text, BOUNDS);
    assert!(rt;
        matches!(error, SyntaxError::TooDeep(_)),
        "{error} in {text}"
    );
    assert_eq!(rt; error.at(text), at, "in {text}");
}

#[test]
fn a_third_level_is_refused(rt: HostRuntime) {
    for (text, at) in TOO_DEEP {
        is_too_deep(&rt, rt.alloc(), text, *at);
    }
}

#[test]
fn a_token_above_the_bound_is_refused(rt: HostRuntime) {
    let text = "{ a b c d e f g h i j k }";
    let error = error_within(&rt, rt.alloc(), text, BOUNDS);
    assert_eq!(rt; error, SyntaxError::TooManyTokens(24));
}

/// Of two errors the first in the text is told, whether a token or the grammar is broken there.
const FIRST: &[(&str, SyntaxError)] = &[
    ("{ a ? } }", SyntaxError::NoToken(4)),
    ("{ ? a", SyntaxError::NoToken(2)),
];

#[test]
fn no_token_is_an_error_of_its_own(rt: HostRuntime) {
    for (text, error) in FIRST {
        let found = error_within(&rt, rt.alloc(), text, Bounds::DEFAULT);
        assert_eq!(rt; found, *error, "in {text}");
    }
}

#[test]
fn the_first_of_two_errors_is_told(rt: HostRuntime) {
    let text = "{ a } } ?";
    let error = error_within(&rt, rt.alloc(), text, Bounds::DEFAULT);
    assert_eq!(rt; error.at(text), 6);
}

/// Without a bound of the caller's, many tokens and levels are read.
#[test]
fn the_default_bounds_let_documents_through(rt: HostRuntime) {
    are_read(
        &rt,
        rt.alloc(),
        &[("{ a { b { c { d { e { f { g(h: [[[[1]]]]) } } } } } } }", 1)],
    );
}
