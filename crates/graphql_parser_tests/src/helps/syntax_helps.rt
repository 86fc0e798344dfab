//! Texts that are no documents, with what helps.

use graphql_nodes::FileId;
use graphql_parser::{Bounds, SyntaxError, parse_document};
use graphql_syntax_helps::{help_of_syntax, unclosed_bracket};
use std::alloc::Global;
use std::process::Abort;

/// The error of a text that is no document.
fn error_of(rt: &impl Abort, alloc: Global, text: &str) -> SyntaxError {
    match parse_document(alloc, FileId(1), text, Bounds::DEFAULT) {
        Ok(_) => panic!(rt; "a document"),
        Err(error) => error,
    }
}

/// Texts, and what helps: nothing, if that is empty.
const HELPED: &[(&str, &str)] = &[
    (
        "{ a(b: \"c) }",
        "the string has no closing quote on this line",
    ),
    (
        "{ a(b: \"c\n\") }",
        "the string has no closing quote on this line",
    ),
    (
        "{ a(b: \"c\\\"",
        "the string has no closing quote on this line",
    ),
    (
        "{ a(b: \"c\\x\") }",
        "after a backslash comes one of `\"`, `\\`, `/`, `b`, `f`, `n`, `r`, `t` and `u`",
    ),
    (
        "{ a(b: \"\\ud83d\") }",
        "`\\u` takes four hexadecimal digits, or a code in braces; half of a surrogate pair needs the other half",
    ),
    (
        "{ a(b: \"\\u12\") }",
        "`\\u` takes four hexadecimal digits, or a code in braces; half of a surrogate pair needs the other half",
    ),
    (
        "{ a(b: \"\"\"c\") }",
        "the block string has no closing `\"\"\"`, or it has a control character",
    ),
    (
        "{ a(b: 01) }",
        "a number has no zeros before its first digit",
    ),
    (
        "{ a(b: -00) }",
        "a number has no zeros before its first digit",
    ),
    (
        "{ a(b: 1x) }",
        "a number ends before a letter, `_` or `.`; digits follow `.`, `e` and `E`",
    ),
    (
        "{ a(b: 1.) }",
        "a number ends before a letter, `_` or `.`; digits follow `.`, `e` and `E`",
    ),
    (
        "{ a(b: -1e) }",
        "a number ends before a letter, `_` or `.`; digits follow `.`, `e` and `E`",
    ),
    ("{ a(b: 'c') }", "strings are written in double quotes"),
    ("{ a }; { b }", "leave out the semicolon"),
    ("{ a } // b", "comments begin with `#`"),
    ("{ \"a\" }", "names are written without quotes"),
    ("{ a(\"b\": 1) }", "names are written without quotes"),
    ("{ a(b = 1) }", "write `:` in place of `=`"),
    (
        "type A implements B, C { d: Int }",
        "write `&` between interfaces",
    ),
    ("{ a } }", ""),
    ("{ a(b: -) }", ""),
    ("{ a % b }", ""),
];

#[test]
fn what_helps_is_known(rt: HostRuntime) {
    let alloc = rt.alloc();
    for (text, expected) in HELPED {
        let error = error_of(&rt, alloc, text);
        let words = match help_of_syntax(text, error) {
            Some(help) => help.to_string(alloc).expect(&rt, "memory for words"),
            None => String::new(alloc),
        };
        assert_eq!(rt; words.as_str(), *expected, "{text}");
    }
}

/// Texts, and the byte at which the bracket begins that is not closed, if there is one.
const UNCLOSED: &[(&str, Option<u32>)] = &[
    ("{ a { b }", Some(0)),
    ("{ a { b ", Some(4)),
    ("{ a(b: [1, 2 }", Some(7)),
    ("query Q($a: [Int!) { b }", Some(12)),
    ("{ a(b: {c: 1)) }", Some(7)),
    ("{ a } }", None),
    ("fragment F on", None),
    ("{ a(b: 'c') }", None),
    ("{ a b: }", None),
    ("{ a { b } c( ", Some(11)),
];

#[test]
fn the_innermost_open_bracket_is_found(rt: HostRuntime) {
    let alloc = rt.alloc();
    for (text, expected) in UNCLOSED {
        let error = error_of(&rt, alloc, text);
        let found = unclosed_bracket(alloc, text, error, Bounds::DEFAULT).expect(&rt, "memory");
        assert_eq!(rt; found.map(|token| token.start), *expected, "{text}");
    }
}
