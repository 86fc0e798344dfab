use graphql_tokens::{LexicalError, Stop, has_no_token, scan, tokens};

/// Texts, and how many tokens graphql-core reads in them.
const COUNTS: [(&str, usize); 7] = [
    ("", 0),
    ("# only a comment", 0),
    ("{ a(b: -1.5e+3, c: 0) @d { ...on } }", 17),
    ("\"\\u0041\\u{1F600}\\uD83D\\uDE00\\n\"", 1),
    ("\"\"\"a \\\"\"\" b\n  c\"\"\" \"\"", 2),
    ("type T implements A & B { f: [Int!]! = $x | y }", 20),
    ("\u{FEFF}a,b\r\nc", 3),
];

/// Texts that graphql-core refuses, and where the last token of them begins.
const REFUSED: [(&str, usize); 11] = [
    ("01", 0),
    ("a 1a", 2),
    ("1.", 0),
    ("\"\\uD800\"", 0),
    ("\"\\u{110000}\"", 0),
    ("\"a\nb\"", 0),
    ("\"\"\"a", 0),
    ("a ?", 2),
    (".. .", 0),
    ("1.e1", 0),
    ("\"\\x\"", 0),
];

#[test]
fn texts_have_as_many_tokens_as_for_a_peer(rt: HostRuntime) {
    for (text, count) in COUNTS {
        let found = tokens(rt.alloc(), text, count).expect(&rt, "tokens");
        assert_eq!(rt; found.len(), count, "in {text}");
    }
}

#[test]
fn what_a_peer_refuses_is_refused(rt: HostRuntime) {
    for (text, at) in REFUSED {
        let scanned = scan(rt.alloc(), text, 100).expect(&rt, "memory");
        assert_eq!(rt; scanned.stop, Stop::NoToken(at), "in {text}");
    }
}

#[test]
fn tokens_above_the_bound_are_refused(rt: HostRuntime) {
    match tokens(rt.alloc(), "a b c", 2) {
        Err(error) => assert_eq!(rt; error, LexicalError::TooManyTokens(4)),
        Ok(_) => panic!(rt; "three tokens"),
    }
}

#[test]
fn a_text_of_ignored_characters_has_no_token(rt: HostRuntime) {
    for text in ["", " ,\t\r\n", "\u{feff}# a b"] {
        assert!(rt; has_no_token(text), "in {text}");
    }
    for text in ["a", " # b\r}", "\""] {
        assert!(rt; !has_no_token(text), "in {text}");
    }
}
