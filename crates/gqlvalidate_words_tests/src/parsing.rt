use gqlvalidate_patterns::{Pattern, PatternError};

/// Texts that are no patterns, and why.
const REFUSED: &[(&str, PatternError)] = &[
    ("src/[a-z", PatternError::UnclosedSet),
    ("src/[", PatternError::UnclosedSet),
    ("src/[]", PatternError::EmptySet),
    ("src/[!]", PatternError::EmptySet),
    ("[z-a]", PatternError::ReversedRange),
    ("*.{graphql,gql", PatternError::UnclosedBraces),
    ("{", PatternError::UnclosedBraces),
    ("{a,{b,c}}", PatternError::Unmatched),
    ("a}", PatternError::Unmatched),
    ("a]", PatternError::Unmatched),
    ("a**", PatternError::StarsInName),
    ("**a", PatternError::StarsInName),
    ("src/***/a", PatternError::StarsInName),
    ("a\\", PatternError::LoneBackslash),
];

#[test]
fn texts_that_are_no_patterns_are_refused(rt: HostRuntime) {
    for (text, why) in REFUSED {
        match Pattern::parse(rt.alloc(), text) {
            Ok(_) => assert!(rt; false, "{text} is no pattern"),
            Err(error) => assert!(rt; error == *why, "{text}: {error}"),
        }
    }
}

#[test]
fn a_backslash_takes_the_meaning_from_a_character(rt: HostRuntime) {
    for (text, path) in [
        ("\\*", "*"),
        ("\\!a", "!a"),
        ("\\\\", "\\"),
        ("a\\{b", "a{b"),
    ] {
        match Pattern::parse(rt.alloc(), text) {
            Ok(pattern) => {
                let matches = pattern.matches(rt.alloc(), path).expect(&rt, "memory");
                assert!(rt; matches && !pattern.takes_out, "{text}");
            }
            Err(error) => assert!(rt; false, "{text}: {error}"),
        }
    }
}
