//! What strings and block strings stand for.

use graphql_strings::string_value;

/// The specification's example of a block string: its two forms stand for one value.
const HELLO: &str = "\"\"\"\n    Hello,\n      World!\n\n    Yours,\n      GraphQL.\n  \"\"\"";

const HELLO_QUOTED: &str = "\"Hello,\\n  World!\\n\\nYours,\\n  GraphQL.\"";

/// Strings, and what graphql-core reads in them.
const STRINGS: [(&str, &str); 10] = [
    ("\"\"", ""),
    ("\" white space \"", " white space "),
    ("\"quote \\\"\"", "quote \""),
    ("\"escaped \\n\\r\\b\\t\\f\"", "escaped \n\r\u{8}\t\u{C}"),
    ("\"slashes \\\\ \\/\"", "slashes \\ /"),
    (
        "\"unicode \\u1234\\u5678\\u90AB\\uCDEF\"",
        "unicode \u{1234}\u{5678}\u{90AB}\u{CDEF}",
    ),
    (
        "\"outside \u{1F600} \\u{1F600} \\uD83D\\uDE00\"",
        "outside \u{1F600} \u{1F600} \u{1F600}",
    ),
    (
        "\"\\na long run of plain bytes, a tab\t, then \\u00e9 in the middle, and at the end \\t\"",
        "\na long run of plain bytes, a tab\t, then \u{E9} in the middle, and at the end \t",
    ),
    (
        "\"\u{E9}\u{E9} run \\\\ \u{1F600}\\\"\u{439}\\\"\"",
        "\u{E9}\u{E9} run \\ \u{1F600}\"\u{439}\"",
    ),
    (HELLO_QUOTED, "Hello,\n  World!\n\nYours,\n  GraphQL."),
];

/// Block strings, and what graphql-core reads in them.
const BLOCK_STRINGS: [(&str, &str); 13] = [
    ("\"\"\"\"\"\"", ""),
    ("\"\"\"   \"\"\"", ""),
    ("\"\"\"\t a \t\"\"\"", "\t a \t"),
    (
        "\"\"\"contains \\\"\"\" triplequote\"\"\"",
        "contains \"\"\" triplequote",
    ),
    ("\"\"\"unescaped \\n\\u1234\"\"\"", "unescaped \\n\\u1234"),
    (
        "\"\"\"multi\rline\r\nnormalized\"\"\"",
        "multi\nline\nnormalized",
    ),
    ("\"\"\"a\r\n\r\n  b\r   c\"\"\"", "a\n\nb\n c"),
    (
        "\"\"\"  first\n    second\n\t\n  third\"\"\"",
        "  first\n  second\n\nthird",
    ),
    (
        "\"\"\"a run of plain bytes \\\"\"\" and \\ alone, \\\"\" \u{E9}\u{1F600}\"\"\"",
        "a run of plain bytes \"\"\" and \\ alone, \\\"\" \u{E9}\u{1F600}",
    ),
    (
        "\"\"\"\\\"\"\" first\\\"\"\"\\\"\"\"\"\"\"",
        "\"\"\" first\"\"\"\"\"\"",
    ),
    (
        "\"\"\"\n    one \\\"\"\" line\n    \u{439} \\ \"two\" \"\"quoted\\\"\n  \"\"\"",
        "one \"\"\" line\n\u{439} \\ \"two\" \"\"quoted\\\"",
    ),
    ("\"\"\"\n  the only line\n  \"\"\"", "the only line"),
    (HELLO, "Hello,\n  World!\n\nYours,\n  GraphQL."),
];

/// Texts that graphql-core refuses, or reads as no string alone.
const NO_STRINGS: [&str; 7] = [
    "",
    "a",
    "\"a",
    "\"\\uD800\"",
    "\"\"\"a",
    "\"a\nb\"",
    "\"a\"\"b\"",
];

#[test]
fn strings_have_the_values_that_a_peer_reads(rt: HostRuntime) {
    for (text, value) in STRINGS {
        let found = string_value(rt.alloc(), text.as_bytes()).expect(&rt, "memory");
        let found = found.expect(&rt, "a string");
        assert_eq!(rt; found.as_str(), value, "in {text}");
    }
}

#[test]
fn block_strings_have_the_values_that_a_peer_reads(rt: HostRuntime) {
    for (text, value) in BLOCK_STRINGS {
        let found = string_value(rt.alloc(), text.as_bytes()).expect(&rt, "memory");
        let found = found.expect(&rt, "a block string");
        assert_eq!(rt; found.as_str(), value, "in {text}");
    }
}

#[test]
fn two_forms_of_one_value_are_equal(rt: HostRuntime) {
    let block = string_value(rt.alloc(), HELLO.as_bytes()).expect(&rt, "memory");
    let quoted = string_value(rt.alloc(), HELLO_QUOTED.as_bytes()).expect(&rt, "memory");
    assert!(rt; block == quoted);
}

#[test]
fn what_is_no_string_alone_has_no_value(rt: HostRuntime) {
    for text in NO_STRINGS {
        let found = string_value(rt.alloc(), text.as_bytes()).expect(&rt, "memory");
        assert!(rt; found.is_none(), "in {text}");
    }
}
