use super::fixtures::text;
use graphql_numbers::{FloatValue, IntValue};

/// Texts, and whether each writes an integer and a float.
const TEXTS: &[(&str, bool, bool)] = &[
    ("-0", true, false),
    ("7", true, false),
    ("99999999999999999999", true, false),
    ("01", false, false),
    ("-", false, false),
    ("", false, false),
    ("+1", false, false),
    ("1.5", false, true),
    ("1e3", false, true),
    ("-0.0", false, true),
    ("6.02e+23", false, true),
    ("12E-7", false, true),
    ("1.", false, false),
    (".5", false, false),
    ("01.5", false, false),
    ("1e", false, false),
    ("1e+", false, false),
    ("1.e3", false, false),
    ("1.5.2", false, false),
    ("1e3.5", false, false),
    ("-.5", false, false),
    ("1 ", false, false),
];

#[test]
fn texts_write_integers_floats_or_neither(rt: HostRuntime) {
    for (written, is_integer, is_float) in TEXTS {
        let integer = IntValue::new(text(&rt, rt.alloc(), written));
        assert_eq!(rt; integer.is_some(), *is_integer, "{written}");
        let float = FloatValue::new(text(&rt, rt.alloc(), written));
        assert_eq!(rt; float.is_some(), *is_float, "{written}");
    }
}
