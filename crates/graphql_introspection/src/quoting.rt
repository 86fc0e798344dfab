//! Texts as strings of GraphQL.

ghost use Rattle.std.specs.Prelude.{◌≡◌, ◌<◌, [], ◌∷◌, Some, OnOk, encode_utf8, string_bytes};
ghost use Rattle.graphql_tokens.specs.Strings.{hex_digit};
ghost use Rattle.graphql_introspection.specs.Quoting.{AppendsCharacters, AppendsString};

use std::alloc::AllocError;

/// The hexadecimal digit of this value.
fn digit(value: u8) -> char
    requires { value < 16 }
    ensures digit { hex_digit result ≡ Some value }
    ensures ascii { result < 128 }
{
    if value < 10 {
        (b'0' + value) as char
    } else {
        (b'a' + (value - 10)) as char
    }
}

/// Adds a control character as an escape.
fn push_control(text: &mut String, c: u8) -> Result<(), AllocError>
    requires { c < 32 }
    ensures { OnOk result (AppendsCharacters (string_bytes text.old) (encode_utf8 c) (string_bytes text.new)) }
{
    if c < 16 {
        text.push_str("\\u000")?;
        text.push(digit(c))
    } else {
        text.push_str("\\u001")?;
        text.push(digit(c - 16))
    }
}

/// Adds a character of a string: a quote, a backslash and a control character as escapes.
fn push_character(text: &mut String, c: char) -> Result<(), AllocError>
    ensures { OnOk result (AppendsCharacters (string_bytes text.old) (encode_utf8 c) (string_bytes text.new)) }
{
    match c {
        '"' => text.push_str("\\\""),
        '\\' => text.push_str("\\\\"),
        '\n' => text.push_str("\\n"),
        '\r' => text.push_str("\\r"),
        '\t' => text.push_str("\\t"),
        c if c < ' ' => push_control(text, c as u8),
        c => text.push(c),
    }
}

/// Adds a string in quotes, on one line, whose value is the text.
///
/// Specification: 2.9.4 String Value.
pub fn push_quoted(text: &mut String, value: &str) -> Result<(), AllocError>
    ensures { OnOk result (AppendsString (string_bytes text.old) value.now (string_bytes text.new)) }
{
    text.push_str("\"")?;
    for c in value.chars() {
        push_character(text, c)?;
    }
    text.push_str("\"")
}
