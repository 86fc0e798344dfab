//! Strings that are no tokens.

ghost use Rattle.std.specs.Prelude.{◌≡◌, IfSome, true};
ghost use Rattle.graphql_syntax_helps.specs.SyntaxHelps.{HelpsInString, ends_line, is_escape};

use crate::helps::SyntaxHelp;

/// What helps with a string that is no token: these are the bytes after its quote.
pub fn help_in_string(inside: &[u8]) -> Option<SyntaxHelp>
    ensures { IfSome result (HelpsInString inside.now) }
{
    let mut is_escaped = false;
    let mut has_code = false;
    for byte in inside {
        if ends_line(*byte) {
            return Some(SyntaxHelp::UnclosedString);
        }
        if is_escaped {
            if !is_escape(*byte) {
                return Some(SyntaxHelp::UnknownEscape);
            }
            has_code = has_code || *byte == b'u';
            is_escaped = false;
        } else if *byte == b'"' {
            return help_with_codes(has_code);
        } else {
            is_escaped = *byte == b'\\';
        }
    }
    Some(SyntaxHelp::UnclosedString)
}

/// What helps with a string that is closed, if it has escapes by codes.
fn help_with_codes(has_code: bool) -> Option<SyntaxHelp>
    ensures { IfSome result (λ help. (help ≡ SyntaxHelp.UnicodeEscape) × (has_code ≡ true)) }
{
    if has_code {
        Some(SyntaxHelp::UnicodeEscape)
    } else {
        None
    }
}

fn ends_line(byte: u8) -> bool
    ensures { result ≡ ends_line byte }
{
    byte == b'\n' || byte == b'\r'
}

/// Whether a backslash and this byte begin an escape.
fn is_escape(byte: u8) -> bool
    ensures { result ≡ is_escape byte }
{
    matches!(
        byte,
        b'"' | b'\\' | b'/' | b'b' | b'f' | b'n' | b'r' | b't' | b'u'
    )
}
