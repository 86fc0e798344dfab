//! Parts of a text that messages show.

ghost use Rattle.std.specs.Prelude.{◌≡◌, chars, take};
ghost use Rattle.std.specs.Str.{IsCharBoundary};
ghost use Rattle.graphql_syntax_messages.specs.SyntaxMessages.{begins_character, ends_line, excerpt, no_token_message};

use crate::messages::SyntaxMessage;

/// As many characters of a token are shown at most.
const SHOWN: usize = 40;

/// The first line of a text, of which messages show 40 characters at most.
pub fn excerpt(text: &str) -> &str
    ensures { result.now ≡ excerpt text.now }
{
    match text.split_at_checked(excerpt_end(text.as_bytes())) {
        Some((shown, _)) => shown,
        None => text,
    }
}

/// Where the excerpt ends.
fn excerpt_end(bytes: &[u8]) -> usize
    ensures boundary { IsCharBoundary bytes.now result }
    ensures excerpt { excerpt bytes.now ≡ take result bytes.now }
{
    let mut left = SHOWN;
    for k in 0..bytes.len() {
        if ends_line(bytes[k]) {
            return k;
        }
        if begins_character(bytes[k]) {
            if left == 0 {
                return k;
            }
            left -= 1;
        }
    }
    bytes.len()
}

/// Whether this byte ends a line.
fn ends_line(byte: u8) -> bool
    ensures { result ≡ ends_line byte }
{
    byte == b'\n' || byte == b'\r'
}

/// Whether a character begins with this byte.
fn begins_character(byte: u8) -> bool
    ensures { result ≡ begins_character byte }
{
    byte < 128 || 192 <= byte
}

/// Why no token begins where this text begins.
pub fn no_token(text: &str) -> SyntaxMessage<'_>
    ensures { result ≡ no_token_message (chars text.now) }
{
    match text.chars().next() {
        None => SyntaxMessage::InvalidString,
        Some(character) => {
            if character == '"' {
                SyntaxMessage::InvalidString
            } else if character == '-' || character.is_ascii_digit() {
                SyntaxMessage::InvalidNumber
            } else {
                SyntaxMessage::UnexpectedCharacter(character)
            }
        }
    }
}
