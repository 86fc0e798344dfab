//! The characters of strings.

ghost use Rattle.std.specs.Prelude.{◌≡◌, ◌<◌, IfSome, IsTrue};
ghost use Rattle.graphql_tokens.specs.Strings.{hex_digit, is_leading_surrogate, is_trailing_surrogate, is_scalar_value, escaped_character};
ghost use Rattle.graphql_tokens.specs.Scans.{Gives, hex_digit_at, four_digits_at, digits_behind, scalar_with, braced_at, trailing_at, fixed_at, unicode_at, escape_at, string_character_at};

use crate::characters::{is_string_byte, strip};

/// What a character of a string stands for: a byte for itself, as one of its value's text, or an
/// escape for a character.
///
/// Specification: 2.9.4 String Value.
#[derive(Clone, Copy, Debug, PartialEq, Eq)]
pub enum StringPart {
    Byte(u8),
    Escaped(char),
}

/// The character of a string that the text begins with, and the text behind it.
///
/// Specification: 2.9.4 String Value.
#[tactic(auto, unfolding(crate::specs::Scans::string_character_at))]
pub fn string_character(text: &[u8]) -> Option<(StringPart, &[u8])>
    ensures { Gives (λ found. (found.0, found.1.now)) result (string_character_at text.now) }
{
    let [first, rest @ ..] = text else {
        return None;
    };
    if *first == b'\\' {
        let (character, behind) = escape(rest)?;
        Some((StringPart::Escaped(character), behind))
    } else if is_string_byte(*first) {
        Some((StringPart::Byte(*first), rest))
    } else {
        None
    }
}

/// The character that an escape stands for, its text without the backslash.
#[tactic(auto, unfolding(crate::specs::Scans::escape_at))]
fn escape(text: &[u8]) -> Option<(char, &[u8])>
    ensures { Gives (λ found. (found.0, found.1.now)) result (escape_at text.now) }
{
    let [first, rest @ ..] = text else {
        return None;
    };
    if *first == b'u' {
        unicode(rest)
    } else {
        let character = escaped_character(*first)?;
        Some((character, rest))
    }
}

fn escaped_character(c: u8) -> Option<char>
    ensures { result ≡ escaped_character c }
{
    if c == b'"' {
        Some('"')
    } else if c == b'\\' {
        Some('\\')
    } else if c == b'/' {
        Some('/')
    } else if c == b'b' {
        Some('\u{8}')
    } else if c == b'f' {
        Some('\u{C}')
    } else if c == b'n' {
        Some('\n')
    } else if c == b'r' {
        Some('\r')
    } else if c == b't' {
        Some('\t')
    } else {
        None
    }
}

#[tactic(auto, unfolding(crate::specs::Scans::unicode_at))]
fn unicode(text: &[u8]) -> Option<(char, &[u8])>
    ensures { Gives (λ found. (found.0, found.1.now)) result (unicode_at text.now) }
{
    match strip(text, b'{') {
        Some(digits) => braced(digits),
        None => fixed(text),
    }
}

/// Digits up to a closing brace.
#[tactic(auto, unfolding(crate::specs::Scans::braced_at))]
fn braced(text: &[u8]) -> Option<(char, &[u8])>
    ensures { Gives (λ found. (found.0, found.1.now)) result (braced_at text.now) }
{
    let (first, rest) = hex_digit(text)?;
    let (code, rest) = digits_behind(first, rest)?;
    let rest = strip(rest, b'}')?;
    scalar(code, rest)
}

/// Four digits, and four more where they begin a surrogate pair.
#[tactic(auto, unfolding(crate::specs::Scans::fixed_at))]
fn fixed(text: &[u8]) -> Option<(char, &[u8])>
    ensures { Gives (λ found. (found.0, found.1.now)) result (fixed_at text.now) }
{
    let (code, rest) = four_digits(text)?;
    if is_leading_surrogate(code) {
        trailing(code, rest)
    } else {
        scalar(code, rest)
    }
}

#[tactic(auto, unfolding(crate::specs::Scans::trailing_at))]
fn trailing(leading: u32, text: &[u8]) -> Option<(char, &[u8])>
    requires { IsTrue (is_leading_surrogate leading) }
    ensures { Gives (λ found. (found.0, found.1.now)) result (trailing_at leading text.now) }
{
    let rest = strip(text, b'\\')?;
    let rest = strip(rest, b'u')?;
    let (code, rest) = four_digits(rest)?;
    if is_trailing_surrogate(code) {
        scalar(0x10000 + 1024 * (leading - 0xD800) + (code - 0xDC00), rest)
    } else {
        None
    }
}

fn is_leading_surrogate(code: u32) -> bool
    ensures { result ≡ is_leading_surrogate code }
{
    0xD800 <= code && code <= 0xDBFF
}

fn is_trailing_surrogate(code: u32) -> bool
    ensures { result ≡ is_trailing_surrogate code }
{
    0xDC00 <= code && code <= 0xDFFF
}

#[tactic(auto, unfolding(crate::specs::Scans::scalar_with))]
fn scalar(code: u32, rest: &[u8]) -> Option<(char, &[u8])>
    ensures { Gives (λ found. (found.0, found.1.now)) result (scalar_with code rest.now) }
{
    let character = char::from_u32(code)?;
    Some((character, rest))
}

#[tactic(auto, unfolding(crate::specs::Scans::four_digits_at))]
fn four_digits(text: &[u8]) -> Option<(u32, &[u8])>
    ensures { Gives (λ found. (found.0, found.1.now)) result (four_digits_at text.now) }
{
    let (a, rest) = hex_digit(text)?;
    let (b, rest) = hex_digit(rest)?;
    let (c, rest) = hex_digit(rest)?;
    let (d, rest) = hex_digit(rest)?;
    Some((16 * (16 * (16 * a + b) + c) + d, rest))
}

/// The number of all digits that come, behind one of this value; `None` where it is above U+10FFFF.
fn digits_behind(first: u32, text: &[u8]) -> Option<(u32, &[u8])>
    requires { first < 16 }
    ensures { Gives (λ found. (found.0, found.1.now)) result (digits_behind first text.now) }
{
    let mut value = first;
    let mut rest = text;
    while let [c, behind @ ..] = rest {
        let Some(digit) = hex_value(*c) else {
            break;
        };
        if 0x10FFFF < 16 * value + digit {
            return None;
        }
        value = 16 * value + digit;
        rest = behind;
    }
    Some((value, rest))
}

#[tactic(auto, unfolding(crate::specs::Scans::hex_digit_at))]
fn hex_digit(text: &[u8]) -> Option<(u32, &[u8])>
    ensures digit { Gives (λ found. (found.0, found.1.now)) result (hex_digit_at text.now) }
    ensures bound { IfSome result (λ found. found.0 < 16) }
{
    let [first, rest @ ..] = text else {
        return None;
    };
    let digit = hex_value(*first)?;
    Some((digit, rest))
}

fn hex_value(c: u8) -> Option<u32>
    ensures value { result ≡ hex_digit c }
    ensures bound { IfSome result (λ digit. digit < 16) }
{
    if c.is_ascii_digit() {
        Some(u32::from(c) - 48)
    } else if b'a' <= c && c <= b'f' {
        Some(u32::from(c) - 87)
    } else if b'A' <= c && c <= b'F' {
        Some(u32::from(c) - 55)
    } else {
        None
    }
}
