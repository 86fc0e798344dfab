//! Literals as texts of their own.

ghost use Rattle.std.specs.Prelude.{◌≡◌, ◌<◌, ℕ, All, IfOk, IfSome, IsSome, IsUtf8, length, slice_index, string_bytes};
ghost use Rattle.graphql_literals.specs.Literals.{blank_in, blank_in_any, HasAsciiEdges, HasAsciiEnds, IsBlanked, IsLiteral, IsTextOf};

use crate::literals::Literal;
use graphql_blanks::{Part, blank_byte};
use std::alloc::{AllocError, Global};

/// The text of a literal: the program up to its end, in which all but the literal is blank, and so are its holes. Each byte of the literal has its
/// place of the program, and lines end where they end there. None, if the program has no such literal.
/// The only error is a failed allocation.
///
/// It has the length of the program up to the literal's end: the texts of all literals of a long program take their number times its length.
pub fn text_of_literal(
    alloc: Global,
    program: &str,
    literal: &Literal,
) -> Result<Option<String>, AllocError>
    ensures text { IfOk result (λ text. IfSome text (λ it. IsTextOf program.now literal.now (string_bytes it))) }
    ensures found { IsLiteral program.now literal.now → IfOk result (λ text. IsSome text) }
{
    let Some(prefix) = program.as_bytes().get(..literal.end) else {
        return Ok(None);
    };
    let bytes = blanked(alloc, prefix, literal)?;
    Ok(text_of_bytes(bytes))
}

/// The text, in which all bytes of these parts are blank. None, if a part begins or ends within a character; none does that begins and ends
/// with an ASCII character. The only error is a failed allocation.
pub fn blank_parts(alloc: Global, text: &str, parts: &[Part]) -> Result<Option<String>, AllocError>
    ensures text { IfOk result (λ found. IfSome found (λ it. IsBlanked text.now parts.now (string_bytes it))) }
    ensures found { All (HasAsciiEnds text.now) parts.now → IfOk result (λ found. IsSome found) }
{
    let bytes = without_parts(alloc, text.as_bytes(), parts)?;
    Ok(text_of_bytes(bytes))
}

/// The bytes, in which all of these parts are blank. The only error is a failed allocation.
fn without_parts(alloc: Global, text: &[u8], parts: &[Part]) -> Result<Vec<u8>, AllocError>
    ensures text { IfOk result (λ bytes. IsBlanked text.now parts.now bytes.items) }
    ensures utf8 { IfOk result (λ bytes. IsUtf8 text.now → All (HasAsciiEnds text.now) parts.now → IsUtf8 bytes.items) }
{
    let mut bytes = Vec::new(alloc);
    bytes.extend_from_slice(text)?;
    blank_holes(&mut bytes, parts);
    Ok(bytes)
}

/// The text of these bytes, if they are UTF-8.
fn text_of_bytes(bytes: Vec<u8>) -> Option<String>
    ensures text { IfSome result (λ it. string_bytes it ≡ bytes.items) }
    ensures found { IsUtf8 bytes.items → IsSome result }
{
    String::from_utf8(bytes).ok()
}

/// The bytes, in which all are blank that are not the literal's own. The only error is a failed allocation.
fn blanked(alloc: Global, prefix: &[u8], literal: &Literal) -> Result<Vec<u8>, AllocError>
    requires { length prefix.now ≡ literal.now.end }
    ensures text { IfOk result (λ bytes. IsTextOf prefix.now literal.now bytes.items) }
    ensures utf8 { IfOk result (λ bytes. IsUtf8 prefix.now → HasAsciiEdges prefix.now literal.now → IsUtf8 bytes.items) }
{
    let mut bytes = Vec::new(alloc);
    bytes.extend_from_slice(prefix)?;
    blank_others(&mut bytes, literal);
    Ok(bytes)
}

/// Makes all bytes blank that are not the literal's own.
fn blank_others(bytes: &mut [u8], literal: &Literal)
    requires { length bytes.old ≡ literal.now.end }
    ensures text { IsTextOf bytes.old literal.now bytes.new }
    ensures utf8 { IsUtf8 bytes.old → HasAsciiEdges bytes.old literal.now → IsUtf8 bytes.new }
{
    let before = Part {
        start: 0,
        end: literal.start,
    };
    blank_within(bytes, before);
    blank_holes(bytes, &literal.holes);
}

/// Makes the bytes of all parts blank.
fn blank_holes(bytes: &mut [u8], holes: &[Part])
    ensures long { length bytes.new ≡ length bytes.old }
    ensures each { (k : ℕ) → k < length bytes.old → slice_index bytes.new k ≡ blank_in_any holes.now k (slice_index bytes.old k) }
    ensures utf8 { IsUtf8 bytes.old → All (HasAsciiEnds bytes.old) holes.now → IsUtf8 bytes.new }
{
    for hole in holes {
        blank_within(bytes, *hole);
    }
}

/// Makes the bytes of a part blank.
fn blank_within(bytes: &mut [u8], part: Part)
    ensures long { length bytes.new ≡ length bytes.old }
    ensures each { (k : ℕ) → k < length bytes.old → slice_index bytes.new k ≡ blank_in part k (slice_index bytes.old k) }
{
    for k in part.start..part.end.min(bytes.len()) {
        bytes[k] = blank_byte(bytes[k]);
    }
}
