//! Parts of texts, and blanks in the place of their bytes.
#![tactic(auto)]

ghost use Rattle.std.specs.Prelude.{◌≡◌, IfOk, map};
ghost use Rattle.graphql_blanks.specs.Blanks.{blank_byte};

use std::alloc::{AllocError, Global};

/// A part of a text: from this byte up to that.
#[derive(Clone, Copy, Debug, PartialEq, Eq)]
pub struct Part {
    pub start: usize,
    pub end: usize,
}

/// Blanks bytes: those that end lines stay, and each other one becomes a space. The only error is a
/// failed allocation.
///
/// Specification: 2.1.3 Line Terminators.
pub fn blank(alloc: Global, bytes: &[u8]) -> Result<Vec<u8>, AllocError>
    ensures { IfOk result (λ blank. blank.items ≡ map blank_byte bytes.now) }
{
    let mut blank = Vec::new(alloc);
    for byte in bytes {
        blank.push(blank_byte(*byte))?;
    }
    Ok(blank)
}

/// A byte that ends a line, as it is, and a space for any other.
///
/// Specification: 2.1.3 Line Terminators.
pub fn blank_byte(byte: u8) -> u8
    ensures { result ≡ blank_byte byte }
{
    if byte == b'\n' || byte == b'\r' {
        byte
    } else {
        b' '
    }
}
