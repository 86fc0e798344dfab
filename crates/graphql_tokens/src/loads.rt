//! How many of sixteen bytes, which are loaded and tested together, are of a class.

ghost use Rattle.std.specs.Prelude.{◌≡◌, ◌≤◌, length};
ghost use Rattle.graphql_tokens.specs.Scans.{first_set, run_in_load};

use crate::characters::Class;
use std::simd::prelude::*;

/// How many bytes are loaded together.
pub(crate) const LANES: usize = 16;

impl Class {
    /// How many bytes of one load are of the class, from the first on.
    #[inline(always)]
    pub(crate) fn run_in_load(self, text: &[u8]) -> usize
        requires { LANES ≤ length text.now }
        ensures { result ≡ run_in_load self text.now }
    {
        match self {
            Class::Blank => blanks(text),
            Class::Comment => comment_bytes(text),
            Class::Digit => digits(text),
            Class::NamePart => name_bytes(text),
            Class::StringText => string_bytes(text),
            Class::BlockText => block_bytes(text),
        }
    }
}

/// The place of the lowest bit that is set, or that behind all lanes.
#[inline(always)]
fn first_set(mask: u64) -> usize
    ensures { result ≡ first_set mask }
{
    if mask == 0 {
        LANES
    } else {
        mask.trailing_zeros() as usize
    }
}

#[inline(always)]
fn blanks(text: &[u8]) -> usize
    requires { LANES ≤ length text.now }
    ensures { result ≡ run_in_load Class.Blank text.now }
{
    let bytes = u8x16::from_slice(text);
    let no_space = bytes.simd_ne(u8x16::splat(b' ')) & bytes.simd_ne(u8x16::splat(b'\t'));
    let no_other = bytes.simd_ne(u8x16::splat(b'\n')) & bytes.simd_ne(u8x16::splat(b','));
    first_set((no_space & no_other).to_bitmask())
}

#[inline(always)]
fn comment_bytes(text: &[u8]) -> usize
    requires { LANES ≤ length text.now }
    ensures { result ≡ run_in_load Class.Comment text.now }
{
    let bytes = u8x16::from_slice(text);
    let controls = bytes.simd_lt(u8x16::splat(b' ')) & bytes.simd_ne(u8x16::splat(b'\t'));
    first_set(controls.to_bitmask())
}

#[inline(always)]
fn digits(text: &[u8]) -> usize
    requires { LANES ≤ length text.now }
    ensures { result ≡ run_in_load Class.Digit text.now }
{
    let bytes = u8x16::from_slice(text);
    let no_digit = (bytes - u8x16::splat(b'0')).simd_ge(u8x16::splat(10));
    first_set(no_digit.to_bitmask())
}

#[inline(always)]
fn name_bytes(text: &[u8]) -> usize
    requires { LANES ≤ length text.now }
    ensures { result ≡ run_in_load Class.NamePart text.now }
{
    let bytes = u8x16::from_slice(text);
    // A capital letter and its small one differ in one bit alone.
    let no_letter = ((bytes | u8x16::splat(0x20)) - u8x16::splat(b'a')).simd_ge(u8x16::splat(26));
    let no_digit = (bytes - u8x16::splat(b'0')).simd_ge(u8x16::splat(10));
    let no_underscore = bytes.simd_ne(u8x16::splat(b'_'));
    first_set((no_letter & no_digit & no_underscore).to_bitmask())
}

#[inline(always)]
fn string_bytes(text: &[u8]) -> usize
    requires { LANES ≤ length text.now }
    ensures { result ≡ run_in_load Class.StringText text.now }
{
    let bytes = u8x16::from_slice(text);
    let controls = bytes.simd_lt(u8x16::splat(b' ')) & bytes.simd_ne(u8x16::splat(b'\t'));
    let marks = bytes.simd_eq(u8x16::splat(b'"')) | bytes.simd_eq(u8x16::splat(b'\\'));
    first_set((controls | marks).to_bitmask())
}

#[inline(always)]
fn block_bytes(text: &[u8]) -> usize
    requires { LANES ≤ length text.now }
    ensures { result ≡ run_in_load Class.BlockText text.now }
{
    let bytes = u8x16::from_slice(text);
    let controls = bytes.simd_lt(u8x16::splat(b' ')) & bytes.simd_ne(u8x16::splat(b'\t'));
    let no_line = bytes.simd_ne(u8x16::splat(b'\n')) & bytes.simd_ne(u8x16::splat(b'\r'));
    let marks = bytes.simd_eq(u8x16::splat(b'"')) | bytes.simd_eq(u8x16::splat(b'\\'));
    first_set(((controls & no_line) | marks).to_bitmask())
}
