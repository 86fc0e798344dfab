//! Texts in which cuts are made.

ghost use Rattle.std.specs.Prelude.{◌≡◌, ◌++◌, IfOk, IfSome, IsTrue, string_bytes};
ghost use Rattle.std.specs.List.{slice_range};
ghost use Rattle.graphql_kept_texts.specs.Cuts.{kept_bytes, put};

use graphql_blanks::{Part, blank};
use std::alloc::{AllocError, Global};

/// The field that each composite type has.
///
/// Specification: 4.4 Type Name Introspection.
pub(crate) const TYPE_NAME: &str = "__typename";

/// What comes in the place of a part of a text.
#[derive(Clone, Copy, Debug, PartialEq, Eq)]
pub enum Fill {
    /// The bytes of the part that end lines, and spaces.
    Blank,
    /// `__typename`, in the place of as many bytes.
    TypeName,
}

/// A part of a text, and what comes in its place.
#[derive(Clone, Copy, Debug, PartialEq, Eq)]
pub struct Cut {
    pub part: Part,
    pub fill: Fill,
}

/// The text in which these cuts are made. None, if one of them is not in the text behind the one before it, or cuts a character in two. The only error is
/// a failed allocation.
pub fn kept_text(alloc: Global, text: &str, cuts: &[Cut]) -> Result<Option<String>, AllocError>
    ensures { IfOk result (λ kept. IfSome kept (λ it. string_bytes it ≡ kept_bytes text.now cuts.now)) }
{
    let bytes = text.as_bytes();
    let Some(kept) = kept_bytes(alloc, bytes, cuts)? else {
        return Ok(None);
    };
    match String::from_utf8(kept) {
        Ok(kept) => Ok(Some(kept)),
        Err(_) => Ok(None),
    }
}

/// The bytes of the text in which these cuts are made.
fn kept_bytes(alloc: Global, text: &[u8], cuts: &[Cut]) -> Result<Option<Vec<u8>>, AllocError>
    ensures { IfOk result (λ kept. IfSome kept (λ it. it.items ≡ kept_bytes text.now cuts.now)) }
{
    let mut kept = Vec::new(alloc);
    let mut at = 0_usize;
    for cut in cuts {
        if !add_cut(alloc, text, at, *cut, &mut kept)? {
            return Ok(None);
        }
        at = cut.part.end;
    }
    let Some((_, rest)) = text.split_at_checked(at) else {
        return Ok(None);
    };
    kept.extend_from_slice(rest)?;
    Ok(Some(kept))
}

/// Adds the text from this byte up to the end of a cut, which is made. False, if the cut is not in the text behind the byte.
fn add_cut(
    alloc: Global,
    text: &[u8],
    at: usize,
    cut: Cut,
    kept: &mut Vec<u8>,
) -> Result<bool, AllocError>
    ensures { IfOk result (λ added. IsTrue added → kept.new.items ≡ kept.old.items ++ (slice_range text.now at cut.part.start ++ put cut.fill (slice_range text.now cut.part.start cut.part.end))) }
{
    let Some(before) = text.get(at..cut.part.start) else {
        return Ok(false);
    };
    let Some(own) = text.get(cut.part.start..cut.part.end) else {
        return Ok(false);
    };
    kept.extend_from_slice(before)?;
    match cut.fill {
        Fill::Blank => kept.extend_from_slice(&blank(alloc, own)?)?,
        Fill::TypeName => kept.extend_from_slice(TYPE_NAME.as_bytes())?,
    }
    Ok(true)
}
