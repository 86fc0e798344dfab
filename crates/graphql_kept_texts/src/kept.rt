//! What is left of the text of a document.

ghost use Rattle.std.specs.Prelude.{◌≡◌, IfOk, IfSome, None};
ghost use Rattle.graphql_kept_texts.specs.Cuts.{IsKeptOf, is_type_name};
ghost use Rattle.graphql_kept_texts.specs.Faults.{HasNothing};
ghost use Rattle.std.specs.List.{list_any};

use crate::cuts::{Cut, Fill, kept_text};
use crate::faults::Faults;
use crate::walks::cuts_of;
use graphql_trees::Document;
use std::alloc::{AllocError, Global};

/// What is left of a text.
#[derive(Drop)]
pub struct Kept {
    pub text: String,
    /// `__typename` is in the place of a part.
    pub has_type_name: bool,
}

/// What is left of the text of a document without what is at fault. None, if nothing is, or it cannot be left out. The only error is a
/// failed allocation.
pub fn kept_of(
    alloc: Global,
    text: &str,
    document: &Document,
    faults: &Faults,
) -> Result<Option<Kept>, AllocError>
    ensures kept { IfOk result (λ kept. IfSome kept (IsKeptOf text.now)) }
    ensures whole { HasNothing faults.now → IfOk result (λ kept. kept ≡ None) }
{
    let cuts = cuts_of(alloc, text, document, faults)?;
    if cuts.is_empty() {
        return Ok(None);
    }
    let Some(text) = kept_text(alloc, text, &cuts)? else {
        return Ok(None);
    };
    let has_type_name = has_type_name(&cuts);
    Ok(Some(Kept {
        text,
        has_type_name,
    }))
}

/// Whether `__typename` comes in the place of one of the parts.
fn has_type_name(cuts: &[Cut]) -> bool
    ensures { result ≡ list_any is_type_name cuts.now }
{
    cuts.iter().any(is_type_name)
}

/// Whether `__typename` comes in the place of the part.
fn is_type_name(cut: &Cut) -> bool
    ensures { result ≡ is_type_name cut.now }
{
    matches!(cut.fill, Fill::TypeName)
}
