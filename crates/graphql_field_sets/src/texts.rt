//! Field sets as texts.

ghost use Rattle.std.specs.Prelude.{◌≡◌, IfOk, replicate, string_bytes};
ghost use Rattle.graphql_field_sets.specs.Texts.{fragment_text};

use std::alloc::{AllocError, Global};

/// What is before the name of the type in the fragment that a field set becomes.
const HEAD: &str = "fragment F on ";

/// The text of a fragment on this type that selects these fields, in which the brace that opens its selection set is at this byte: what is before the
/// fragment is blank. So the fields of a plain string have their own places in the text of a schema, if the brace is in the place of its quote. If there
/// is no room, the brace comes as soon as it can. The only error is a failed allocation.
pub fn text_of_field_set(
    alloc: Global,
    ty: &str,
    fields: &str,
    brace: usize,
) -> Result<String, AllocError>
    ensures { IfOk result (λ text. string_bytes text ≡ fragment_text ty.now fields.now brace) }
{
    let before = HEAD.len().saturating_add(ty.len());
    let mut text = blanks(alloc, brace.saturating_sub(before))?;
    text.push_str(HEAD)?;
    text.push_str(ty)?;
    text.push_str("{")?;
    text.push_str(fields)?;
    text.push_str("}")?;
    Ok(text)
}

/// As many spaces.
fn blanks(alloc: Global, count: usize) -> Result<String, AllocError>
    ensures { IfOk result (λ text. string_bytes text ≡ replicate count 32) }
{
    let mut text = String::new(alloc);
    for _turn in 0..count {
        text.push_str(" ")?;
    }
    Ok(text)
}
