//! Messages as they are shown: long ones are cut.

ghost use Rattle.std.specs.Prelude.{IfOk, string_bytes};
ghost use Rattle.graphql_shown_reports.specs.ShownTexts.{IsShownText};

use std::alloc::{AllocError, Global};

/// So many bytes of a message are shown at most.
const LONGEST: usize = 2_000;

/// The message, if it has at most 2,000 bytes; otherwise its first characters, as many as these have room for, and three dots. The
/// only error is a failed allocation.
pub fn shown_text(alloc: Global, message: String) -> Result<String, AllocError>
    ensures { IfOk result (λ shown. IsShownText (string_bytes message) (string_bytes shown)) }
{
    if message.len() <= LONGEST {
        return Ok(message);
    }
    let text = message.as_str();
    let end = text.floor_char_boundary(LONGEST);
    let mut shown = String::from_str(alloc, &text[..end])?;
    shown.push_str("...")?;
    Ok(shown)
}

/// A copy of a message, shown in the same way.
pub fn shown_copy(alloc: Global, message: &str) -> Result<String, AllocError>
    ensures { IfOk result (λ shown. IsShownText message.now (string_bytes shown)) }
{
    shown_text(alloc, String::from_str(alloc, message)?)
}
