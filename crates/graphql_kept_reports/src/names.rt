//! Sets of names.

ghost use Rattle.std.specs.Prelude.{◌≡◌, ◌||◌, List, OnOk, ℕ};
ghost use Rattle.std.specs.BTreeSet.{contains_text};
ghost use Rattle.std.specs.Str.{bytes_eq};

use std::alloc::{AllocError, Global};
use std::collections::BTreeSet;

/// Adds a name, unless it is among these.
pub(crate) fn add_name(
    alloc: Global,
    name: &str,
    names: &mut BTreeSet<String>,
) -> Result<(), AllocError>
    ensures { OnOk result ((text : List ℕ) → contains_text names.new text ≡ (contains_text names.old text || bytes_eq name.now text)) }
{
    if !names.contains(name) {
        names.insert(String::from_str(alloc, name)?)?;
    }
    Ok(())
}
