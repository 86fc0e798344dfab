//! Whether patterns stand for paths.

ghost use Rattle.std.specs.Prelude.{◌↔◌, IfOk, IsTrue};
ghost use Rattle.std.specs.Str.{chars};
ghost use Rattle.gqlvalidate_patterns.specs.Patterns.{Matches, Selects};

use super::characters::characters_of;
use super::patterns::Pattern;
use super::rows::{no_marks, row_behind_part};
use std::alloc::{AllocError, Global};

/// Whether the pattern stands for these characters.
fn matches_characters(alloc: Global, pattern: &Pattern, path: &[char]) -> Result<bool, AllocError>
    ensures { IfOk result (λ matches. IsTrue matches ↔ Matches pattern.now path.now) }
{
    let mut row = no_marks(alloc, path.len() + 1)?;
    row[0] = true;
    for part in &pattern.parts {
        row = row_behind_part(alloc, part, path, &row)?;
    }
    Ok(row[path.len()])
}

/// Whether the patterns select these characters.
fn selects_characters(
    alloc: Global,
    patterns: &[Pattern],
    path: &[char],
) -> Result<bool, AllocError>
    ensures { IfOk result (λ selects. IsTrue selects ↔ Selects patterns.now path.now) }
{
    let mut selects = false;
    for pattern in patterns {
        if matches_characters(alloc, pattern, path)? {
            selects = !pattern.takes_out;
        }
    }
    Ok(selects)
}

impl Pattern {
    /// Whether the pattern stands for the path, whose names have `/` between them.
    ///
    /// The only error is a failed allocation. The time is that of as many passes over the path as the pattern has pieces.
    pub fn matches(&self, alloc: Global, path: &str) -> Result<bool, AllocError>
        ensures { IfOk result (λ matches. IsTrue matches ↔ Matches self.now (chars path.now)) }
    {
        let characters = characters_of(alloc, path)?;
        matches_characters(alloc, self, &characters)
    }
}

/// Whether the patterns select the path: the last one that stands for it does not begin with `!`.
///
/// The only error is a failed allocation.
pub fn selects(alloc: Global, patterns: &[Pattern], path: &str) -> Result<bool, AllocError>
    ensures { IfOk result (λ selects. IsTrue selects ↔ Selects patterns.now (chars path.now)) }
{
    let characters = characters_of(alloc, path)?;
    selects_characters(alloc, patterns, &characters)
}
