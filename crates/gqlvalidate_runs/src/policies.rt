//! Which reports are errors, and which are not shown.

use gqlvalidate_levels::Levels;

/// What a user says of the reports of a run.
#[derive(Clone, Copy)]
pub struct Policy<'a> {
    /// The levels of rules.
    pub levels: &'a Levels,
    /// There may be so many warnings; any number, if none is given.
    pub max_warnings: Option<usize>,
}
