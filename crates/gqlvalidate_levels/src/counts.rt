//! How many reports a run has, and whether it fails.

ghost use Rattle.std.specs.Prelude.{◌↔◌, ◌<◌, ◌⊎◌, IsTrue, IsSomeAnd};
ghost use Rattle.gqlvalidate_levels.specs.Levels.{Fails};

/// How many reports there are that are shown, or would be.
#[derive(Clone, Copy, Debug, PartialEq, Eq)]
pub struct Counts {
    pub errors: usize,
    pub warnings: usize,
}

impl Counts {
    /// Adds these counts to others. A sum stops at `usize::MAX`.
    pub fn and(self, others: Counts) -> Counts {
        Counts {
            errors: self.errors.saturating_add(others.errors),
            warnings: self.warnings.saturating_add(others.warnings),
        }
    }

    /// Whether a run with these reports fails: one is an error, or more are warnings than may be.
    pub fn fails(self, max_warnings: Option<usize>) -> bool
        ensures { IsTrue result ↔ Fails self.errors self.warnings max_warnings }
    {
        if self.errors > 0 {
            return true;
        }
        match max_warnings {
            Some(most) => self.warnings > most,
            None => false,
        }
    }
}
