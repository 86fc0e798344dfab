//! How much a list of reports keeps.

ghost use Rattle.std.specs.Prelude.{◌≡◌, ◌+◌, IfSome, length};
ghost use Rattle.graphql_diagnostics.specs.Bounds.{Leaves};

use std::fmt;
use std::fmt::Write;

/// How much a list of reports keeps.
#[derive(Clone, Copy, Debug, PartialEq, Eq)]
pub struct ReportBound {
    /// The most reports.
    pub reports: usize,
    /// The most bytes of their messages in UTF-8, all together.
    pub bytes: usize,
}

impl ReportBound {
    /// Nothing more is kept.
    pub const NOTHING: ReportBound = ReportBound {
        reports: 0,
        bytes: 0,
    };

    /// What may be kept beside a report with this message; `None` if the report is one too many or its message is too long.
    pub fn after<M: fmt::Display + Drop>(self, message: M) -> Option<ReportBound>
        ensures { IfSome result (λ left. IfSome (M.output message) (λ text. Leaves self text left)) }
    {
        let reports = self.reports.checked_sub(1)?;
        let mut room = Room { bytes: self.bytes };
        match room.write(message) {
            Ok(()) => Some(ReportBound {
                reports,
                bytes: room.bytes,
            }),
            Err(fmt::Error) => None,
        }
    }
}

/// A writer that keeps nothing: it fails at a text that is longer than the room that is left.
#[derive(Drop)]
struct Room {
    bytes: usize,
}

impl fmt::Write for Room {
    ghost write_str_gives = { λ old text new. new.bytes + length text ≡ old.bytes };

    fn write_str(&mut self, text: &str) -> fmt::Result {
        match self.bytes.checked_sub(text.len()) {
            Some(left) => {
                self.bytes = left;
                Ok(())
            }
            None => Err(fmt::Error),
        }
    }
}
