//! The colours of text, and its width.

/// The escape sequences that colour parts of a report.
#[derive(Clone, Copy)]
pub struct Style {
    pub strong: &'static str,
    pub error: &'static str,
    pub warning: &'static str,
    pub note: &'static str,
    pub margin: &'static str,
    /// What ends each of them.
    pub end: &'static str,
    /// How many columns a line of source has at most, unless it would be too short to read.
    pub columns: usize,
}

impl Style {
    /// That of a terminal, or one without any sequences, with so many columns.
    pub fn new(colored: bool, columns: usize) -> Style {
        if colored {
            Style {
                strong: "\x1b[1m",
                error: "\x1b[1;31m",
                warning: "\x1b[1;33m",
                note: "\x1b[1;32m",
                margin: "\x1b[1;34m",
                end: "\x1b[0m",
                columns,
            }
        } else {
            Style {
                strong: "",
                error: "",
                warning: "",
                note: "",
                margin: "",
                end: "",
                columns,
            }
        }
    }
}
