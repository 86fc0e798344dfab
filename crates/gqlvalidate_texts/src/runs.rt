//! What a run was.

/// What is said at the end of a run.
#[derive(Clone, Copy)]
pub struct Run<'a> {
    /// How many findings are not shown.
    pub not_shown: usize,
    /// How many findings are not shown because comments ignore them.
    pub ignored: usize,
    /// How many files the schema has.
    pub schema_files: usize,
    /// How many documents were checked.
    pub documents: usize,
    /// How many files have no token, and were skipped.
    pub empty: usize,
    /// The files that could not be read.
    pub unreadable: &'a [&'a str],
}

/// What is said of a file that could not be read.
pub const UNREADABLE: &str = "the file could not be read";

/// The name of that, as of a rule.
pub const UNREADABLE_RULE: &str = "Unreadable";
