//! Messages with what helps, for formats that have no place of its own for that.

use gqlvalidate_texts::Finding;
use std::fmt;

/// The message of a finding, and behind it in brackets what helps, if something does.
#[derive(Clone, Copy)]
pub struct Helped<'a>(pub &'a Finding<'a>);

impl fmt::Display for Helped<'_> {
    fn fmt<W: fmt::Write>(&self, f: &mut fmt::Formatter<W>) -> fmt::Result {
        f.write_str(self.0.report.message.as_str())?;
        match &self.0.help {
            Some(help) => write!(f, " ({help})"),
            None => Ok(()),
        }
    }
}
