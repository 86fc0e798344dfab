//! What is reported of a document whose operations reach too much.

ghost use Rattle.std.specs.Prelude.{Some};
ghost use Rattle.graphql_reach.specs.Messages.{reach_message};

use graphql_nodes::SourceSpan;
use std::fmt;

/// An operation that, together with those before it, reaches more bytes than the operations of a document may reach.
#[derive(Clone, Copy, Debug, PartialEq, Eq)]
pub struct ReachReport {
    pub bytes: usize,
    pub most: usize,
    pub location: Option<SourceSpan>,
}

impl fmt::Display for ReachReport {
    ghost output = { λ report. Some (reach_message report) };

    fn fmt<W: fmt::Write>(&self, f: &mut fmt::Formatter<W>) -> fmt::Result {
        let bytes = self.bytes;
        let most = self.most;
        write!(
            f,
            "reaches too much: {bytes} bytes with the operations before it, at most {most}"
        )
    }
}
