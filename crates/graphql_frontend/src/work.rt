//! What is reported of a document whose fields take too much work to compare.

ghost use Rattle.std.specs.Prelude.{Some};
ghost use Rattle.graphql_frontend.specs.Work.{work_message};

use graphql_nodes::SourceSpan;
use std::fmt;

/// A document whose fields take more work to compare than the bounds allow. Its first operation is named.
#[derive(Clone, Copy, Debug, PartialEq, Eq)]
pub struct WorkReport {
    /// How much work was counted when the search ended.
    pub counted: usize,
    /// How much the bounds allow.
    pub most: usize,
    /// The place of the first operation.
    pub location: Option<SourceSpan>,
}

impl fmt::Display for WorkReport {
    ghost output = { λ report. Some (work_message report) };

    fn fmt<W: fmt::Write>(&self, f: &mut fmt::Formatter<W>) -> fmt::Result {
        let counted = self.counted;
        let most = self.most;
        write!(
            f,
            "takes too much: {counted} steps to compare the fields that come together, at most {most}"
        )
    }
}
