use graphql_nodes::SourceSpan;
use std::fmt;

/// A place as a line names it: `file:start-end`, or `-` where there is none.
#[derive(Clone, Copy)]
pub struct Place(pub Option<SourceSpan>);

impl fmt::Display for Place {
    fn fmt<W: fmt::Write>(&self, f: &mut fmt::Formatter<W>) -> fmt::Result {
        match self.0 {
            Some(span) => write!(f, "{}:{}-{}", span.file_id.0, span.start, span.end),
            None => write!(f, "-"),
        }
    }
}
