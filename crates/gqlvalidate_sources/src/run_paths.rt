//! The files of a run.

use gqlvalidate_runs::policies::Policy;
use gqlvalidate_words::requests::STANDARD_INPUT;
use gqlvalidate_words::{Dialect, Grouping};
use graphql_literals::is_program;
use graphql_parser::Bounds;

/// The paths of a run, and what its documents may take.
#[derive(Clone, Copy)]
pub struct Paths<'a> {
    pub schema: &'a [&'a str],
    pub documents: &'a [&'a str],
    /// The files whose fragments are lent.
    pub fragments: &'a [&'a str],
    /// Of all these the files whose reports are not shown.
    pub hidden: &'a [&'a str],
    /// No file of the run is missing, for all that is known before they are read.
    pub is_all: bool,
    /// The document whose text is that of standard input.
    pub from_stdin: Option<&'a str>,
    /// Which documents are validated together.
    pub grouping: Grouping,
    /// What a document may take.
    pub bounds: Bounds,
    /// Which reports are errors, and which are not shown.
    pub policy: Policy<'a>,
    /// What the schema and the documents mean beyond the specification.
    pub dialect: Dialect,
}

impl Paths<'_> {
    /// How many documents there are.
    pub fn count(&self) -> usize {
        match self.grouping {
            Grouping::OneDocument => 1,
            Grouping::Each | Grouping::Project => self.documents.len(),
        }
    }

    /// Whether the run is of one document, which has no other fragments than its own.
    pub fn is_of_one(&self) -> bool {
        self.is_all
            && self.documents.len() == 1
            && self.fragments.is_empty()
            && self.hidden.is_empty()
            && self.program().is_none()
            && self.dialect.client.is_none()
    }

    /// What is read for a document: its file, unless standard input has its text.
    pub fn source<'b>(&self, path: &'b str) -> &'b str {
        if self.from_stdin == Some(path) {
            STANDARD_INPUT
        } else {
            path
        }
    }

    /// The first of the documents that is a program.
    pub fn program(&self) -> Option<&str> {
        self.documents.iter().copied().find(|path| is_program(path))
    }
}
