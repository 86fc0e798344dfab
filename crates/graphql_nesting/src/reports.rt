//! What is reported of a document that nests too deep.

ghost use Rattle.std.specs.Prelude.{Some};
ghost use Rattle.graphql_nesting.specs.Messages.{nesting_message};

use graphql_nodes::SourceSpan;
use std::fmt;

/// What nests too deep: one definition, or the fragments that lead back to themselves, all together.
#[derive(Clone, Copy, Debug, PartialEq, Eq)]
pub enum NestedPart {
    Definition,
    EndlessFragments,
}

/// A part of a document with more levels of selection sets than it may have.
#[derive(Clone, Copy, Debug, PartialEq, Eq)]
pub struct NestingReport {
    pub part: NestedPart,
    pub levels: usize,
    pub most: usize,
    pub location: Option<SourceSpan>,
}

impl fmt::Display for NestingReport {
    ghost output = { λ report. Some (nesting_message report) };

    fn fmt<W: fmt::Write>(&self, f: &mut fmt::Formatter<W>) -> fmt::Result {
        let levels = self.levels;
        let most = self.most;
        match self.part {
            NestedPart::Definition => write!(f, "nests too deep: {levels} levels, at most {most}"),
            NestedPart::EndlessFragments => write!(
                f,
                "fragments that lead back to themselves nest too deep: {levels} levels together, at most {most}"
            ),
        }
    }
}
