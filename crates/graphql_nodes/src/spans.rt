/// The number of a source file.
#[derive(Clone, Copy, Debug, PartialEq, Eq, Hash)]
pub struct FileId(pub u32);

impl FileId {
    /// The file of the definitions that every schema has.
    pub const BUILT_IN: FileId = FileId(0);
}

/// A part of a source file: the bytes from `start` up to `end`.
#[derive(Clone, Copy, Debug, PartialEq, Eq, Hash)]
pub struct SourceSpan {
    pub file_id: FileId,
    pub start: u32,
    pub end: u32,
}

impl SourceSpan {
    ghost use Rattle.std.specs.Prelude.{◌≡◌};
    ghost use Rattle.graphql_nodes.specs.Spans.{joined, recompose};

    /// One part made of two that may be missing: the one that is there; with both, from the start of the left
    /// to the end of the right. Where they are in two files it is the right one, and where the right one ends
    /// before the left one starts, the left one.
    pub fn recompose(left: Option<SourceSpan>, right: Option<SourceSpan>) -> Option<SourceSpan>
        ensures { result ≡ recompose left right }
    {
        match (left, right) {
            (None, span) | (span, None) => span,
            (Some(a), Some(b)) => Some(a.joined(b)),
        }
    }

    fn joined(self, right: SourceSpan) -> SourceSpan
        ensures { result ≡ joined self right }
    {
        if self.file_id.0 != right.file_id.0 {
            return right;
        }
        if right.end < self.start {
            return self;
        }
        SourceSpan {
            file_id: self.file_id,
            start: self.start,
            end: right.end,
        }
    }
}
