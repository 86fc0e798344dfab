/// What a text may take of its reader, and of a validator.
#[derive(Clone, Copy, Debug, PartialEq, Eq)]
pub struct Bounds {
    /// How many tokens. Comments and other ignored tokens do not count.
    pub tokens: usize,
    /// How many brackets and braces open in one another, and how many selection sets are in one
    /// another, spreads of fragments gone into.
    pub depth: usize,
    /// How many bytes the operations of a document reach for each byte of its text: a fragment counts
    /// for each operation that reaches it. Nothing that is read by itself is refused for this.
    pub reach: usize,
    /// How much work the search for fields that cannot be merged may take: it counts at least each selection, each pair of
    /// fields and each row of a set that it goes through.
    pub work: usize,
    /// How many reports on a schema or a document are kept.
    pub reports: usize,
    /// How many bytes the messages of the reports on a schema or a document have that are kept.
    pub report_bytes: usize,
}

impl Bounds {
    /// Any number of tokens, 500 levels, a reach of 4 bytes for each, as much work as takes about a second, and 1,000 reports
    /// of a megabyte.
    pub const DEFAULT: Bounds = Bounds {
        tokens: usize::MAX,
        depth: 500,
        reach: 4,
        work: 160_000_000,
        reports: 1_000,
        report_bytes: 1_000_000,
    };
}
