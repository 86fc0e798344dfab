//! What a call may take.

use graphql_parser::Bounds;

/// What the texts of a call may take, and how many reports its answer has at most: the first ones.
#[derive(Clone, Copy, Debug, PartialEq, Eq)]
pub struct Limits {
    pub bounds: Bounds,
    pub reports: usize,
}

impl Limits {
    /// The default bounds, and every report that is kept.
    pub const DEFAULT: Limits = Limits {
        bounds: Bounds::DEFAULT,
        reports: usize::MAX,
    };
}
