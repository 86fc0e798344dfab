//! What documents may take of the program, and how many reports it keeps.

ghost use Rattle.std.specs.Prelude.{◌≡◌, ◌≤◌};

use gqlvalidate_words::Limits;
use graphql_parser::Bounds;

/// How many reports of an answer are kept, unless more are shown.
const LEAST_KEPT: usize = 1_000;

/// How many bytes the messages of an answer may have, for each report that is kept.
const BYTES_FOR_EACH: usize = 1_000;

/// How many reports of each kind are kept of a document or a schema from files: a few kilobytes of text may break rules millions of times.
const MOST_REPORTS: usize = 250_000;

/// How many bytes the messages of these reports may have, 16 MiB: a name of a megabyte may be in each of thousands.
const MOST_BYTES: usize = 1 << 24;

/// The bounds of a schema from files: the first 250,000 reports are kept, if their messages have at most 16 MiB together.
pub const OF_SCHEMA: Bounds = Bounds {
    tokens: usize::MAX,
    depth: 500,
    reach: 4,
    work: usize::MAX,
    reports: MOST_REPORTS,
    report_bytes: MOST_BYTES,
};

/// The bounds of documents from files, as the command line says. A document may have any number of tokens. The first 250,000
/// reports are kept, if their messages have at most 16 MiB together.
pub fn bounds_of(limits: Limits) -> Bounds
    ensures depth { result.depth ≡ limits.depth }
    ensures reach { result.reach ≡ limits.reach }
    ensures work { result.work ≡ limits.work }
{
    Bounds {
        tokens: usize::MAX,
        depth: limits.depth,
        reach: limits.reach,
        work: limits.work,
        reports: MOST_REPORTS,
        report_bytes: MOST_BYTES,
    }
}

/// The bounds of documents that are answered one after another, of which so many reports are shown: at least as many are kept.
pub fn bounds_of_answers(limits: Limits, shown: usize) -> Bounds
    ensures depth { result.depth ≡ limits.depth }
    ensures reach { result.reach ≡ limits.reach }
    ensures work { result.work ≡ limits.work }
    ensures reports { shown ≤ result.reports }
{
    let reports = shown.max(LEAST_KEPT);
    Bounds {
        reports,
        report_bytes: reports.saturating_mul(BYTES_FOR_EACH),
        ..bounds_of(limits)
    }
}
