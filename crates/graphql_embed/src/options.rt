//! What a caller may ask of a call.

ghost use Rattle.std.specs.Prelude.{◌≡◌, MatchResult};
ghost use Rattle.graphql_embed.specs.Options.{AreWhole, bounds_of, limits_of, or_default};

use graphql_answers::{Limits, Refusal};
use graphql_parser::Bounds;

/// What a call may take. A number that is 0 says the default.
#[repr(C)]
#[derive(Clone, Copy)]
pub struct Options {
    /// How many bytes the caller's options have. A later version may add numbers at the end.
    pub size: usize,
    /// How many brackets and braces open in one another.
    pub depth: usize,
    /// How many tokens a text has.
    pub tokens: usize,
    /// How many bytes the operations of a document reach for each byte of its text.
    pub reach: usize,
    /// How much work the search for fields takes that cannot be merged.
    pub work: usize,
    /// How many reports an answer has: the first ones.
    pub max_reports: usize,
}

/// How many bytes these options have.
const SIZE: usize = 48;

impl Options {
    /// The limits that the options say, if they are whole.
    pub fn limits(&self) -> Result<Limits, Refusal>
        ensures { MatchResult result (λ limits. limits ≡ limits_of self.now) (λ refusal. (refusal ≡ Refusal.ShortOptions) × ¬ AreWhole self.now) }
    {
        if self.size < SIZE {
            return Err(Refusal::ShortOptions);
        }
        Ok(Limits {
            bounds: self.bounds(),
            reports: or_default(self.max_reports, Limits::DEFAULT.reports),
        })
    }

    fn bounds(&self) -> Bounds
        ensures { result ≡ bounds_of self.now }
    {
        Bounds {
            tokens: or_default(self.tokens, Bounds::DEFAULT.tokens),
            depth: or_default(self.depth, Bounds::DEFAULT.depth),
            reach: or_default(self.reach, Bounds::DEFAULT.reach),
            work: or_default(self.work, Bounds::DEFAULT.work),
            ..Bounds::DEFAULT
        }
    }
}

fn or_default(given: usize, default: usize) -> usize
    ensures { result ≡ or_default given default }
{
    if given == 0 { default } else { given }
}
