use crate::DEFAULT_RECURSION_LIMIT;
use graphql_nodes::RecursionLimitError;
use std::ops::{Deref, DerefMut};

/// How deep a walk is, and how deep it may go.
#[derive(Debug, Drop)]
pub struct DepthCounter {
    depth: usize,
    limit: usize,
}

/// A step of a walk. It stands for its counter, and the depth falls again where it is dropped, if it
/// rose for it. A step below is `guard.increment()`; a caller whose contract speaks of the depth
/// after that step writes `guard.counter.increment()`.
pub struct DepthGuard<'a> {
    pub counter: &'a mut DepthCounter,
    raised: bool,
}

impl DepthCounter {
    ghost use Rattle.std.specs.Prelude.{◌≡◌, ◌+◌, ◌<◌, ◌≤◌, false, true, IfOk, MatchResult};
    ghost use Rattle.std.specs.Borrow.{sem};
    ghost use Rattle.graphql_guards.specs.Guards.{depth_of, depth_limit};
    ghost use Rattle.graphql_guards.specs.GuardLoans.{CounterRestsIfErr};

    /// A depth of nothing.
    pub fn new() -> DepthCounter
        ensures depth { depth_of result ≡ 0 }
        ensures limit { depth_limit result ≡ 32 }
    {
        DepthCounter {
            depth: 0,
            limit: DEFAULT_RECURSION_LIMIT,
        }
    }

    /// Changes the limit: the depth may rise to this one. The depth stays.
    pub fn with_limit(self, limit: usize) -> DepthCounter
        ensures depth { depth_of result ≡ depth_of self }
        ensures limit { depth_limit result ≡ limit }
    {
        DepthCounter {
            depth: self.depth,
            limit,
        }
    }

    /// A guard over the counter, for which the depth does not rise.
    pub fn guard(&mut self) -> DepthGuard<'_>
        ensures same_reference { result.counter.ghost_name ≡ self.entry.ghost_name }
        ensures counter { result.counter.now ≡ self.old }
        ensures raised { result.raised ≡ false }
    {
        DepthGuard {
            counter: self,
            raised: false,
        }
    }

    /// One step deeper, while the guard lives. The answer is an error exactly where the depth already is
    /// the limit, and then the counter stays.
    pub fn increment(&mut self) -> Result<DepthGuard<'_>, RecursionLimitError>
        ensures* rests { sem 𝓛 (CounterRestsIfErr self.entry result) }
        ensures same_reference { IfOk result (λ child. child.counter.ghost_name ≡ self.entry.ghost_name) }
        ensures bound { MatchResult result (λ child. depth_of self.old < depth_limit self.old) (λ e. depth_limit self.old ≤ depth_of self.old) }
        ensures depth { IfOk result (λ child. depth_of child.counter.now ≡ depth_of self.old + 1) }
        ensures limit { IfOk result (λ child. depth_limit child.counter.now ≡ depth_limit self.old) }
        ensures raised { IfOk result (λ child. child.raised ≡ true) }
    {
        if self.depth >= self.limit {
            return Err(RecursionLimitError);
        }
        self.depth += 1;
        Ok(DepthGuard {
            counter: self,
            raised: true,
        })
    }
}

impl Deref for DepthGuard<'_> {
    type Target = DepthCounter;

    ghost use Rattle.std.specs.Prelude.{◌≡◌};

    ghost deref_gives = { λ guard counter. counter ≡ guard.counter.now };

    fn deref(&self) -> &DepthCounter {
        &*self.counter
    }
}

impl DerefMut for DepthGuard<'_> {
    ghost use Rattle.std.specs.Prelude.{◌≡◌};
    ghost use Rattle.std.specs.Borrow.{sem};
    ghost use Rattle.graphql_guards.specs.GuardLoans.{LendsCounter};

    ghost deref_mut_gives = { λ guard counter. counter ≡ guard.counter.now };

    fn deref_mut(&mut self) -> &mut DepthCounter
        ensures* writes_back { sem 𝓛 (LendsCounter self.entry result) }
        ensures value { result.now ≡ self.old.counter.now }
    {
        self.counter
    }
}

impl Drop for DepthGuard<'_> {
    ghost use Rattle.std.specs.Prelude.{◌≡◌, ◌-◌, if◌then◌else◌};
    ghost use Rattle.graphql_guards.specs.Guards.{depth_of, depth_limit};

    fn drop(self)
        ensures depth { depth_of self.exit.0.now ≡ (if self.entry.raised then depth_of self.entry.counter.now - 1 else depth_of self.entry.counter.now) }
        ensures limit { depth_limit self.exit.0.now ≡ depth_limit self.entry.counter.now }
    {
        let DepthGuard { counter, raised } = self;
        if raised {
            counter.depth = counter.depth.saturating_sub(1);
        }
    }
}
