ghost use Rattle.std.specs.Prelude.{◌+◌, ◌^◌, ◌<◌, ◌≤◌};

/// A count that stops at a limit, and the highest count that was asked for.
#[derive(Debug, Drop)]
pub struct LimitCounter {
    limit: usize,
    current: usize,
    high: usize,
    ghost small: { limit + 1 < 2 ^ 64 },
    ghost within: { current ≤ limit },
}

impl LimitCounter {
    ghost use Rattle.std.specs.Prelude.{◌≡◌, ◌+◌, ◌<◌, ◌↔◌, IsTrue, max, if◌then◌else◌};
    ghost use Rattle.graphql_guards.specs.Guards.{count_of, count_limit, highest_of};

    /// A count of nothing, up to this limit.
    pub fn new(limit: usize) -> LimitCounter
        requires { limit < usize.MAX }
        ensures count { count_of result ≡ 0 }
        ensures high { highest_of result ≡ 0 }
        ensures limit { count_limit result ≡ limit }
    {
        LimitCounter {
            limit,
            current: 0,
            high: 0,
        }
    }

    /// Counts one more, unless the limit is reached: then the answer is true, and the count stays.
    pub fn check_and_increment(&mut self) -> bool
        ensures reachable { IsTrue result ↔ (count_of self.old ≡ count_limit self.old) }
        ensures count { count_of self.new ≡ (if result then count_of self.old else count_of self.old + 1) }
        ensures high { highest_of self.new ≡ (if result then count_limit self.old + 1 else max (highest_of self.old) (count_of self.new)) }
        ensures limit { count_limit self.new ≡ count_limit self.old }
    {
        if self.current == self.limit {
            self.high = self.limit + 1;
            return true;
        }
        self.current += 1;
        self.high = self.high.max(self.current);
        false
    }

    /// Counts one less.
    pub fn decrement(&mut self)
        requires { 0 < count_of self.old }
        ensures count { count_of self.new + 1 ≡ count_of self.old }
        ensures high { highest_of self.new ≡ highest_of self.old }
        ensures limit { count_limit self.new ≡ count_limit self.old }
    {
        self.current -= 1;
    }

    /// The highest count that was asked for: one more than the limit where it was reached.
    pub fn high(&self) -> usize
        ensures { result ≡ highest_of self.now }
    {
        self.high
    }
}
