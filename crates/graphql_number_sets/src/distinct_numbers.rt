//! Lists of different numbers.

ghost use Rattle.std.specs.Prelude.{◌≡◌, ◌+◌, ◌*◌, ◌/◌, ◌<◌, ◌≤◌, ℕ, [], OnErr, OnOk, length, max};
ghost use Rattle.graphql_number_sets.specs.NumberSets.{AreExact, IsAdded, numbers_of, words_of};

use super::bit_sets::BitSet;
use graphql_nodes::ValidationError;
use graphql_steps::Steps;
use std::alloc::Global;
use std::sync::ledger::Ledger;

/// Numbers in the order in which they were added, each once.
#[derive(Debug, Drop)]
pub struct DistinctNumbers {
    pub(crate) numbers: Vec<usize>,
    pub(crate) members: BitSet,
}

impl DistinctNumbers {
    /// No number. It takes no memory.
    pub fn new(alloc: Global) -> DistinctNumbers
        ensures numbers { numbers_of result ≡ [] }
        ensures exact { AreExact result }
        ensures words { words_of result.members ≡ 0 }
    {
        DistinctNumbers {
            numbers: Vec::new(alloc),
            members: BitSet::new(alloc),
        }
    }

    /// Adds a number, unless it is there. The only error is a failed allocation, and then the numbers are those that
    /// were there. It takes two steps, and one for each word that comes to the set of the numbers.
    pub fn add<L: Ledger>(
        &mut self,
        number: usize,
        steps: &mut Steps<L>,
    ) -> Result<(), ValidationError>
        requires { AreExact self.old }
        ensures exact { AreExact self.new }
        ensures added { OnOk result (IsAdded number (numbers_of self.old) (numbers_of self.new)) }
        ensures refused { OnErr result (numbers_of self.new ≡ numbers_of self.old) }
        // It takes no more words than one row of bits for each number that comes to it.
        ensures each { OnOk result ((bound : ℕ) → number < bound →
            words_of self.new.members + length (numbers_of self.old) * (bound / 64 + 1) ≤ words_of self.old.members + length (numbers_of self.new) * (bound / 64 + 1)) }
        ensures words { words_of self.new.members ≤ max (words_of self.old.members) (number / 64 + 1) }
        ensures cost { steps.new + words_of self.old.members ≤ steps.old + words_of self.new.members + 2 }
    {
        steps.take(1);
        if self.members.contains(number) {
            return Ok(());
        }
        self.numbers.push(number)?;
        if let Err(refused) = self.members.insert(number, steps) {
            self.numbers.pop();
            return Err(refused);
        }
        Ok(())
    }

    /// The numbers, in order.
    pub fn as_slice(&self) -> &[usize]
        ensures { result.now ≡ numbers_of self.now }
    {
        &self.numbers
    }
}
