//! Sets of numbers.

ghost use Rattle.std.specs.Prelude.{◌≡◌, ◌↔◌, ◌⊎◌, ◌+◌, ◌*◌, ◌/◌, ◌<◌, ◌≤◌, ℕ, All, Contains, IsFalse, IsTrue, OnErr, OnOk, false, length, max, true, vec_len};
ghost use Rattle.graphql_number_sets.specs.NumberSets.{HasSomeMore, has, word_at, words_of};

use graphql_nodes::ValidationError;
use graphql_steps::Steps;
use std::alloc::Global;
use std::sync::ledger::Ledger;

/// A set of numbers, a bit for each: two are compared and joined 64 numbers at a time. It takes memory by its
/// greatest number.
#[derive(Debug, Drop)]
pub struct BitSet {
    words: Vec<u64>,
}

impl BitSet {
    /// The empty set. It takes no memory.
    pub fn new(alloc: Global) -> BitSet
        ensures empty { (number : ℕ) → has result number ≡ false }
        ensures words { words_of result ≡ 0 }
    {
        BitSet {
            words: Vec::new(alloc),
        }
    }

    /// Whether the number is in the set.
    pub fn contains(&self, number: usize) -> bool
        ensures { result ≡ has self.now number }
    {
        (self.word(number / 64) >> (number % 64)) & 1 == 1
    }

    /// Whether each number of the other set is in this one. It takes a step for each word of the other set that it reads.
    pub fn contains_all<L: Ledger>(&self, other: &BitSet, steps: &mut Steps<L>) -> bool
        ensures all { IsTrue result → (number : ℕ) → has other.now number ≡ true → has self.now number ≡ true }
        ensures one { IsFalse result → (number : ℕ) × (has other.now number ≡ true) × (has self.now number ≡ false) }
        ensures cost { steps.new ≤ steps.old + words_of other.now }
    {
        for (place, word) in other.words.iter().enumerate() {
            steps.take(1);
            if *word & !self.word(place) != 0 {
                return false;
            }
        }
        true
    }

    /// Adds a number. The only error is a failed allocation, and then the set has the numbers that it had. It takes a step, and
    /// one for each word that comes to the set.
    pub fn insert<L: Ledger>(
        &mut self,
        number: usize,
        steps: &mut Steps<L>,
    ) -> Result<(), ValidationError>
        ensures added { OnOk result ((other : ℕ) → (has self.new other ≡ true) ↔ ((has self.old other ≡ true) ⊎ (other ≡ number))) }
        ensures refused { OnErr result ((other : ℕ) → has self.new other ≡ has self.old other) }
        ensures words { words_of self.new ≤ max (words_of self.old) (number / 64 + 1) }
        ensures cost { steps.new + words_of self.old ≤ steps.old + words_of self.new + 1 }
    {
        steps.take(1);
        let place = number / 64;
        self.make_words(place + 1, steps)?;
        self.words[place] |= 1 << (number % 64);
        Ok(())
    }

    /// Adds each of some numbers. The only error is a failed allocation, and then some of the numbers may have been added,
    /// and no other. It takes a step for each number, and one for each word that comes to the set.
    pub(crate) fn insert_each<L: Ledger>(
        &mut self,
        numbers: &[usize],
        steps: &mut Steps<L>,
    ) -> Result<(), ValidationError>
        ensures added { OnOk result ((number : ℕ) → (has self.new number ≡ true) ↔ ((has self.old number ≡ true) ⊎ Contains numbers.now number)) }
        ensures refused { OnErr result (HasSomeMore self.old self.new numbers.now) }
        ensures words { (most : ℕ) → All (λ number. number / 64 < most) numbers.now → words_of self.new ≤ max (words_of self.old) most }
        ensures cost { steps.new + words_of self.old ≤ steps.old + words_of self.new + length numbers.now }
    {
        for number in numbers {
            self.insert(*number, steps)?;
        }
        Ok(())
    }

    /// Adds each number of another set. The only error is a failed allocation, and then the set has the numbers that
    /// it had. It takes a step for each word of the other set, and one for each word that comes to this one.
    pub fn add_all<L: Ledger>(
        &mut self,
        other: &BitSet,
        steps: &mut Steps<L>,
    ) -> Result<(), ValidationError>
        ensures added { OnOk result ((number : ℕ) → (has self.new number ≡ true) ↔ ((has self.old number ≡ true) ⊎ (has other.now number ≡ true))) }
        ensures refused { OnErr result ((number : ℕ) → has self.new number ≡ has self.old number) }
        ensures cost { steps.new ≤ steps.old + 2 * words_of other.now }
    {
        self.make_words(other.words.len(), steps)?;
        for (place, word) in other.words.iter().enumerate() {
            steps.take(1);
            self.words[place] |= *word;
        }
        Ok(())
    }

    /// Has at least so many words from now on, and the same numbers. It takes a step for each word that comes to the set.
    fn make_words<L: Ledger>(
        &mut self,
        count: usize,
        steps: &mut Steps<L>,
    ) -> Result<(), ValidationError>
        ensures length { OnOk result (count ≤ vec_len self.new.words) }
        ensures most { words_of self.new ≤ max (words_of self.old) count }
        ensures cost { steps.new + words_of self.old ≡ steps.old + words_of self.new }
        ensures words { (place : ℕ) → word_at self.new.words.items place ≡ word_at self.old.words.items place }
    {
        self.reserve_words(count)?;
        while self.words.len() < count {
            self.words.push(0)?;
            steps.take(1);
        }
        Ok(())
    }

    /// Makes room for so many words. If this takes more memory, there is at most an eighth to spare, because large sets are many.
    fn reserve_words(&mut self, count: usize) -> Result<(), ValidationError>
        ensures { self.new.words.items ≡ self.old.words.items }
    {
        let length = self.words.len();
        let further = count.saturating_sub(length);
        if further > 0 {
            self.words.reserve_exact(further.max(length / 8))?;
        }
        Ok(())
    }

    /// The word at this place, or one without numbers behind the last.
    fn word(&self, place: usize) -> u64
        ensures { result ≡ word_at self.now.words.items place }
    {
        match self.words.get(place) {
            Some(word) => *word,
            None => 0,
        }
    }
}
