//! Sets of pairs of numbers.

ghost use Rattle.std.specs.Prelude.{◌≡◌, ◌↔◌, ◌⊎◌, ◌+◌, ◌*◌, ◌/◌, ◌<◌, ◌≤◌, ℕ, All, Contains, IfOk, OnErr, OnOk, false, length, max, true, vec_len};
ghost use Rattle.graphql_number_sets.specs.NumberSets.{AreEnds, AreExact, AreKnown, FitsBelow, HasSomeJoined, HasSomeMore, HasSomeOf, HaveEnd, IsPlaced, KeepsCliques, has, has_pair, numbers_of, words_of};

use super::bit_sets::BitSet;
use super::cliques::Cliques;
use super::distinct_numbers::DistinctNumbers;
use graphql_nodes::ValidationError;
use graphql_steps::Steps;
use std::alloc::Global;
use std::sync::ledger::Ledger;

/// At most so many numbers are added to a row one by one; more are added by whole words. Numbers become a clique only if more of
/// them are ends.
const FEW: usize = 64;

/// Pairs of numbers below a bound: for each first number the set of its second ones. Some cliques, sets of numbers of which
/// each two are a pair, are kept too, so that `ends` need not test their numbers.
#[derive(Debug, Drop)]
pub struct PairSet {
    rows: Vec<BitSet>,
    cliques: Cliques,
}

impl PairSet {
    /// No pair, of so many numbers. The only error is a failed allocation. It takes two steps for each number.
    pub fn new<L: Ledger>(
        alloc: Global,
        count: usize,
        steps: &mut Steps<L>,
    ) -> Result<PairSet, ValidationError>
        ensures count { IfOk result (λ pairs. vec_len pairs.rows ≡ count) }
        ensures empty { IfOk result (λ pairs. (first second : ℕ) → has_pair pairs first second ≡ false) }
        ensures cliques { IfOk result KeepsCliques }
        ensures cost { steps.new ≤ steps.old + 2 * count }
    {
        let mut rows = Vec::new(alloc);
        for _ in 0..count {
            steps.take(1);
            rows.push(BitSet::new(alloc))?;
        }
        let cliques = Cliques::new(alloc, count, steps)?;
        Ok(PairSet { rows, cliques })
    }

    /// Chooses some of the numbers as ends, so that of each two numbers that are no pair, either way round, at least one is an
    /// end. An end is no pair with itself, or with one of the numbers that are no ends. There are no ends if each two numbers
    /// are a pair. The only error is a failed allocation. For each of the numbers it takes at most three steps for each 64
    /// numbers that a pair may have, and thirteen.
    pub fn ends<L: Ledger>(
        &self,
        alloc: Global,
        numbers: &DistinctNumbers,
        steps: &mut Steps<L>,
    ) -> Result<DistinctNumbers, ValidationError>
        requires cliques { KeepsCliques self.now }
        requires within { All (λ number. number < vec_len self.now.rows) (numbers_of numbers.now) }
        ensures exact { IfOk result AreExact }
        ensures ends { IfOk result (λ ends. AreEnds self.now (numbers_of numbers.now) (numbers_of ends)) }
        ensures fits { IfOk result (λ ends. FitsBelow (vec_len self.now.rows) ends.members) }
        ensures cost { steps.new ≤ steps.old + length (numbers_of numbers.now) * (3 * (vec_len self.now.rows / 64) + 13) }
    {
        let mut paired = self.known(alloc, &numbers.numbers, steps)?;
        let mut ends = DistinctNumbers::new(alloc);
        for number in &numbers.numbers {
            self.place(&mut paired, &mut ends, *number, steps)?;
        }
        Ok(ends)
    }

    /// The numbers that are in the clique that holds many of them, if one is found.
    fn known<L: Ledger>(
        &self,
        alloc: Global,
        numbers: &[usize],
        steps: &mut Steps<L>,
    ) -> Result<DistinctNumbers, ValidationError>
        requires cliques { KeepsCliques self.now }
        requires within { All (λ number. number < vec_len self.now.rows) numbers.now }
        ensures exact { IfOk result AreExact }
        ensures known { IfOk result (λ known. AreKnown self.now numbers.now (numbers_of known)) }
        ensures fits { IfOk result (λ known. FitsBelow (vec_len self.now.rows) known.members) }
        ensures cost { steps.new ≤ steps.old + length numbers.now * (vec_len self.now.rows / 64 + 8) }
    {
        match self.cliques.around(numbers, steps) {
            Some(clique) => those_in(alloc, numbers, clique, steps),
            None => Ok(DistinctNumbers::new(alloc)),
        }
    }

    /// Adds a number to those that are pairs with one another, if it is one with each of them and itself, and else to the
    /// ends. Nothing changes if it is among the pairs.
    fn place<L: Ledger>(
        &self,
        paired: &mut DistinctNumbers,
        ends: &mut DistinctNumbers,
        number: usize,
        steps: &mut Steps<L>,
    ) -> Result<(), ValidationError>
        requires within { number < vec_len self.now.rows }
        requires paired { AreExact paired.old }
        requires ends { AreExact ends.old }
        ensures paired { AreExact paired.new }
        ensures ends { AreExact ends.new }
        ensures placed { OnOk result (IsPlaced self.now number (numbers_of paired.old) (numbers_of ends.old) (numbers_of paired.new) (numbers_of ends.new)) }
        ensures paired_words { words_of paired.new.members ≤ max (words_of paired.old.members) (number / 64 + 1) }
        ensures ends_words { words_of ends.new.members ≤ max (words_of ends.old.members) (number / 64 + 1) }
        ensures cost { steps.new + words_of ends.old.members ≤ steps.old + words_of paired.new.members + words_of ends.new.members + 3 }
    {
        steps.take(1);
        if paired.members.contains(number) {
            return Ok(());
        }
        let row = &self.rows[number];
        if !row.contains(number) {
            return ends.add(number, steps);
        }
        if row.contains_all(&paired.members, steps) {
            paired.add(number, steps)
        } else {
            ends.add(number, steps)
        }
    }

    /// Adds each pair of the numbers of which at least one is an end. Then each two of the numbers are a pair, either way round.
    /// The only error is a failed allocation, and then some of these pairs may have been added, and no other. For each of the
    /// numbers, and for each of the ends, it takes at most two steps for each word of the other set, and 66.
    pub fn join<L: Ledger>(
        &mut self,
        numbers: DistinctNumbers,
        ends: &DistinctNumbers,
        steps: &mut Steps<L>,
    ) -> Result<(), ValidationError>
        requires cliques { KeepsCliques self.old }
        requires numbers_exact { AreExact numbers }
        requires ends_exact { AreExact ends.now }
        requires within { All (λ number. number < vec_len self.old.rows) (numbers_of numbers) }
        requires ends { AreEnds self.old (numbers_of numbers) (numbers_of ends.now) }
        ensures count { vec_len self.new.rows ≡ vec_len self.old.rows }
        ensures cliques { KeepsCliques self.new }
        ensures added { OnOk result ((first second : ℕ) → (has_pair self.new first second ≡ true) ↔
            ((has_pair self.old first second ≡ true) ⊎ HaveEnd (numbers_of numbers) (numbers_of ends.now) first second)) }
        ensures refused { OnErr result (HasSomeJoined self.old self.new (numbers_of numbers) (numbers_of ends.now)) }
        ensures cost { steps.new ≤ steps.old + length (numbers_of ends.now) * (2 * words_of numbers.members + 65) + length (numbers_of numbers) * (2 * words_of ends.now.members + 66) }
    {
        self.add_joined(&numbers, ends, steps)?;
        if ends.numbers.len() <= FEW {
            return Ok(());
        }
        self.cliques.add(numbers, steps)
    }

    /// Adds the pairs that `join` adds.
    fn add_joined<L: Ledger>(
        &mut self,
        numbers: &DistinctNumbers,
        ends: &DistinctNumbers,
        steps: &mut Steps<L>,
    ) -> Result<(), ValidationError>
        requires numbers_exact { AreExact numbers.now }
        requires ends_exact { AreExact ends.now }
        requires within { All (λ number. number < vec_len self.old.rows) (numbers_of numbers.now) }
        requires ends_within { All (λ number. number < vec_len self.old.rows) (numbers_of ends.now) }
        ensures count { vec_len self.new.rows ≡ vec_len self.old.rows }
        ensures cliques { KeepsCliques self.old → KeepsCliques self.new }
        ensures added { OnOk result ((first second : ℕ) → (has_pair self.new first second ≡ true) ↔
            ((has_pair self.old first second ≡ true) ⊎ HaveEnd (numbers_of numbers.now) (numbers_of ends.now) first second)) }
        ensures refused { OnErr result (HasSomeJoined self.old self.new (numbers_of numbers.now) (numbers_of ends.now)) }
        ensures cost { steps.new ≤ steps.old + length (numbers_of ends.now) * (2 * words_of numbers.now.members + 65) + length (numbers_of numbers.now) * (2 * words_of ends.now.members + 65) }
    {
        self.add_all(ends, numbers, steps)?;
        self.add_all(numbers, ends, steps)
    }

    /// Adds each pair of one of the first numbers and one of the second ones. The only error is a failed allocation, and then
    /// some of these pairs may have been added, and no other. For each of the first numbers it takes at most two steps for each
    /// word of the set of the second ones, and 65.
    pub fn add_all<L: Ledger>(
        &mut self,
        firsts: &DistinctNumbers,
        seconds: &DistinctNumbers,
        steps: &mut Steps<L>,
    ) -> Result<(), ValidationError>
        requires exact { AreExact seconds.now }
        requires within { All (λ number. number < vec_len self.old.rows) (numbers_of firsts.now) }
        ensures count { vec_len self.new.rows ≡ vec_len self.old.rows }
        ensures cliques { KeepsCliques self.old → KeepsCliques self.new }
        ensures added { OnOk result ((first second : ℕ) → (has_pair self.new first second ≡ true) ↔
            ((has_pair self.old first second ≡ true) ⊎ (Contains (numbers_of firsts.now) first × Contains (numbers_of seconds.now) second))) }
        ensures refused { OnErr result (HasSomeOf self.old self.new (numbers_of firsts.now) (numbers_of seconds.now)) }
        ensures cost { steps.new ≤ steps.old + length (numbers_of firsts.now) * (2 * words_of seconds.now.members + 65) }
    {
        for number in &firsts.numbers {
            steps.take(1);
            add_to_row(&mut self.rows[*number], seconds, steps)?;
        }
        Ok(())
    }
}

/// Adds each of the numbers to a row. The only error is a failed allocation, and then some of them may have been added, and no
/// other.
fn add_to_row<L: Ledger>(
    row: &mut BitSet,
    numbers: &DistinctNumbers,
    steps: &mut Steps<L>,
) -> Result<(), ValidationError>
    requires { AreExact numbers.now }
    ensures added { OnOk result ((number : ℕ) → (has row.new number ≡ true) ↔ ((has row.old number ≡ true) ⊎ Contains (numbers_of numbers.now) number)) }
    ensures refused { OnErr result (HasSomeMore row.old row.new (numbers_of numbers.now)) }
    ensures cost { steps.new ≤ steps.old + 2 * words_of numbers.now.members + 64 }
{
    if numbers.numbers.len() > FEW {
        row.add_all(&numbers.members, steps)
    } else {
        row.insert_each(&numbers.numbers, steps)
    }
}

/// The numbers that are in a set.
fn those_in<L: Ledger>(
    alloc: Global,
    numbers: &[usize],
    set: &BitSet,
    steps: &mut Steps<L>,
) -> Result<DistinctNumbers, ValidationError>
    ensures exact { IfOk result AreExact }
    ensures among { IfOk result (λ those. (number : ℕ) → Contains (numbers_of those) number → Contains numbers.now number × (has set.now number ≡ true)) }
    ensures fits { (bound : ℕ) → All (λ number. number < bound) numbers.now → IfOk result (λ those. FitsBelow bound those.members) }
    ensures cost { (bound : ℕ) → All (λ number. number < bound) numbers.now → steps.new ≤ steps.old + length numbers.now * (bound / 64 + 4) }
{
    let mut those = DistinctNumbers::new(alloc);
    for number in numbers {
        steps.take(1);
        if set.contains(*number) {
            those.add(*number, steps)?;
        }
    }
    Ok(those)
}
