//! Selection sets whose fields come together.

ghost use Rattle.std.specs.Prelude.{◌≡◌, ◌+◌, ◌*◌, ◌/◌, ◌<◌, ◌≤◌, ◌⊎◌, ◌↔◌, ℕ, All, IfOk, IsErrOf, OnOk, Some, length, slice_get, true, vec_len};
ghost use Rattle.graphql_number_sets.specs.NumberSets.{AreEnds, AreExact, FitsBelow, HaveEnd, KeepsCliques, has_pair, numbers_of, words_of};
ghost use Rattle.graphql_pair_merging.specs.JoinedSets.{AddsEach, AreJoined};
ghost use Rattle.graphql_pair_merging.specs.Pairs.{AreLinked};
ghost use Rattle.graphql_pair_merging.specs.Works.{IsPassed, Paid, most_of};
ghost use Rattle.graphql_pair_merging.specs.declared.numbered_sets.NumberedSet.{NumberedSet};
ghost use Rattle.graphql_pair_merging.specs.declared.work.Interruption.TheVariants.{OutOfWork};

use super::numbered_sets::NumberedSet;
use super::work::{Interruption, PairWork, units_of_row};
use graphql_nodes::ValidationError;
use graphql_number_sets::distinct_numbers::DistinctNumbers;
use graphql_number_sets::pair_sets::PairSet;
use graphql_steps::Steps;
use std::alloc::Global;
use std::sync::ledger::Ledger;

/// Sets that come together, by their numbers, and the ends: such of them that of each two which were not yet looked at together
/// at least one is an end.
#[derive(Debug, Drop)]
pub(crate) struct JoinedSets {
    pub(crate) all: DistinctNumbers,
    pub(crate) ends: DistinctNumbers,
}

impl JoinedSets {
    /// Adds each pair of the sets of which one is an end. The only error is a failed allocation.
    pub(crate) fn add_to<L: Ledger>(
        self,
        looked: &mut PairSet,
        steps: &mut Steps<L>,
    ) -> Result<(), ValidationError>
        requires cliques { KeepsCliques looked.old }
        requires all_exact { AreExact self.all }
        requires ends_exact { AreExact self.ends }
        requires within { All (λ number. number < vec_len looked.old.rows) (numbers_of self.all) }
        requires ends { AreEnds looked.old (numbers_of self.all) (numbers_of self.ends) }
        ensures count { vec_len looked.new.rows ≡ vec_len looked.old.rows }
        ensures cliques { KeepsCliques looked.new }
        ensures added { OnOk result ((first second : ℕ) → (has_pair looked.new first second ≡ true) ↔
            ((has_pair looked.old first second ≡ true) ⊎ HaveEnd (numbers_of self.all) (numbers_of self.ends) first second)) }
        ensures cost { steps.new ≤ steps.old + length (numbers_of self.ends) * (2 * words_of self.all.members + 65) + length (numbers_of self.all) * (2 * words_of self.ends.members + 66) }
    {
        let JoinedSets { all, ends } = self;
        looked.join(all, &ends, steps)
    }
}

/// The numbers of some sets with those of the fragments in them, and so on. Each of the sets counts the units of a row and one for
/// each fragment in it, before its fragments are added.
pub(crate) fn with_fragments<L: Ledger>(
    alloc: Global,
    sets: &[NumberedSet],
    first: &[usize],
    work: &mut PairWork,
    steps: &mut Steps<L>,
) -> Result<DistinctNumbers, Interruption>
    requires linked { AreLinked sets.now }
    requires within { All (λ number. number < length sets.now) first.now }
    ensures exact { IfOk result AreExact }
    ensures within { IfOk result (λ joined. All (λ number. number < length sets.now) (numbers_of joined)) }
    ensures joined { IfOk result (λ joined. AreJoined sets.now first.now (numbers_of joined)) }
    ensures fits { IfOk result (λ joined. FitsBelow (length sets.now) joined.members) }
    ensures most { most_of work.new ≡ most_of work.old }
    ensures passed { IsErrOf result OutOfWork → IsPassed work.new }
    // For each of the sets there are steps to spare in which the ends are chosen.
    ensures spare { IfOk result (λ joined. Paid work.old steps.old work.new (steps.new + length (numbers_of joined) * (3 * (length sets.now / 64) + 13)) (3 * length first.now)) }
    ensures cost { Paid work.old steps.old work.new steps.new (3 * length first.now + length sets.now / 64 + 4) }
{
    let mut joined = DistinctNumbers::new(alloc);
    add_each(&mut joined, first, steps)?;
    let mut next = 0;
    while next < joined.as_slice().len() {
        let number = joined.as_slice()[next];
        add_fragments(&mut joined, sets, number, work, steps)?;
        next += 1;
    }
    Ok(joined)
}

/// Adds the sets of the fragments in a set, which counts its units first.
fn add_fragments<L: Ledger>(
    joined: &mut DistinctNumbers,
    sets: &[NumberedSet],
    number: usize,
    work: &mut PairWork,
    steps: &mut Steps<L>,
) -> Result<(), Interruption>
    requires linked { AreLinked sets.now }
    requires exact { AreExact joined.old }
    requires within { number < length sets.now }
    ensures exact { OnOk result (AreExact joined.new) }
    ensures added { (set : NumberedSet) → slice_get sets.now number ≡ Some set →
        OnOk result (AddsEach set.fragments.items (numbers_of joined.old) (numbers_of joined.new)) }
    ensures fits { FitsBelow (length sets.now) joined.old.members → FitsBelow (length sets.now) joined.new.members }
    ensures each { OnOk result (words_of joined.new.members + length (numbers_of joined.old) * (length sets.now / 64 + 1) ≤ words_of joined.old.members + length (numbers_of joined.new) * (length sets.now / 64 + 1)) }
    ensures most { most_of work.new ≡ most_of work.old }
    ensures passed { IsErrOf result OutOfWork → IsPassed work.new }
    ensures spare { OnOk result (Paid work.old (steps.old + words_of joined.new.members) work.new (steps.new + words_of joined.old.members + (4 * (length sets.now / 64) + 14)) 0) }
    ensures cost { Paid work.old (steps.old + words_of joined.new.members) work.new (steps.new + words_of joined.old.members) 1 }
{
    steps.take(1);
    let fragments = &sets[number].fragments;
    work.spend(units_of_row(sets.len()).saturating_add(fragments.len()))?;
    Ok(add_each(joined, fragments, steps)?)
}

/// Adds these numbers, each unless it is there.
fn add_each<L: Ledger>(
    joined: &mut DistinctNumbers,
    numbers: &[usize],
    steps: &mut Steps<L>,
) -> Result<(), ValidationError>
    requires { AreExact joined.old }
    ensures exact { OnOk result (AreExact joined.new) }
    ensures added { OnOk result (AddsEach numbers.now (numbers_of joined.old) (numbers_of joined.new)) }
    ensures fits { (bound : ℕ) → All (λ number. number < bound) numbers.now → FitsBelow bound joined.old.members → FitsBelow bound joined.new.members }
    ensures each { (bound : ℕ) → All (λ number. number < bound) numbers.now →
        OnOk result (words_of joined.new.members + length (numbers_of joined.old) * (bound / 64 + 1) ≤ words_of joined.old.members + length (numbers_of joined.new) * (bound / 64 + 1)) }
    ensures cost { steps.new + words_of joined.old.members ≤ steps.old + words_of joined.new.members + 3 * length numbers.now }
{
    for number in numbers {
        steps.take(1);
        joined.add(*number, steps)?;
    }
    Ok(())
}
