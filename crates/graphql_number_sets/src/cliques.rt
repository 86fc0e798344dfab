//! Sets of numbers of which each two are a pair.

ghost use Rattle.std.specs.Prelude.{◌≡◌, ◌+◌, ◌*◌, ◌≤◌, ◌⊎◌, ◌++◌, ◌∷◌, [], ⊤, Contains, IfOk, MatchOption, OnErr, OnOk, length};
ghost use Rattle.graphql_number_sets.specs.NumberSets.{numbers_of};

use super::bit_sets::BitSet;
use super::distinct_numbers::DistinctNumbers;
use graphql_nodes::ValidationError;
use graphql_steps::Steps;
use std::alloc::Global;
use std::sync::ledger::Ledger;

/// Cliques, and for each number the place of the last clique that was added with it.
#[derive(Debug, Drop)]
pub(crate) struct Cliques {
    pub(crate) sets: Vec<BitSet>,
    latest: Vec<Option<usize>>,
}

impl Cliques {
    /// No clique, of so many numbers. The only error is a failed allocation. It takes a step for each number.
    pub(crate) fn new<L: Ledger>(
        alloc: Global,
        count: usize,
        steps: &mut Steps<L>,
    ) -> Result<Cliques, ValidationError>
        ensures none { IfOk result (λ cliques. cliques.sets.items ≡ []) }
        ensures cost { steps.new ≤ steps.old + count }
    {
        let mut latest = Vec::new(alloc);
        for _ in 0..count {
            steps.take(1);
            latest.push(None)?;
        }
        Ok(Cliques {
            sets: Vec::new(alloc),
            latest,
        })
    }

    /// A clique that has many of the numbers, if one is found: the last clique of most of them; or, if that one has less than
    /// half of them, the last clique of most of the others if it has more of the numbers. It takes at most four steps for each
    /// number.
    pub(crate) fn around<L: Ledger>(
        &self,
        numbers: &[usize],
        steps: &mut Steps<L>,
    ) -> Option<&BitSet>
        ensures clique { MatchOption result ⊤ (λ clique. Contains self.now.sets.items clique.now) }
        ensures cost { steps.new ≤ steps.old + 4 * length numbers.now }
    {
        let first = self.of_most(numbers, None, steps)?;
        let known = count_in(numbers, first, steps);
        if known >= numbers.len() / 2 {
            return Some(first);
        }
        match self.of_most(numbers, Some(first), steps) {
            Some(second) if count_in(numbers, second, steps) > known => Some(second),
            _ => Some(first),
        }
    }

    /// Adds a clique, unless there are already as many cliques as numbers. The only error is a failed allocation, and then the
    /// cliques are as before. It takes a step for each number of the clique.
    pub(crate) fn add<L: Ledger>(
        &mut self,
        clique: DistinctNumbers,
        steps: &mut Steps<L>,
    ) -> Result<(), ValidationError>
        ensures added { OnOk result ((self.new.sets.items ≡ self.old.sets.items) ⊎ (self.new.sets.items ≡ self.old.sets.items ++ clique.members ∷ [])) }
        ensures refused { OnErr result (self.new.sets.items ≡ self.old.sets.items) }
        ensures cost { steps.new ≤ steps.old + length (numbers_of clique) }
    {
        let place = self.sets.len();
        if place >= self.latest.len() {
            return Ok(());
        }
        let DistinctNumbers { numbers, members } = clique;
        self.sets.push(members)?;
        for number in &numbers {
            steps.take(1);
            if let Some(latest) = self.latest.get_mut(*number) {
                *latest = Some(place);
            }
        }
        Ok(())
    }

    /// The last clique of more than half of the numbers that have one and are not in the other clique, if there is one;
    /// otherwise the last clique of some of them. It takes a step for each number.
    fn of_most<L: Ledger>(
        &self,
        numbers: &[usize],
        other: Option<&BitSet>,
        steps: &mut Steps<L>,
    ) -> Option<&BitSet>
        ensures clique { MatchOption result ⊤ (λ clique. Contains self.now.sets.items clique.now) }
        ensures cost { steps.new ≤ steps.old + length numbers.now }
    {
        let mut vote = Vote {
            place: None,
            lead: 0,
        };
        for number in numbers {
            steps.take(1);
            let place = self.latest.get(*number).copied().flatten();
            if let Some(place) = place
                && !is_in(*number, other)
            {
                vote.cast(place);
            }
        }
        self.sets.get(vote.place?)
    }
}

/// A vote on places: the one that is ahead, and by how many votes. A place with more than half of the votes is ahead at the end.
#[derive(Drop)]
struct Vote {
    place: Option<usize>,
    lead: usize,
}

impl Vote {
    /// Counts a vote for a place.
    fn cast(&mut self, place: usize) {
        if self.lead == 0 {
            self.place = Some(place);
        }
        if self.place == Some(place) {
            self.lead = self.lead.saturating_add(1);
        } else {
            self.lead -= 1;
        }
    }
}

/// Whether the number is in the set, if there is one.
fn is_in(number: usize, set: Option<&BitSet>) -> bool {
    match set {
        Some(set) => set.contains(number),
        None => false,
    }
}

/// How many of the numbers are in the set. It takes a step for each number.
fn count_in<L: Ledger>(numbers: &[usize], set: &BitSet, steps: &mut Steps<L>) -> usize
    ensures most { result ≤ length numbers.now }
    ensures cost { steps.new ≤ steps.old + length numbers.now }
{
    let mut count = 0;
    for number in numbers {
        steps.take(1);
        if set.contains(*number) {
            count += 1;
        }
    }
    count
}
