//! How much work merging by pairs has counted, and why a search by pairs is interrupted.

ghost use Rattle.std.specs.Prelude.{◌≡◌, ◌≤◌, ◌+◌, ◌*◌, ◌/◌, ◌-◌, ◌^◌, ◌↔◌, IsErrOf, IsTrue, min};
ghost use Rattle.graphql_pair_merging.specs.Works.{IsPassed, comparisons, counted_of, most_of};
ghost use Rattle.graphql_pair_merging.specs.declared.work.Interruption.TheVariants.{OutOfWork};

use graphql_nodes::ValidationError;
use std::alloc::{AllocError, AllocFailed};

/// How much work merging by pairs has counted, and how much it may count. A selection set of those that come together counts one
/// unit, as does a fragment in such a set, and a row of bits for each 1,024 sets. A field counts 16 each time that it is listed,
/// grouped or compared, as does a pair of types on which fields are: that takes about as long.
#[derive(Clone, Copy, Debug, PartialEq, Eq)]
pub struct PairWork {
    counted: usize,
    most: usize,
}

impl PairWork {
    /// Nothing is counted yet, and so many units may be.
    pub fn new(most: usize) -> PairWork
        ensures counted { counted_of result ≡ 0 }
        ensures most { most_of result ≡ most }
    {
        PairWork { counted: 0, most }
    }

    /// Whether more was counted than may be.
    pub fn is_passed(&self) -> bool
        ensures { IsTrue result ↔ IsPassed self.now }
    {
        self.counted > self.most
    }

    /// How many units were counted; the count stays at the greatest `usize`.
    pub fn counted(&self) -> usize
        ensures { result ≡ counted_of self.now }
    {
        self.counted
    }

    /// Counts so many units more, and answers whether the bound still holds.
    pub(crate) fn count(&mut self, units: usize) -> bool
        ensures counted { counted_of self.new ≡ min (counted_of self.old + units) (2 ^ 64 - 1) }
        ensures most { most_of self.new ≡ most_of self.old }
        ensures within { IsTrue result ↔ counted_of self.new ≤ most_of self.new }
        ensures grows { counted_of self.old ≤ counted_of self.new }
    {
        self.counted = self.counted.saturating_add(units);
        self.counted <= self.most
    }

    /// Counts so many units more, and interrupts the search if the bound is passed.
    pub(crate) fn spend(&mut self, units: usize) -> Result<(), Interruption>
        ensures counted { counted_of self.new ≡ min (counted_of self.old + units) (2 ^ 64 - 1) }
        ensures most { most_of self.new ≡ most_of self.old }
        ensures passed { IsErrOf result OutOfWork → IsPassed self.new }
        ensures grows { counted_of self.old ≤ counted_of self.new }
    {
        if self.count(units) {
            return Ok(());
        }
        Err(Interruption::OutOfWork)
    }
}

/// A row of bits counts one unit for so many sets of the document.
const SETS_OF_A_ROW: usize = 1_024;

/// The units that a field counts: to list, group or compare one takes as long as so many steps from set to set.
const FIELD_UNITS: usize = 16;

/// The units of a row of bits, in a document of so many sets.
pub(crate) fn units_of_row(sets: usize) -> usize
    ensures { result ≡ sets / 1024 + 1 }
{
    (sets / SETS_OF_A_ROW).saturating_add(1)
}

/// The units of so many fields, or pairs of types on which fields are.
pub(crate) fn units_of(fields: usize) -> usize
    ensures { result ≡ min (16 * fields) (2 ^ 64 - 1) }
{
    fields.saturating_mul(FIELD_UNITS)
}

/// How often one of so many fields is compared with one of them: if one of them decides for all, it alone is compared with each.
pub(crate) fn comparisons_of(fields: usize, alone: bool) -> usize
    ensures { result ≡ min (comparisons alone fields) (2 ^ 64 - 1) }
{
    if alone {
        return fields;
    }
    fields.saturating_mul(fields)
}

/// Why a search by pairs does not come to its end.
#[derive(Clone, Copy, Debug, PartialEq, Eq)]
pub(crate) enum Interruption {
    /// An allocation failed.
    OutOfMemory,
    /// More was counted than may be.
    OutOfWork,
}

impl From<ValidationError> for Interruption {
    ghost use Rattle.std.specs.Prelude.{◌≡◌};
    ghost use Rattle.graphql_pair_merging.specs.declared.work.Interruption.TheVariants.{OutOfMemory};

    ghost from_gives = { λ _ interruption. interruption ≡ OutOfMemory };

    fn from(_refusal: ValidationError) -> Interruption {
        Interruption::OutOfMemory
    }
}

impl<T: Drop> From<AllocFailed<T>> for Interruption {
    ghost use Rattle.std.specs.Prelude.{◌≡◌};
    ghost use Rattle.graphql_pair_merging.specs.declared.work.Interruption.TheVariants.{OutOfMemory};

    ghost from_gives = { λ _ interruption. interruption ≡ OutOfMemory };

    fn from(_refusal: AllocFailed<T>) -> Interruption {
        Interruption::OutOfMemory
    }
}

impl From<AllocError> for Interruption {
    ghost use Rattle.std.specs.Prelude.{◌≡◌};
    ghost use Rattle.graphql_pair_merging.specs.declared.work.Interruption.TheVariants.{OutOfMemory};

    ghost from_gives = { λ _ interruption. interruption ≡ OutOfMemory };

    fn from(_refusal: AllocError) -> Interruption {
        Interruption::OutOfMemory
    }
}
