ghost use Rattle.std.specs.Prelude.{◌≡◌, ◌<◌, All, IfOk};
ghost use Rattle.graphql_number_sets.specs.NumberSets.{AreExact, numbers_of};

use graphql_nodes::ValidationError;
use graphql_number_sets::bit_sets::BitSet;
use graphql_number_sets::distinct_numbers::DistinctNumbers;
use graphql_number_sets::pair_sets::PairSet;
use graphql_steps::Steps;
use std::alloc::Global;
use std::marker::Brand;
use std::process::Abort;
use std::sync::ledger::{Blank, Ledger};

fn set_of<L: Ledger>(
    rt: &impl Abort,
    alloc: Global,
    numbers: &[usize],
    steps: &mut Steps<L>,
) -> BitSet {
    let mut set = BitSet::new(alloc);
    for number in numbers {
        set.insert(*number, steps).expect(rt, "memory for a number");
    }
    set
}

/// Numbers, and whether they are among 1, 64, 2 and 200.
const NUMBERS: &[(usize, bool)] = &[
    (0, false),
    (1, true),
    (2, true),
    (63, false),
    (64, true),
    (199, false),
    (200, true),
    (1000, false),
];

#[test]
fn a_set_gets_the_numbers_of_another(rt: HostRuntime) {
    add_set::<Brand>(&rt, rt.alloc(), Blank::new(1));
}

fn add_set<L: Ledger>(rt: &impl Abort, alloc: Global, blank: Blank)
    requires name { blank.name ≡ L.name }
    requires parts { blank.parts ≡ L.parts }
    requires some { 0 < blank.parts }
{
    let mut steps = Steps::<L>::new(blank);
    let mut set = set_of(rt, alloc, &[1, 64], &mut steps);
    let other = set_of(rt, alloc, &[2, 200], &mut steps);
    set.add_all(&other, &mut steps)
        .expect(rt, "memory for numbers");
    for (number, is_there) in NUMBERS {
        assert_eq!(rt; set.contains(*number), *is_there, "{number}");
    }
    assert!(rt; !other.contains(1));
}

/// Each number of two is made a pair with each: no end is left.
#[test]
fn each_number_becomes_a_pair_with_each(rt: HostRuntime) {
    add_pairs::<Brand>(&rt, rt.alloc(), Blank::new(1));
}

fn add_pairs<L: Ledger>(rt: &impl Abort, alloc: Global, blank: Blank)
    requires name { blank.name ≡ L.name }
    requires parts { blank.parts ≡ L.parts }
    requires some { 0 < blank.parts }
{
    let mut steps = Steps::<L>::new(blank);
    let mut numbers = DistinctNumbers::new(alloc);
    numbers.add(0, &mut steps).expect(rt, "memory for a number");
    numbers.add(2, &mut steps).expect(rt, "memory for a number");
    let mut pairs = PairSet::new(alloc, 3, &mut steps).expect(rt, "memory for pairs");
    let before = pairs
        .ends(alloc, &numbers, &mut steps)
        .expect(rt, "memory for ends");
    assert_eq!(rt; before.as_slice(), [0, 2].as_slice());
    pairs
        .add_all(&numbers, &numbers, &mut steps)
        .expect(rt, "memory for pairs");
    let left = pairs
        .ends(alloc, &numbers, &mut steps)
        .expect(rt, "memory for ends");
    assert!(rt; left.as_slice().is_empty());
}

/// The numbers below a bound. The only error is a failed allocation.
fn numbers_below<L: Ledger>(
    alloc: Global,
    bound: usize,
    steps: &mut Steps<L>,
) -> Result<DistinctNumbers, ValidationError>
    ensures exact { IfOk result AreExact }
    ensures within { IfOk result (λ numbers. All (λ number. number < bound) (numbers_of numbers)) }
{
    let mut numbers = DistinctNumbers::new(alloc);
    for number in 0..bound {
        numbers.add(number, steps)?;
    }
    Ok(numbers)
}

/// Numbers that came together are joined by one more: it is an end, since it is no pair with the others, and then none is.
#[test]
fn numbers_are_joined_by_one_more(rt: HostRuntime) {
    join_one_more::<Brand>(&rt, rt.alloc(), Blank::new(1));
}

fn join_one_more<L: Ledger>(rt: &impl Abort, alloc: Global, blank: Blank)
    requires name { blank.name ≡ L.name }
    requires parts { blank.parts ≡ L.parts }
    requires some { 0 < blank.parts }
{
    let mut steps = Steps::<L>::new(blank);
    let mut pairs = PairSet::new(alloc, 101, &mut steps).expect(rt, "memory for pairs");
    let numbers = numbers_below(alloc, 100, &mut steps).expect(rt, "memory for numbers");
    let all = pairs
        .ends(alloc, &numbers, &mut steps)
        .expect(rt, "memory for ends");
    assert_eq!(rt; all.as_slice(), numbers.as_slice());
    pairs
        .join(numbers, &all, &mut steps)
        .expect(rt, "memory for pairs");
    let more = numbers_below(alloc, 101, &mut steps).expect(rt, "memory for numbers");
    let last = pairs
        .ends(alloc, &more, &mut steps)
        .expect(rt, "memory for ends");
    assert_eq!(rt; last.as_slice(), [100].as_slice());
    pairs
        .join(more, &last, &mut steps)
        .expect(rt, "memory for pairs");
    let more = numbers_below(alloc, 101, &mut steps).expect(rt, "memory for numbers");
    let none = pairs
        .ends(alloc, &more, &mut steps)
        .expect(rt, "memory for ends");
    assert!(rt; none.as_slice().is_empty());
}
