ghost use Rattle.std.specs.Prelude.{◌≤◌};

use super::fixtures::name;
use graphql_documents::documents::Type;
use graphql_guards::{CycleError, DepthCounter, LimitCounter, RecursionStack};

#[test]
fn a_path_holds_as_many_names_as_its_limit(rt: HostRuntime) {
    let (b, c) = (name(&rt, rt.alloc(), "b"), name(&rt, rt.alloc(), "c"));
    let stack = RecursionStack::with_root(rt.alloc(), name(&rt, rt.alloc(), "a"));
    let mut stack = stack.expect(&rt, "memory for a path").with_limit(2);
    let mut root = stack.guard();
    assert!(rt; !root.contains(&b));
    let mut child = root.push::<Type>(&b).expect(&rt, "a second name");
    assert!(rt; !child.stack.contains(&c));
    match child.stack.push::<Type>(&c) {
        Err(CycleError::Limit) => {}
        _ => panic!(rt; "a third name"),
    }
    assert!(rt; child.contains(&b));
}

#[test]
fn a_path_of_no_names_takes_none(rt: HostRuntime) {
    let a = name(&rt, rt.alloc(), "a");
    let mut stack = RecursionStack::new(rt.alloc()).with_limit(0);
    assert!(rt; !stack.contains(&a));
    match stack.push::<Type>(&a) {
        Err(CycleError::Limit) => {}
        _ => panic!(rt; "a name"),
    }
}

#[test]
fn names_are_visited_and_left(rt: HostRuntime) {
    let a = name(&rt, rt.alloc(), "a");
    let mut stack = RecursionStack::new(rt.alloc());
    assert!(rt; !stack.contains(&a));
    stack.enter::<Type>(&a).expect(&rt, "memory for a name");
    assert!(rt; stack.contains(&a));
    stack.leave();
    assert!(rt; !stack.contains(&a));
}

#[test]
fn a_walk_goes_as_deep_as_its_limit(rt: HostRuntime) {
    assert_eq!(rt; steps(&mut DepthCounter::new().with_limit(2), 3), 2);
}

/// How many of these steps the counter takes.
fn steps(counter: &mut DepthCounter, most: u8) -> u8
    ensures { result ≤ most }
{
    if most == 0 {
        return 0;
    }
    match counter.increment() {
        Ok(mut guard) => steps(guard.counter, most - 1) + 1,
        Err(_) => 0,
    }
}

#[test]
fn a_count_stops_at_its_limit(rt: HostRuntime) {
    let mut count = LimitCounter::new(2);
    assert!(rt; !count.check_and_increment());
    assert!(rt; !count.check_and_increment());
    assert!(rt; count.check_and_increment());
    assert_eq!(rt; count.high(), 3);
}
