use graphql_hash_seeds::HashSeed;
use graphql_name_tables::places::{Places, add_if_new, place_of};
use graphql_nodes::Name;
use std::alloc::Global;
use std::process::Abort;

fn name(rt: &impl Abort, alloc: Global, written: &str) -> Name {
    let text = String::from_str(alloc, written).expect(rt, "memory for a text");
    Name::new(text, None).expect(rt, "a name")
}

/// The first place of a name stays.
#[test]
fn a_name_that_is_there_keeps_its_place(rt: HostRuntime) {
    let alloc = rt.alloc();
    let (a, b, again) = (
        name(&rt, alloc, "a"),
        name(&rt, alloc, "b"),
        name(&rt, alloc, "a"),
    );
    let mut places = Places::with_hasher(alloc, HashSeed::default());
    add_if_new(&mut places, &a, 0).expect(&rt, "memory for a place");
    add_if_new(&mut places, &b, 1).expect(&rt, "memory for a place");
    add_if_new(&mut places, &again, 2).expect(&rt, "memory for a place");
    assert_eq!(rt; places.len(), 2);
    assert_eq!(rt; place_of(&places, &again), Some(0));
    assert_eq!(rt; place_of(&places, &b), Some(1));
}
