use graphql_documents::documents::{Argument, Value};
use graphql_hash_seeds::HashSeed;
use graphql_nodes::{Name, Node};
use graphql_value_numbers::ValueNumbers;
use std::alloc::Global;
use std::process::Abort;

/// The entries of object values that are the same: in one order, in another, and with a second entry
/// under the name of an earlier one.
const SAME: &[&[(&str, bool)]] = &[
    &[("a", true), ("b", false)],
    &[("b", false), ("a", true)],
    &[("a", true), ("a", false), ("b", false)],
];

/// Entries that are not the same as those, nor as one another.
const OTHERS: &[&[(&str, bool)]] = &[
    &[],
    &[("a", true)],
    &[("a", true), ("b", true)],
    &[("a", true), ("c", false)],
    &[("a", true), ("b", false), ("c", false)],
];

fn name(rt: &impl Abort, alloc: Global, written: &str) -> Name {
    let text = String::from_str(alloc, written).expect(rt, "memory for a text");
    Name::new(text, None).expect(rt, "a name")
}

fn truth(rt: &impl Abort, alloc: Global, value: bool) -> Node<Value> {
    Node::new(alloc, Value::Boolean(value)).expect(rt, "memory for a value")
}

fn object(rt: &impl Abort, alloc: Global, written: &[(&str, bool)]) -> Value {
    let mut entries = Vec::new(alloc);
    for (key, value) in written {
        entries
            .push((name(rt, alloc, key), truth(rt, alloc, *value)))
            .expect(rt, "memory for an entry");
    }
    Value::Object(entries)
}

fn objects(rt: &impl Abort, alloc: Global, written: &[&[(&str, bool)]]) -> Vec<Value> {
    let mut values = Vec::new(alloc);
    for entries in written {
        values
            .push(object(rt, alloc, entries))
            .expect(rt, "memory for a value");
    }
    values
}

fn arguments(rt: &impl Abort, alloc: Global, written: &[(&str, bool)]) -> Vec<Node<Argument>> {
    let mut given = Vec::new(alloc);
    for (key, value) in written {
        let argument = Argument {
            name: name(rt, alloc, key),
            value: truth(rt, alloc, *value),
        };
        let node = Node::new(alloc, argument).expect(rt, "memory for a node");
        given.push(node).expect(rt, "memory for an argument");
    }
    given
}

#[test]
fn the_same_values_have_one_number(rt: HostRuntime) {
    let alloc = rt.alloc();
    let values = objects(&rt, alloc, SAME);
    let mut numbers = ValueNumbers::new(alloc, HashSeed::default());
    for value in &values {
        let number = numbers
            .number_value(alloc, value)
            .expect(&rt, "memory for a number");
        // true, false, and the object
        assert_eq!(rt; number, 2);
    }
}

#[test]
fn different_values_have_different_numbers(rt: HostRuntime) {
    let alloc = rt.alloc();
    let values = objects(&rt, alloc, OTHERS);
    let mut numbers = ValueNumbers::new(alloc, HashSeed::default());
    let mut found: Vec<usize> = Vec::new(alloc);
    for value in &values {
        let number = numbers
            .number_value(alloc, value)
            .expect(&rt, "memory for a number");
        assert!(rt; !found.contains(&number));
        found.push(number).expect(&rt, "memory for a place");
    }
}

#[test]
fn arguments_have_the_number_of_an_object(rt: HostRuntime) {
    let alloc = rt.alloc();
    let value = object(&rt, alloc, SAME[0]);
    let mut given = Vec::new(alloc);
    for written in SAME {
        given
            .push(arguments(&rt, alloc, written))
            .expect(&rt, "memory for arguments");
    }
    let other = arguments(&rt, alloc, OTHERS[1]);
    let mut numbers = ValueNumbers::new(alloc, HashSeed::default());
    let whole = numbers
        .number_value(alloc, &value)
        .expect(&rt, "memory for a number");
    for listed in &given {
        let number = numbers
            .number_arguments(alloc, listed)
            .expect(&rt, "memory for a number");
        assert_eq!(rt; number, whole);
    }
    let number = numbers
        .number_arguments(alloc, &other)
        .expect(&rt, "memory for a number");
    assert!(rt; number != whole);
}
