//! Tables by name.

use graphql_documents::documents::Value;
use graphql_hash_seeds::HashSeed;
use graphql_name_tables::ByName;
use graphql_nodes::{Name, Node};
use std::alloc::Global;
use std::process::Abort;

const TWICE: &[&str] = &["a", "b", "c", "d", "e", "f", "g", "h", "i", "j", "a", "j"];

fn name(rt: &impl Abort, alloc: Global, written: &str) -> Name {
    let text = String::from_str(alloc, written).expect(rt, "memory for a text");
    Name::new(text, None).expect(rt, "a name")
}

/// An entry of each name; those of the first ten are true.
fn entries(rt: &impl Abort, alloc: Global) -> Vec<(Name, Node<Value>)> {
    let mut made = Vec::new(alloc);
    for (place, written) in TWICE.iter().enumerate() {
        let value = Node::new(alloc, Value::Boolean(place < 10)).expect(rt, "memory for a node");
        made.push((name(rt, alloc, written), value))
            .expect(rt, "memory for an entry");
    }
    made
}

fn is_first(rt: &impl Abort, alloc: Global, named: &ByName<(Name, Node<Value>)>, written: &str) {
    let found = named.find(&name(rt, alloc, written));
    assert!(rt; matches!(found, Some((_, value)) if matches!(&*value.value, Value::Boolean(true))));
}

#[test]
fn the_first_of_each_name_is_found(rt: HostRuntime) {
    let alloc = rt.alloc();
    let entries = entries(&rt, alloc);
    for look_ups in [1, 100] {
        let named = ByName::new(alloc, HashSeed::default(), &entries, look_ups).expect(
            &rt,
            "memory for a table",
        );
        for written in TWICE {
            is_first(&rt, alloc, &named, written);
        }
        assert!(rt; named.find(&name(&rt, alloc, "k")).is_none());
    }
}
