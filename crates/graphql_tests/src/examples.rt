use graphql_examples::{Example, build_example, tables};
use indexmap::IndexSet;
use std::alloc::Global;
use std::process::Abort;

fn is_built(rt: &impl Abort, alloc: Global, example: &Example) {
    let built = build_example(alloc, example);
    assert!(rt; built.is_ok(), "{}", example.id);
    drop(built);
}

/// Each example of a table is built, and its name is not among these yet.
fn are_built(
    rt: &impl Abort,
    alloc: Global,
    names: &mut IndexSet<&'static str>,
    examples: &'static [Example],
) {
    for example in examples {
        is_built(rt, alloc, example);
        let is_new = names.insert(example.id).expect(rt, "memory for a name");
        assert!(rt; is_new, "{}", example.id);
    }
}

#[test]
fn each_example_is_built_under_its_own_name(rt: HostRuntime) {
    let mut names = IndexSet::new(rt.alloc());
    for examples in tables() {
        are_built(&rt, rt.alloc(), &mut names, examples);
    }
}
