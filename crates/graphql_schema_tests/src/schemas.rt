use super::fixtures::{is_text, schema_of};
use graphql_documents::documents::MetaFields;
use graphql_hash_seeds::HashSeed;
use graphql_nodes::Name;
use indexmap::IndexSet;
use std::fmt::Write;
use std::process::Abort;

#[test]
fn meta_fields_are_made(rt: HostRuntime) {
    let made = MetaFields::new(rt.alloc()).expect(&rt, "memory for fields");
    is_text(&rt, made.typename.node.value.name.as_str(), "__typename");
    is_text(&rt, made.schema.node.value.name.as_str(), "__schema");
    is_text(&rt, made.type_by_name.node.value.name.as_str(), "__type");
}

/// Adds names behind one another.
fn show(rt: &impl Abort, text: &mut String, names: &IndexSet<&Name, HashSeed>) {
    for name in names {
        write!(text, " {name}").expect(rt, "memory for a name");
    }
}

const IMPLEMENTED: &str =
    "type D implements P & Q interface Q implements P interface P type C implements P";

#[test]
fn implementers_come_by_interface_in_order(rt: HostRuntime) {
    let schema = schema_of(&rt, rt.alloc(), IMPLEMENTED);
    let found = schema.0.implementers_map(rt.alloc()).expect(&rt, "memory");
    let mut text = String::new(rt.alloc());
    for (interface, implementers) in &found {
        write!(text, "{interface}:").expect(&rt, "memory for a name");
        show(&rt, &mut text, &implementers.objects);
        show(&rt, &mut text, &implementers.interfaces);
        text.push_str("\n").expect(&rt, "memory for a line");
    }
    is_text(&rt, text.as_str(), "P: D C Q\nQ: D\n");
}
