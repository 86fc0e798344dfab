use super::fixtures::{name, node, reports, schema_of, text};
use graphql_diagnostics::DiagnosticList;
use graphql_documents::documents::{Type, Value};
use graphql_nodes::Node;
use graphql_notation::build::arguments;
use graphql_numbers::IntValue;
use graphql_values::value::value_of_correct_type;
use std::alloc::Global;
use std::process::Abort;

/// A list of this many ones.
fn ones(rt: &impl Abort, alloc: Global, count: u32) -> Node<Value> {
    let mut items = Vec::new(alloc);
    for _ in 0..count {
        let one = IntValue::new(text(rt, alloc, "1")).expect(rt, "an integer");
        items
            .push(node(rt, alloc, Value::Int(one)))
            .expect(rt, "memory for an item");
    }
    node(rt, alloc, Value::List(items))
}

/// The value in a list of its own.
fn list_of(rt: &impl Abort, alloc: Global, value: Node<Value>) -> Node<Value> {
    let mut items = Vec::new(alloc);
    items.push(value).expect(rt, "memory for an item");
    node(rt, alloc, Value::List(items))
}

/// An empty list in this many lists.
fn nested(rt: &impl Abort, alloc: Global, depth: u32) -> Node<Value> {
    let mut value = node(rt, alloc, Value::List(Vec::new(alloc)));
    for _ in 0..depth {
        value = list_of(rt, alloc, value);
    }
    value
}

/// The value is accepted for a scalar whose values may be anything.
fn is_accepted(rt: &impl Abort, alloc: Global, value: &Node<Value>) {
    let schema = schema_of(rt, alloc, "scalar Date");
    let ty = node(rt, alloc, Type::Named(name(rt, alloc, "Date")));
    let mut found = DiagnosticList::new(alloc);
    value_of_correct_type(&mut found, &schema.0, &ty, value, &[]).expect(rt, "memory");
    reports(rt, alloc, &found, "");
}

#[test]
fn long_and_deep_lists_are_decided(rt: HostRuntime) {
    is_accepted(&rt, rt.alloc(), &ones(&rt, rt.alloc(), 10_000));
    is_accepted(&rt, rt.alloc(), &nested(&rt, rt.alloc(), 500));
}

const NESTED: &str = "type Query { f(a: A!): Int } input A { e: E! b: B! n: Int }
    input B { l: [A!]! d: ID! } enum E { X }";

#[test]
fn an_input_object_that_leads_to_itself_by_a_list_has_a_finite_value(rt: HostRuntime) {
    let alloc = rt.alloc();
    let schema = schema_of(&rt, alloc, NESTED);
    let ty = Type::NonNullNamed(name(&rt, alloc, "A"));
    let given = arguments(alloc, "(a: {e: X, b: {l: [], d: 0}})").expect(&rt, "an argument");
    let value = &given.first().expect(&rt, "an argument").value.value;
    let mut found = DiagnosticList::new(alloc);
    let checked = value_of_correct_type(&mut found, &schema.0, &node(&rt, alloc, ty), value, &[]);
    checked.expect(&rt, "memory for reports");
    reports(&rt, alloc, &found, "");
}
