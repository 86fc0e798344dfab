use super::built_schemas::built;
use graphql_input_rules::check_schema_input_fields;
use graphql_reporting::ReportList;
use std::alloc::Global;
use std::process::Abort;

/// Texts of one schema, and where an input field repeats which.
const SCHEMAS: &[(&str, &str)] = &[
    (
        "type Query { a(i: [I] = [{x: 1, y: {x: 2}}, {x: 3}], j: I = {x: 4} @d(i: {x: 5}, j: {x: 6})): Int }",
        "",
    ),
    (
        "schema @d(i: {x: 1, x: 2}) { query: Query } type Query { a: Int }",
        "x at 20 after 14\n",
    ),
    (
        "directive @d(i: I = {x: 1, x: 2}) on FIELD type Query { a: Int }",
        "x at 27 after 21\n",
    ),
    (
        "directive @d(i: Int @e(j: {x: 1, x: 2})) on FIELD type Query { a: Int }",
        "x at 33 after 27\n",
    ),
    (
        "scalar S @d(i: {x: 1, x: 2}) type Query { a: S }",
        "x at 22 after 16\n",
    ),
    (
        "type Query @d(i: {x: 1, x: 2}) { a: Int }",
        "x at 24 after 18\n",
    ),
    (
        "interface I @d(i: {x: 1, x: 2}) { a: Int } type Query { a: I }",
        "x at 25 after 19\n",
    ),
    (
        "union U @d(i: {x: 1, x: 2}) = Query type Query { a: U }",
        "x at 21 after 15\n",
    ),
    (
        "enum E @d(i: {x: 1, x: 2}) { A } type Query { a: E }",
        "x at 20 after 14\n",
    ),
    (
        "enum E { A B @d(i: {x: 1, x: 2}) } type Query { a: E }",
        "x at 26 after 20\n",
    ),
    (
        "input I @d(i: {x: 1, x: 2}) { x: Int } type Query { a(i: I): Int }",
        "x at 21 after 15\n",
    ),
    (
        "input I { x: Int i: I = {x: 1, x: 2} } type Query { a(i: I): Int }",
        "x at 31 after 25\n",
    ),
    (
        "input I { x: Int @d(i: {x: 1, x: 2}) } type Query { a(i: I): Int }",
        "x at 30 after 24\n",
    ),
    (
        "type Query { a: Int @d(i: {x: 1, x: 2}) }",
        "x at 33 after 27\n",
    ),
    (
        "interface I { a: Int @d(i: {x: 1, x: 2}) } type Query { a: I }",
        "x at 34 after 28\n",
    ),
    (
        "type Query { a(i: I = {x: 1, x: 2}): Int }",
        "x at 29 after 23\n",
    ),
    (
        "type Query { a(i: I @d(i: {x: 1, x: 2})): Int }",
        "x at 33 after 27\n",
    ),
    (
        "type Query { a(i: [I] = [{x: 1}, {x: 2, y: [{x: 3, x: 4}]}]): Int }",
        "x at 51 after 45\n",
    ),
    (
        "type Query { a: Int } extend type Query @d(i: {x: 1, x: 2})",
        "x at 53 after 47\n",
    ),
    (
        "type Query { a: Int } extend type Query { b(i: I = {x: 1, x: 2}): Int }",
        "x at 58 after 52\n",
    ),
    (
        "type Query { a(i: I = {x: 1, x: 2, x: 3}): Int }",
        "x at 29 after 23\nx at 35 after 23\n",
    ),
];

/// A text with a repetition in each kind of definition, those that are read first behind the others.
const EACH_KIND: &str = "enum E { A @d(i: {p: 1, p: 2}) }
input I { x: Int = {q: 1, q: 2} @d(i: {r: 1, r: 2}) }
type Query @d(i: {s: 1, s: 2}) { a(i: I = {t: 1, t: 2}): E @d(i: {u: 1, u: 2}) }
directive @d(i: I = {v: 1, v: 2}) on OBJECT
schema @d(i: {w: 1, w: 2}) { query: Query }";

/// The input fields that are repeated in the schema of the text, each on a line: its name, where it is again, and where it
/// is first.
fn repeated(rt: &impl Abort, alloc: Global, text: &str) -> String {
    let schema = built(rt, alloc, text);
    let mut repetitions = ReportList::new(alloc);
    check_schema_input_fields(&mut repetitions, &schema).expect(rt, "memory for repetitions");
    let mut lines = String::new(alloc);
    for repetition in &repetitions.into_reports() {
        let name = &repetition.name;
        let again = repetition.location.expect(rt, "a place").start;
        let first = repetition.original.expect(rt, "a place").start;
        let line = format!(in alloc; "{name} at {again} after {first}\n");
        lines
            .push_str(line.expect(rt, "memory for a line").as_str())
            .expect(rt, "memory for a line");
    }
    lines
}

#[test]
fn repeated_input_fields_of_schemas_are_reported(rt: HostRuntime) {
    let alloc = rt.alloc();
    for (text, expected) in SCHEMAS {
        let found = repeated(&rt, alloc, text);
        assert_eq!(rt; found.as_str(), *expected, "{text}");
    }
}

#[test]
fn schema_definition_then_directives_then_types(rt: HostRuntime) {
    let found = repeated(&rt, rt.alloc(), EACH_KIND);
    let expected =
        "w at 232 after 226\nv at 195 after 189\np at 24 after 18\nr at 78 after 72\nq at 59 after 53\ns at 111 after 105\nu at 159 after 153\nt at 136 after 130\n";
    assert_eq!(rt; found.as_str(), expected);
}
