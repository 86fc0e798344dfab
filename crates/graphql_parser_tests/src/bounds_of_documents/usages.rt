use graphql_documents::documents::Schema;
use graphql_nodes::FileId;
use graphql_notation::build::{document_in_file, schema};
use graphql_reporting::ReportList;
use graphql_usage_rules::{VariableMisuse, check_variable_usages};
use std::alloc::Global;
use std::process::Abort;

/// The schema of all documents.
const SCHEMA: &str = "
    type Query {
        f(l: [Int!], m: [[Int!]!]!, n: [Int] = [1], o: In, os: [In!]!, x: Int!, d: Int! = 3, j: Any): Int
        q: Query
    }
    input In { x: Int! d: Int! = 1 n: Int l: [Int!] o: In }
    scalar Any
    directive @on(l: [Int!], o: In) on QUERY | FIELD | FRAGMENT_SPREAD | INLINE_FRAGMENT | FRAGMENT_DEFINITION";

/// Documents, and the reports of each: where the variable is used, where it is defined, and the message.
const DOCUMENTS: &[(&str, &str)] = &[
    // items of lists
    (
        "query($v: Int) { f(l: [$v]) }",
        "23 6 variable `$v` of type `Int` used in position expecting type `Int!`\n",
    ),
    ("query($v: Int!) { f(l: [1, $v]) }", ""),
    ("query($v: Int = 3) { f(l: [$v]) }", ""),
    (
        "query($v: Int = null) { f(l: [$v]) }",
        "30 6 variable `$v` of type `Int` used in position expecting type `Int!`\n",
    ),
    ("query($v: Int) { f(n: [$v]) }", ""),
    (
        "query($v: [Int]) { f(n: [$v]) }",
        "25 6 variable `$v` of type `[Int]` used in position expecting type `Int`\n",
    ),
    (
        "query($v: Int!) { f(m: [$v]) }",
        "24 6 variable `$v` of type `Int!` used in position expecting type `[Int!]!`\n",
    ),
    (
        "query($v: Int, $w: [Int!]!) { f(m: [[1, $v], $w]) }",
        "40 6 variable `$v` of type `Int` used in position expecting type `Int!`\n",
    ),
    // entries of objects
    (
        "query($v: Int) { f(o: {x: $v}) }",
        "26 6 variable `$v` of type `Int` used in position expecting type `Int!`\n",
    ),
    ("query($v: Int) { f(o: {x: 1, d: $v, n: $v}) }", ""),
    (
        "query($v: Int) { f(o: {x: 1, o: {x: $v, l: [$v]}}) }",
        "36 6 variable `$v` of type `Int` used in position expecting type `Int!`\n44 6 variable `$v` of type `Int` used in position expecting type `Int!`\n",
    ),
    (
        "query($v: Int) { f(os: {x: $v}) }",
        "27 6 variable `$v` of type `Int` used in position expecting type `Int!`\n",
    ),
    // whole values
    (
        "query($v: Int) { f(x: $v) }",
        "22 6 variable `$v` of type `Int` used in position expecting type `Int!`\n",
    ),
    ("query($v: Int) { f(d: $v) }", ""),
    (
        "query($v: String) { f(d: $v) }",
        "25 6 variable `$v` of type `String` used in position expecting type `Int!`\n",
    ),
    // no place is known
    ("query($v: String) { f(x: [$v], j: [$v, {a: $v}]) }", ""),
    (
        "query($v: String) { f(z: [$v], o: {z: $v}) @none(a: $v) }",
        "",
    ),
    ("{ f(l: [$v]) }", ""),
    // directives
    (
        "query($v: Int) @on(l: [$v]) { q @on(o: {x: $v}) { f } }",
        "23 6 variable `$v` of type `Int` used in position expecting type `Int!`\n43 6 variable `$v` of type `Int` used in position expecting type `Int!`\n",
    ),
    (
        "query($v: Int) { ... F @on(l: [$v]) ... on Query @on(l: [$v]) { q { f(l: [$v]) } } } fragment F on Query @on(l: [$v]) { f }",
        "31 6 variable `$v` of type `Int` used in position expecting type `Int!`\n57 6 variable `$v` of type `Int` used in position expecting type `Int!`\n74 6 variable `$v` of type `Int` used in position expecting type `Int!`\n113 6 variable `$v` of type `Int` used in position expecting type `Int!`\n",
    ),
    // fragments, each once for each operation that reaches it
    (
        "query A($v: Int) { ...F ...F } query B($v: Int!) { ...F } query C($v: [Int]) { q { ...G } } fragment F on Query { f(l: [$v]) ...G } fragment G on Query { q { ...F } f(n: [$v]) }",
        "120 8 variable `$v` of type `Int` used in position expecting type `Int!`\n171 66 variable `$v` of type `[Int]` used in position expecting type `Int`\n120 66 variable `$v` of type `[Int]` used in position expecting type `Int!`\n",
    ),
    (
        "query($v: Int) { q { f } } fragment F on Query { f(l: [$v]) }",
        "",
    ),
];

/// The reports, each on a line: the byte where the variable is used, that where it is defined, and the message.
fn lines(rt: &impl Abort, alloc: Global, reports: &[VariableMisuse]) -> String {
    let mut text = String::new(alloc);
    for report in reports {
        let used = report.location.expect(rt, "a place").start;
        let defined = report.definition_location.expect(rt, "a place").start;
        let line = format!(in alloc; "{used} {defined} {report}\n").expect(rt, "memory for a line");
        text.push_str(line.as_str()).expect(rt, "memory for a line");
    }
    text
}

/// Reports the variables that the text uses where they are not allowed.
fn reported(rt: &impl Abort, alloc: Global, schema: &Schema, text: &str) -> String {
    let Ok(document) = document_in_file(alloc, schema, text, FileId(1)) else {
        panic!(rt; "no document: {text}")
    };
    let mut reports = ReportList::new(alloc);
    check_variable_usages(&mut reports, schema, &document).expect(rt, "memory for reports");
    lines(rt, alloc, &reports.into_reports())
}

#[test]
fn each_usage_that_is_not_allowed_is_reported_at_its_place(rt: HostRuntime) {
    let alloc = rt.alloc();
    let Ok(schema) = schema(alloc, SCHEMA) else {
        panic!(rt; "no schema")
    };
    for (text, expected) in DOCUMENTS {
        let found = reported(&rt, alloc, &schema.0, text);
        assert_eq!(rt; found.as_str(), *expected, "{text}");
    }
}
