use super::fixtures::{is_text, reports, schema_of};
use graphql_diagnostics::DiagnosticList;
use graphql_documents::documents::{Schema, Valid};
use graphql_examples::find;
use graphql_schemas::schema::validate_schema;
use std::alloc::Global;
use std::fmt::Write;
use std::process::Abort;

/// What a validated schema brings, each time that it is validated.
struct Retained {
    schema: &'static str,
    reports: &'static str,
    /// The names of the types afterwards, in order.
    types: &'static str,
}

const SETTLED: &[Retained] = &[
    Retained {
        schema: "type Query { f: Int g: X }",
        reports: "- cannot find type `X` in this document\n",
        types: "Int String Boolean Query ",
    },
    // What is used and missing is added, and so the default is wrong.
    Retained {
        schema: "without Float type Query { f(n: Float = true): Int }",
        reports: "- expected value of type Float, found a boolean\n",
        types: "Int String Boolean Query Float ",
    },
    Retained {
        schema: "without Int without ID type Query { g: ID f: Int } enum E",
        reports: "- `E` has no enum values\n",
        types: "String Boolean Query E Int ID ",
    },
    Retained {
        schema: "type Query { f: Int } directive @d33(a: Int) on ARGUMENT_DEFINITION
            <1-32: directive @d%(a: Int @d%+) on ARGUMENT_DEFINITION >",
        reports: "- `d1` contains too much nesting\n",
        types: "Int String Boolean Query ",
    },
    Retained {
        schema: "without Float type Query { f: Float } scalar Date",
        reports: "",
        types: "String Boolean Query Date Float ",
    },
    Retained {
        schema: "type Query { f(a: A!): Int } input A { e: E! b: B! n: Int }
            input B { l: [A!]! d: ID! } enum E { X }",
        reports: "",
        types: "Int String Boolean ID Query A B E ",
    },
];

/// The names of the types, in order.
fn names_of(rt: &impl Abort, alloc: Global, schema: &Schema) -> String {
    let mut names = String::new(alloc);
    for name in schema.types.keys() {
        write!(names, "{name} ").expect(rt, "memory for a name");
    }
    names
}

/// Validates the schema, which brings what is expected of it.
fn is_retained(rt: &impl Abort, alloc: Global, schema: &mut Schema, expected: &Retained) {
    let mut found = DiagnosticList::new(alloc);
    validate_schema(&mut found, schema).expect(rt, "memory for reports");
    reports(rt, alloc, &found, expected.reports);
    is_text(rt, names_of(rt, alloc, schema).as_str(), expected.types);
}

#[test]
fn types_are_retained_whatever_is_reported_and_stay_so(rt: HostRuntime) {
    let alloc = rt.alloc();
    for expected in SETTLED {
        let mut schema = schema_of(&rt, alloc, expected.schema);
        is_retained(&rt, alloc, &mut schema.0, expected);
        is_retained(&rt, alloc, &mut schema.0, expected);
    }
}

/// A schema without faults, validated so many times.
fn validated(rt: &impl Abort, alloc: Global, written: &str, times: u8) -> Valid<Schema> {
    let mut schema = schema_of(rt, alloc, written);
    let mut found = DiagnosticList::new(alloc);
    for _ in 0..times {
        validate_schema(&mut found, &mut schema.0).expect(rt, "memory for reports");
    }
    reports(rt, alloc, &found, "");
    schema
}

#[test]
fn a_second_validation_changes_nothing(rt: HostRuntime) {
    let alloc = rt.alloc();
    let written = "without Float type Query { f(n: Float = 1): [Query!]! } scalar Date";
    let once = validated(&rt, alloc, written, 1);
    assert!(rt; validated(&rt, alloc, written, 2).0 == once.0);
}

#[test]
fn a_chain_is_not_too_long_where_its_end_was_gone_through(rt: HostRuntime) {
    let example = find("13f").expect(&rt, "an example");
    drop(validated(&rt, rt.alloc(), example.schema, 1));
}
