use super::texts::{lines, tree};
use graphql_building_reports::BuildingReportList;
use graphql_schema_building::BUILT_IN_DEFINITIONS;
use graphql_schema_checking::check_schema;
use std::alloc::Global;
use std::process::Abort;

/// Texts of one schema, and what is reported of each.
const SCHEMAS: &[(&str, &str)] = &[
    ("type Query { a: Int }", ""),
    (
        "type Query { a: Int } query { a }",
        "22 a schema document must not contain an operation definition\n",
    ),
    (
        "fragment F on Query { a } type Query { a: Int }",
        "0 a schema document must not contain a fragment definition\n",
    ),
    (
        "schema { query: A } type A { a: Int } schema { query: A }",
        "38 must not have multiple `schema` definitions\n54 duplicate definitions for the `query` root operation type\n",
    ),
    (
        "schema { query: A query: B } type A { a: Int } type B { a: Int }",
        "25 duplicate definitions for the `query` root operation type\n",
    ),
    (
        "schema { query: A } extend schema { query: A } type A { a: Int }",
        "43 duplicate definitions for the `query` root operation type\n",
    ),
    (
        "type Query { a: Int } extend schema { mutation: M } type M { a: Int }",
        "",
    ),
    (
        "type A { a: Int } extend schema { query: A }",
        "18 schema extension without a schema definition\n",
    ),
    (
        "type Query { a: Int } scalar Int",
        "22 built-in scalar definitions must be omitted\n",
    ),
    (
        "type A { a: Int } enum A { B } type Query { a: A }",
        "23 the type `A` is defined multiple times in the schema\n",
    ),
    (
        "directive @a on FIELD directive @a on QUERY type Query { a: Int }",
        "33 the directive `@a` is defined multiple times in the schema\n",
    ),
    (
        "directive @skip(if: Boolean!) on FIELD type Query { a: Int }",
        "",
    ),
    (
        "extend type A { a: Int } type Query { a: Int }",
        "12 type extension for undefined type `A`\n",
    ),
    (
        "extend input Query { b: Int } type Query { a: Int }",
        "13 adding an input object type extension, but `Query` is an object type\n",
    ),
    (
        "type Query { a: Int a: Int }",
        "20 duplicate definitions for the `a` field of object type `Query`\n",
    ),
    (
        "type Query { a: Int } extend type Query { b: Int a: Int }",
        "49 duplicate definitions for the `a` field of object type `Query`\n",
    ),
    (
        "interface I { a: Int a: Int } type Query { a: I }",
        "21 duplicate definitions for the `a` field of interface type `I`\n",
    ),
    (
        "input I { a: Int a: Int } type Query { a(i: I): Int }",
        "17 duplicate definitions for the `a` field of input object type `I`\n",
    ),
    (
        "enum E { A B A } type Query { a: E }",
        "13 duplicate definitions for the `A` value of enum type `E`\n",
    ),
    (
        "union U = A | A type A { a: Int } type Query { a: U }",
        "14 duplicate definitions for the `A` member of union type `U`\n",
    ),
    (
        "interface I { a: Int } type Query implements I & I { a: Int }",
        "49 object type `Query` implements interface `I` more than once\n",
    ),
    (
        "interface I { a: Int } interface J implements I { a: Int } extend interface J implements I type Query { a: J }",
        "89 interface type `J` implements interface `I` more than once\n",
    ),
];

/// Reports what keeps the text from making a schema, behind the definitions that every schema has.
fn reported(rt: &impl Abort, alloc: Global, text: &str) -> String {
    let trees = [
        tree(rt, alloc, 0, BUILT_IN_DEFINITIONS),
        tree(rt, alloc, 1, text),
    ];
    let mut reports = BuildingReportList::new(alloc);
    check_schema(&mut reports, &trees).expect(rt, "memory for reports");
    lines(rt, alloc, &reports)
}

#[test]
fn each_rule_of_schemas_has_its_message_and_place(rt: HostRuntime) {
    let alloc = rt.alloc();
    for (text, expected) in SCHEMAS {
        let found = reported(&rt, alloc, text);
        assert_eq!(rt; found.as_str(), *expected, "{text}");
    }
}
