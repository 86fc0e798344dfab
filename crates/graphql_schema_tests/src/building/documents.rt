use super::texts::{lines, tree};
use graphql_building_reports::BuildingReportList;
use graphql_document_checking::check_document;
use graphql_documents::documents::Schema;
use graphql_notation::build;
use std::alloc::Global;
use std::process::Abort;

/// The schema of all documents.
const SCHEMA: &str = "type Query { a: Int b: B e: E } type B { c: Int } enum E { X }";

/// Texts of documents, and what is reported of each.
const DOCUMENTS: &[(&str, &str)] = &[
    ("{ a b { c } e ... on B { c } }", ""),
    ("{ z }", "2 type `Query` does not have a field `z`\n"),
    ("{ b { z } }", "6 type `B` does not have a field `z`\n"),
    ("{ z { y } }", "2 type `Query` does not have a field `z`\n"),
    (
        "{ a { z } }",
        "2 field selection of scalar type `Int` must not have subselections\n",
    ),
    (
        "{ e { z } }",
        "2 field selection of enum type `E` must not have subselections\n",
    ),
    (
        "{ ... on Z { a } }",
        "9 type condition `Z` of inline fragment is not a type defined in the schema\n",
    ),
    (
        "fragment F on Z { a }",
        "14 type condition `Z` of fragment `F` is not a type defined in the schema\n",
    ),
    (
        "mutation { a }",
        "0 `mutation` root operation type is not defined\n",
    ),
    (
        "type A { a: Int } { a }",
        "0 an executable document must not contain definitions of the type system\n",
    ),
    (
        "{ a } { e }",
        "0 anonymous operation cannot be selected when the document contains other operations\n6 anonymous operation cannot be selected when the document contains other operations\n",
    ),
    (
        "{ a } query A { a }",
        "0 anonymous operation cannot be selected when the document contains other operations\n",
    ),
    (
        "query A { a } { a } fragment A on B { c }",
        "14 anonymous operation cannot be selected when the document contains other operations\n",
    ),
    (
        "query A { a } query A { e } query B { a } query A { a }",
        "20 the operation `A` is defined multiple times in the document\n48 the operation `A` is defined multiple times in the document\n",
    ),
    (
        "fragment F on B { c } fragment F on Query { a } { a }",
        "31 the fragment `F` is defined multiple times in the document\n",
    ),
    (
        "query A { a } query B { a } fragment A on B { c } fragment B on B { c }",
        "",
    ),
    (
        "query A { z } query A { a } { a }",
        "28 anonymous operation cannot be selected when the document contains other operations\n20 the operation `A` is defined multiple times in the document\n10 type `Query` does not have a field `z`\n",
    ),
    (
        "{ z a { y } ... on Z { q } } fragment F on B { x }",
        "2 type `Query` does not have a field `z`\n4 field selection of scalar type `Int` must not have subselections\n19 type condition `Z` of inline fragment is not a type defined in the schema\n47 type `B` does not have a field `x`\n",
    ),
];

/// Reports what keeps the text from being built against the schema.
fn reported(rt: &impl Abort, alloc: Global, schema: &Schema, text: &str) -> String {
    let document = tree(rt, alloc, 1, text);
    let mut reports = BuildingReportList::new(alloc);
    check_document(&mut reports, schema, &document).expect(rt, "memory for reports");
    lines(rt, alloc, &reports)
}

#[test]
fn each_rule_of_documents_has_its_message_and_place(rt: HostRuntime) {
    let alloc = rt.alloc();
    let Ok(schema) = build::schema(alloc, SCHEMA) else {
        panic!(rt; "no schema")
    };
    for (text, expected) in DOCUMENTS {
        let found = reported(&rt, alloc, &schema.0, text);
        assert_eq!(rt; found.as_str(), *expected, "{text}");
    }
}
