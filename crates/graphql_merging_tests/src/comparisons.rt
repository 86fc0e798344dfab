use graphql_contents::NumberedDocument;
use graphql_documents::documents::{ExecutableDocument, SelectionSet};
use graphql_field_conflicts::comparisons::{FieldConflict, find_field_conflict, is_same_value};
use graphql_field_conflicts::field_selections::FieldSelection;
use graphql_merging::expansion::expand_selections;
use graphql_nodes::FileId;
use graphql_notation::build::{document_in_file, schema};
use graphql_operations::operations_of;
use std::alloc::Global;
use std::process::Abort;

/// The schema of all documents.
const SCHEMA: &str = "type Query { f(a: J, b: J): Int g: Int q: Query } scalar J";

/// What makes two fields conflict.
#[derive(Clone, Copy, Debug, PartialEq, Eq)]
enum Found {
    Nothing,
    Names,
    /// An argument that the second lacks.
    FirstAlone,
    /// An argument that the first lacks.
    SecondAlone,
    /// Two values of one argument.
    Both,
}

/// Two fields, and what makes them conflict: order counts for nothing among arguments and entries, and for all among items.
const FIELDS: &[(&str, Found)] = &[
    ("{ f(a: 1, b: 2) k: f(b: 2, a: 1) }", Found::Nothing),
    ("{ f k: f }", Found::Nothing),
    ("{ f k: g }", Found::Names),
    ("{ f(a: 1) k: f }", Found::FirstAlone),
    ("{ f k: f(a: 1) }", Found::SecondAlone),
    ("{ f(a: 1) k: f(a: 2) }", Found::Both),
    ("{ f(a: 1) k: f(b: 1) }", Found::FirstAlone),
    ("{ f(a: [1, 2]) k: f(a: [2, 1]) }", Found::Both),
    (
        "{ f(a: {x: 1, y: [2]}) k: f(a: {y: [2], x: 1}) }",
        Found::Nothing,
    ),
    ("{ f(a: {x: 1, y: 2}) k: f(a: {x: 1}) }", Found::Both),
    ("{ f(a: \"1\") k: f(a: 1) }", Found::Both),
];

fn set_of<'a>(
    rt: &impl Abort,
    alloc: Global,
    document: &'a ExecutableDocument,
) -> &'a SelectionSet {
    let operations = operations_of(alloc, document).expect(rt, "memory for operations");
    let operation = operations.first().expect(rt, "an operation");
    &operation.value.selection_set
}

fn found_between<'a>(
    rt: &impl Abort,
    alloc: Global,
    document: &'a ExecutableDocument,
    a: FieldSelection<'a>,
    b: FieldSelection<'a>,
) -> Found {
    match find_field_conflict(alloc, document.hash_seed(), a, b).expect(rt, "memory for names") {
        None => Found::Nothing,
        Some(FieldConflict::Names) => Found::Names,
        Some(FieldConflict::FirstAlone(_)) => Found::FirstAlone,
        Some(FieldConflict::SecondAlone(_)) => Found::SecondAlone,
        Some(FieldConflict::Both(_, _)) => Found::Both,
    }
}

#[test]
fn a_conflict_of_two_fields_is_found(rt: HostRuntime) {
    let alloc = rt.alloc();
    let Ok(schema) = schema(alloc, SCHEMA) else {
        panic!(rt; "no schema")
    };
    for (text, expected) in FIELDS {
        let Ok(document) = document_in_file(alloc, &schema.0, text, FileId(1)) else {
            panic!(rt; "no document: {text}")
        };
        let set = set_of(&rt, alloc, &document);
        let fields = expand_selections(alloc, &document.fragments, &[set]).expect(
            &rt,
            "memory for fields",
        );
        let first = *fields.first().expect(&rt, "a field");
        let second = *fields.get(1).expect(&rt, "another field");
        let found = found_between(&rt, alloc, &document, first, second);
        assert_eq!(rt; found, *expected, "{text}");
    }
}

/// Two values of one argument are the same exactly if the fields do not conflict.
#[test]
fn values_are_the_same_up_to_the_order_of_entries(rt: HostRuntime) {
    let alloc = rt.alloc();
    let Ok(schema) = schema(alloc, SCHEMA) else {
        panic!(rt; "no schema")
    };
    let text = "{ f(a: {x: 1, y: [2]}, b: {y: [2], x: 1}) k: f(a: [1, 2], b: [2, 1]) }";
    let Ok(document) = document_in_file(alloc, &schema.0, text, FileId(1)) else {
        panic!(rt; "no document")
    };
    let set = set_of(&rt, alloc, &document);
    let fields = expand_selections(alloc, &document.fragments, &[set]).expect(
        &rt,
        "memory for fields",
    );
    for (field, expected) in fields.iter().zip([true, false]) {
        let arguments = &field.field.value.arguments;
        let a = &arguments
            .first()
            .expect(&rt, "an argument")
            .value
            .value
            .value;
        let b = &arguments
            .get(1)
            .expect(&rt, "another argument")
            .value
            .value
            .value;
        let same = is_same_value(alloc, document.hash_seed(), a, b).expect(&rt, "memory for names");
        assert_eq!(rt; same, expected);
    }
}

/// Selections of the same contents have one number, and those of others another.
#[test]
fn selections_of_the_same_contents_have_one_number(rt: HostRuntime) {
    let alloc = rt.alloc();
    let Ok(schema) = schema(alloc, SCHEMA) else {
        panic!(rt; "no schema")
    };
    let text = "{ q { g } g q { g } q { g g } g }";
    let Ok(document) = document_in_file(alloc, &schema.0, text, FileId(1)) else {
        panic!(rt; "no document")
    };
    let set = set_of(&rt, alloc, &document);
    let mut numbered = NumberedDocument::new(alloc, &document);
    let numbers = numbered
        .number_operation(alloc, set)
        .expect(&rt, "memory for numbers");
    assert_eq!(rt; numbers.len(), 5);
    assert_eq!(rt; numbers[0], numbers[2]);
    assert_eq!(rt; numbers[1], numbers[4]);
    assert!(rt; numbers[0] != numbers[1]);
    assert!(rt; numbers[0] != numbers[3]);
    assert!(rt; numbers[1] != numbers[3]);
}
