use super::fixtures::reports_in_full;
use graphql_diagnostics::DiagnosticList;
use graphql_documents::documents::{ExecutableDocument, Schema};
use graphql_examples::{BuiltExample, Example, Subject, Validated, build_example, find};
use graphql_merging::merging::FieldsInSetCanMerge;
use graphql_notation::build::{document, schema};
use graphql_operations::operations_of;
use graphql_validation::entry::validate_executable_document;
use std::alloc::Global;
use std::process::Abort;

/// The schema and the document of an example.
fn parts<'a>(
    rt: &impl Abort,
    built_example: &'a BuiltExample,
) -> (&'a Schema, &'a ExecutableDocument) {
    match &built_example.validated {
        Validated::Document(document) => (&built_example.schema.0, document),
        _ => panic!(rt; "a document was expected"),
    }
}

/// After each operation of the example so many shapes were compared.
fn is_counted(rt: &impl Abort, alloc: Global, example: &Example, counts: &[u64]) {
    let built_example = build_example(alloc, example).expect(rt, "an example");
    let (schema, document) = parts(rt, &built_example);
    let operations = operations_of(alloc, document).expect(rt, "memory for a list");
    assert_eq!(rt; operations.len(), counts.len(), "{}", example.id);
    let mut found = DiagnosticList::new(alloc);
    let mut merging = FieldsInSetCanMerge::new(alloc, schema, document);
    for (operation, count) in operations.iter().zip(counts) {
        let merged = merging.validate_operation(*operation, &mut found);
        merged.expect(rt, "memory for reports");
        assert_eq!(rt; merging.shape_comparisons(), *count, "{}", example.id);
    }
}

/// Examples, and how many shapes were compared after each of their operations.
const COUNTS: &[(&str, &[u64])] = &[
    ("2", &[1]),
    ("3a", &[1]),
    ("4b", &[3]),
    ("9", &[1]),
    ("10a", &[0]),
    ("23a", &[1, 1]),
    ("34a", &[2]),
    ("34c", &[1]),
];

/// One field a thousand times.
const ONE_FIELD: Example = Example {
    id: "one field",
    schema: "type Query { q: Query a: Int b: Int }",
    subject: Subject::Document("{ <1-1000:a >}"),
    lines: "",
};

#[test]
fn the_first_field_is_compared_with_the_rest(rt: HostRuntime) {
    for (id, counts) in COUNTS {
        let example = find(id).expect(&rt, "an example");
        is_counted(&rt, rt.alloc(), example, counts);
    }
    is_counted(&rt, rt.alloc(), &ONE_FIELD, &[999]);
}

/// Examples, and what they report, with the key of the fields and with both fields.
const CONFLICTS: &[(&str, &str)] = &[
    ("3b", "- ConflictingFieldType x D.s C.n\n"),
    ("4a", "- ConflictingFieldName x D.a P.n\n"),
    ("4b", "- ConflictingFieldName y Query.a Query.b\n"),
    (
        "5",
        "- ConflictingFieldArgument f Query.f(l:) Query.f(l:)\n",
    ),
    ("34a", "- ConflictingFieldName x Query.a Query.b\n"),
    (
        "34b",
        "- ConflictingFieldName x D.a P.n\n\
            - ConflictingFieldName x C.a P.n\n",
    ),
];

/// Two fields that disagree in two arguments: the first of them is named.
const TWO_ARGUMENTS: Example = Example {
    id: "two arguments",
    schema: "type Query { f(m: Int, n: Int): Int }",
    subject: Subject::Document("{ x: f(m: 1, n: 1) x: f(m: 2, n: 2) }"),
    lines: "",
};

/// The example brings these reports.
fn brings(rt: &impl Abort, alloc: Global, example: &Example, expected: &str) {
    let built_example = build_example(alloc, example).expect(rt, "an example");
    let (schema, document) = parts(rt, &built_example);
    let mut found = DiagnosticList::new(alloc);
    let validated = validate_executable_document(&mut found, schema, document);
    validated.expect(rt, "memory for reports");
    drop(built_example);
    reports_in_full(rt, alloc, &found, expected);
}

#[test]
fn conflicts_name_the_first_field_and_the_one_that_conflicts(rt: HostRuntime) {
    for (id, expected) in CONFLICTS {
        let example = find(id).expect(&rt, "an example");
        brings(&rt, rt.alloc(), example, expected);
    }
    let first = "- ConflictingFieldArgument f Query.f(m:) Query.f(m:)\n";
    brings(&rt, rt.alloc(), &TWO_ARGUMENTS, first);
}

/// Fields with more arguments than are looked through one by one, or with objects of more entries, and what
/// merging reports of them.
const LONG_FIELDS: &[(&str, &str)] = &[
    // in another order
    ("{ f(<1-12:a%: %, >) f(<7-12:a%: %, ><1-6:a%: %, >) }", ""),
    // with other values: the first argument of the first field
    (
        "{ f(<1-12:a%: %, >) f(<7-12:a%: 0, ><1-4:a%: %, >a6: 6 a5: 0) }",
        "- ConflictingFieldArgument f Query.f(a5:) Query.f(a5:)\n",
    ),
    // without one of the first field, and of the second
    (
        "{ f(<1-12:a%: %, >) f(<6-13:a%: %, ><1-4:a%: %, >) }",
        "- ConflictingFieldArgument f Query.f(a5:) Query.f(a5:)\n",
    ),
    (
        "{ f(<1-9:a%: %, >) f(<4-12:a%: %, ><1-3:a%: %, >) }",
        "- ConflictingFieldArgument f Query.f(a10:) Query.f(a10:)\n",
    ),
    // of repeated ones the first counts
    (
        "{ f(<1-12:a%: %, ><1-12:a%: 0, >) f(<7-12:a%: %, ><1-6:a%: %, >a9: 0) }",
        "",
    ),
    (
        "{ f(<1-12:a%: %, >) f(a9: 0 <1-12:a%: %, >) }",
        "- ConflictingFieldArgument f Query.f(a9:) Query.f(a9:)\n",
    ),
    // the same of the entries of objects
    (
        "{ f(o: [{<1-12:e%: %, >}]) f(o: [{<7-12:e%: %, ><1-6:e%: %, >}]) }",
        "",
    ),
    (
        "{ f(o: {<1-12:e%: %, >}) f(o: {<7-12:e%: %, ><1-6:e%: 0, >}) }",
        "- ConflictingFieldArgument f Query.f(o:) Query.f(o:)\n",
    ),
    (
        "{ f(o: {<1-12:e%: %, >}) f(o: {<1-11:e%: %, >}) }",
        "- ConflictingFieldArgument f Query.f(o:) Query.f(o:)\n",
    ),
    (
        "{ f(o: {<1-11:e%: %, >}) f(o: {<1-12:e%: %, >}) }",
        "- ConflictingFieldArgument f Query.f(o:) Query.f(o:)\n",
    ),
    (
        "{ f(o: {<1-12:e%: %, >e3: 0}) f(o: {<7-12:e%: %, ><1-6:e%: %, >e9: 0}) }",
        "",
    ),
    (
        "{ f(o: {<1-12:e%: %, >}) f(o: {e3: 0 <1-12:e%: %, >}) }",
        "- ConflictingFieldArgument f Query.f(o:) Query.f(o:)\n",
    ),
];

/// Merging reports this of the operations of the document.
fn merges<'a>(
    rt: &impl Abort,
    alloc: Global,
    schema: &'a Schema,
    document: &'a ExecutableDocument,
    expected: &str,
) {
    let operations = operations_of(alloc, document).expect(rt, "memory for a list");
    let mut found = DiagnosticList::new(alloc);
    let mut merging = FieldsInSetCanMerge::new(alloc, schema, document);
    for operation in &operations {
        let merged = merging.validate_operation(*operation, &mut found);
        merged.expect(rt, "memory for reports");
    }
    reports_in_full(rt, alloc, &found, expected);
}

#[test]
fn many_arguments_and_entries_are_compared_by_name(rt: HostRuntime) {
    let schema = schema(rt.alloc(), "type Query { f: Int }").expect(&rt, "a schema");
    for (text, expected) in LONG_FIELDS {
        let document = document(rt.alloc(), &schema.0, text).expect(&rt, "a document");
        merges(&rt, rt.alloc(), &schema.0, &document, expected);
    }
}
