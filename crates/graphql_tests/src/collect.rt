use super::fixtures::{is_text, name, schema_of};
use graphql_diagnostics::DiagnosticList;
use graphql_documents::documents::{ExecutableDocument, Schema, Selection, SelectionSet};
use graphql_field_conflicts::field_selections::FieldSelection;
use graphql_hash_seeds::HashSeed;
use graphql_merging::expansion::expand_selections;
use graphql_merging::groups::fields_by_key;
use graphql_notation::build::document;
use graphql_validation::collect::collect_fields;
use graphql_validation::entry::validate_executable_document;
use indexmap::IndexMap;
use std::alloc::Global;
use std::fmt::Write;
use std::process::Abort;

/// From which set of a document's query fields are collected.
#[derive(Clone, Copy)]
enum From {
    Operation,
    FirstField,
}

/// What an object answers, each key with the coordinates of its fields.
struct Collection {
    schema: &'static str,
    document: &'static str,
    from: From,
    object: &'static str,
    expected: &'static str,
}

const ABSTRACT: &str = "type Query { p: P } interface P { n: Int }\
    type D implements P { n: Int a: Int s: String } type C implements P { n: Int a: Int }";

const ITSELF: &str = "type Query { q: Query a: Int b: Int }";

const BY_TYPES: &str = "{ p { x: n ... on D { x: n y: a } ... on C { y: n } } }";

const COLLECTIONS: &[Collection] = &[
    Collection {
        schema: ABSTRACT,
        document: BY_TYPES,
        from: From::FirstField,
        object: "D",
        expected: "x: P.n D.n\ny: D.a\n",
    },
    Collection {
        schema: ABSTRACT,
        document: BY_TYPES,
        from: From::FirstField,
        object: "C",
        expected: "x: P.n\ny: C.n\n",
    },
    Collection {
        schema: ABSTRACT,
        document: BY_TYPES,
        from: From::FirstField,
        object: "Query",
        expected: "",
    },
    Collection {
        schema: ITSELF,
        document: "query { ...F } fragment F on Query { q { ...F } x: a x: b }",
        from: From::Operation,
        object: "Query",
        expected: "q: Query.q\nx: Query.a Query.b\n",
    },
    Collection {
        schema: ITSELF,
        document: "{ ...F a ...F } fragment F on Query { b }",
        from: From::Operation,
        object: "Query",
        expected: "b: Query.b\na: Query.a\n",
    },
    // A fragment whose condition does not apply gives nothing, and neither does what is undefined.
    Collection {
        schema: ABSTRACT,
        document: "{ p { ... on C { x: n } ...G n } } fragment G on C { y: n }",
        from: From::FirstField,
        object: "D",
        expected: "n: P.n\n",
    },
];

fn set_of<'a>(rt: &impl Abort, document: &'a ExecutableDocument, from: From) -> &'a SelectionSet {
    let operation = document.operations.anonymous.as_ref();
    let set = &operation.expect(rt, "a query").value.selection_set;
    match (from, set.selections.first()) {
        (From::FirstField, Some(Selection::Field(field))) => &field.value.selection_set,
        (From::Operation, _) => set,
        _ => panic!(rt; "a field was expected"),
    }
}

/// The keys, each on a line with the coordinates of its fields.
fn shown(
    rt: &impl Abort,
    alloc: Global,
    collected: &IndexMap<&graphql_nodes::Name, Vec<FieldSelection<'_>>, HashSeed>,
) -> String {
    let mut text = String::new(alloc);
    for (key, fields) in collected {
        write!(text, "{key}:").expect(rt, "memory for a line");
        for field in fields {
            let coordinate = field
                .coordinate(alloc)
                .expect(rt, "memory for a coordinate");
            write!(text, " {coordinate}").expect(rt, "memory for a line");
        }
        text.push_str("\n").expect(rt, "memory for a line");
    }
    text
}

/// What the object answers of the document.
fn answered(
    rt: &impl Abort,
    alloc: Global,
    schema: &Schema,
    document: &ExecutableDocument,
    collection: &Collection,
) -> String {
    let object = name(rt, alloc, collection.object);
    let sets = [set_of(rt, document, collection.from)];
    let collected = collect_fields(alloc, schema, document, &object, &sets);
    shown(rt, alloc, &collected.expect(rt, "memory for fields"))
}

/// What the object of a collection answers of the document, which is built from the texts of the
/// collection.
fn answered_of(rt: &impl Abort, alloc: Global, collection: &Collection) -> String {
    let schema = schema_of(rt, alloc, collection.schema);
    let document = document(alloc, &schema.0, collection.document).expect(rt, "a document");
    answered(rt, alloc, &schema.0, &document, collection)
}

#[test]
fn fields_are_collected_by_key_for_an_object(rt: HostRuntime) {
    for collection in COLLECTIONS {
        let found = answered_of(&rt, rt.alloc(), collection);
        is_text(&rt, found.as_str(), collection.expected);
    }
}

#[test]
fn what_is_collected_of_a_silent_document_has_one_field_a_key(rt: HostRuntime) {
    let alloc = rt.alloc();
    let schema = schema_of(&rt, alloc, ABSTRACT);
    let document = document(alloc, &schema.0, BY_TYPES).expect(&rt, "a document");
    let mut diagnostics = DiagnosticList::new(alloc);
    let validated = validate_executable_document(&mut diagnostics, &schema.0, &document);
    validated.expect(&rt, "memory for reports");
    assert!(&rt; diagnostics.is_empty());
}

/// The fields of the operation's set and of the fragments in it, by key.
fn expanded(rt: &impl Abort, alloc: Global, document: &ExecutableDocument) -> String {
    let sets = [set_of(rt, document, From::Operation)];
    let fields = expand_selections(alloc, &document.fragments, &sets);
    let fields = fields.expect(rt, "memory for fields");
    let by_key = fields_by_key(alloc, document.hash_seed(), &fields).expect(rt, "memory for keys");
    shown(rt, alloc, &by_key)
}

#[test]
fn fields_of_a_set_and_of_its_fragments_are_listed_by_key(rt: HostRuntime) {
    let alloc = rt.alloc();
    let schema = schema_of(&rt, alloc, ITSELF);
    let written = "{ ...F x: a y: a ... { x: b } } fragment F on Query { y: b }";
    let document = document(alloc, &schema.0, written).expect(&rt, "a document");
    let found = expanded(&rt, alloc, &document);
    is_text(
        &rt,
        found.as_str(),
        "x: Query.a Query.b\ny: Query.a Query.b\n",
    );
}
