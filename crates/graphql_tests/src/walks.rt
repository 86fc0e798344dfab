use super::fixtures::{is_text, name, query_of_itself};
use graphql_documents::documents::{ExecutableDocument, Selection, SelectionSet};
use graphql_hash_seeds::HashSeed;
use graphql_notation::build::document;
use graphql_variables::first_places::{FirstPlaces, first_place};
use graphql_variables::{
    Walked, walk_open_selections, walk_selections, walk_selections_with_deduped_fragments,
};
use std::alloc::Global;
use std::fmt::Write;
use std::process::Abort;

/// A document of this text over a query of itself.
fn document_of(rt: &impl Abort, alloc: Global, written: &str) -> ExecutableDocument {
    let schema = query_of_itself(rt, alloc);
    document(alloc, &schema.0, written).expect(rt, "a document")
}

/// The set of the one operation.
fn set_of<'a>(rt: &impl Abort, document: &'a ExecutableDocument) -> &'a SelectionSet {
    let operation = document.operations.anonymous.as_ref();
    &operation.expect(rt, "an operation").value.selection_set
}

/// Writes the name of a selection.
fn show(rt: &impl Abort, text: &mut String, selection: &Selection) {
    let shown = match selection {
        Selection::Field(field) => write!(text, " {}", field.value.name),
        Selection::FragmentSpread(spread) => write!(text, " ...{}", spread.value.fragment_name),
        Selection::InlineFragment(_) => write!(text, " ..."),
    };
    shown.expect(rt, "memory for a name")
}

/// The walk came to its end, and listed these selections.
fn has_listed(rt: &impl Abort, alloc: Global, walked: &Walked<'_>, expected: &str) {
    let mut listed = String::new(alloc);
    for selection in &walked.selections {
        show(rt, &mut listed, *selection);
    }
    is_text(rt, listed.as_str(), expected);
    assert!(rt; walked.complete, "{expected}");
}

/// A document, what the walk inside the set of its operation lists, and what the one below fields does.
const WALKS: &[(&str, &str, &str)] = &[
    (
        "query { ...F } fragment F on Query { q { ...F } x: a x: b }",
        " ...F q a b",
        " ...F q ...F a b",
    ),
    (
        "query { q { a } ...F ... { b } ...F ...Missing a } fragment F on Query { q { b } ...F }",
        " q ...F q ...F ... b ...F ...Missing a",
        " q a ...F q b ...F ... b ...F ...Missing a",
    ),
];

/// What the walk inside the set of the document's operation lists.
fn inside<'a>(rt: &impl Abort, alloc: Global, document: &'a ExecutableDocument) -> Walked<'a> {
    walk_selections(alloc, document, set_of(rt, document)).expect(rt, "memory")
}

/// What the walk below fields lists.
fn below<'a>(rt: &impl Abort, alloc: Global, document: &'a ExecutableDocument) -> Walked<'a> {
    let walked = walk_selections_with_deduped_fragments(alloc, document, set_of(rt, document));
    walked.expect(rt, "memory")
}

#[test]
fn walks_go_depth_first_and_into_each_fragment_once(rt: HostRuntime) {
    let alloc = rt.alloc();
    for (written, listed, listed_below) in WALKS {
        let document = document_of(&rt, alloc, written);
        has_listed(&rt, alloc, &inside(&rt, alloc, &document), listed);
        has_listed(&rt, alloc, &below(&rt, alloc, &document), listed_below);
    }
}

fn is_complete_inside(rt: &impl Abort, alloc: Global, written: &str) -> bool {
    inside(rt, alloc, &document_of(rt, alloc, written)).complete
}

fn is_complete_below(rt: &impl Abort, alloc: Global, written: &str) -> bool {
    below(rt, alloc, &document_of(rt, alloc, written)).complete
}

#[test]
fn walks_go_into_500_sets(rt: HostRuntime) {
    let alloc = rt.alloc();
    assert!(rt; is_complete_inside(&rt, alloc, "{ <1-500:... { ><1-500:} >}"));
    assert!(rt; !is_complete_inside(&rt, alloc, "{ <1-501:... { ><1-501:} >}"));
    assert!(rt; is_complete_below(&rt, alloc, "{ <1-500:q { ><1-500:} >}"));
    assert!(rt; !is_complete_below(&rt, alloc, "{ <1-501:q { ><1-501:} >}"));
}

#[test]
fn a_walk_passes_over_what_a_condition_may_leave_out(rt: HostRuntime) {
    let alloc = rt.alloc();
    let written = "{ q { a @skip(if: true) b } q @include(if: false) { a } ...F } \
        fragment F on Query { a @skip(if: false) }";
    let document = document_of(&rt, alloc, written);
    let walked = walk_open_selections(alloc, &document, set_of(&rt, &document));
    let walked = walked.expect(&rt, "memory");
    has_listed(&rt, alloc, &walked, " q b ...F a");
}

#[test]
fn the_first_place_of_a_name_is_kept(rt: HostRuntime) {
    let alloc = rt.alloc();
    let visited = name(&rt, alloc, "a");
    let mut seen = FirstPlaces::with_hasher(alloc, HashSeed::default());
    let first = first_place(&mut seen, &visited, None).expect(&rt, "memory for a name");
    let second = first_place(&mut seen, &visited, None).expect(&rt, "memory for a name");
    assert!(rt; first == None && second == Some(None));
}
