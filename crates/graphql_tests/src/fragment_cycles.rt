use super::fixtures::{is_text, query_of_itself, reports};
use graphql_cycles::fragments::validate_fragment_cycles;
use graphql_diagnostics::{Details, DiagnosticData, DiagnosticEntry, DiagnosticList};
use graphql_documents::documents::ExecutableDocument;
use graphql_notation::build::document;
use std::alloc::Global;
use std::process::Abort;

/// A document of these fragments over a query of itself.
fn fragments_of(rt: &impl Abort, alloc: Global, written: &str) -> ExecutableDocument {
    let schema = query_of_itself(rt, alloc);
    document(alloc, &schema.0, written).expect(rt, "a document")
}

/// What the check of the first fragment reports.
fn checked(rt: &impl Abort, alloc: Global, document: &ExecutableDocument) -> DiagnosticList {
    let (_, first) = document.fragments.first().expect(rt, "a fragment");
    let mut diagnostics = DiagnosticList::new(alloc);
    validate_fragment_cycles(&mut diagnostics, document, first).expect(rt, "memory for reports");
    diagnostics
}

/// What the check of the first of these fragments reports.
fn checked_text(rt: &impl Abort, alloc: Global, written: &str) -> DiagnosticList {
    checked(rt, alloc, &fragments_of(rt, alloc, written))
}

/// The check of the first of these fragments brings these reports, each on a line.
fn brings(rt: &impl Abort, alloc: Global, written: &str, expected: &str) {
    reports(rt, alloc, &checked_text(rt, alloc, written), expected);
}

#[test]
fn only_a_fragment_on_a_cycle_is_reported(rt: HostRuntime) {
    let alloc = rt.alloc();
    let circle = "fragment A on Query { ...B } fragment B on Query { q { ...A } }";
    brings(
        &rt,
        alloc,
        circle,
        "- `A` fragment cannot reference itself\n",
    );
    let before = "fragment F on Query { ...A ...F2 ...None } fragment F2 on Query { ...B }
        fragment A on Query { ...B } fragment B on Query { q { ...A } }";
    brings(&rt, alloc, before, "");
}

#[test]
fn paths_go_through_100_fragments(rt: HostRuntime) {
    let alloc = rt.alloc();
    let least = "<1-99:fragment F% on Query { ...F%+ } >fragment F100 on Query { a }";
    brings(&rt, alloc, least, "");
    let more = "<1-100:fragment F% on Query { ...F%+ } >fragment F101 on Query { a }";
    brings(&rt, alloc, more, "- `F1` contains too much nesting\n");
}

#[test]
fn a_path_that_meets_a_fragment_again_is_not_too_long(rt: HostRuntime) {
    brings(
        &rt,
        rt.alloc(),
        "fragment F on Query { ...X } fragment X on Query { <1-120:...L% > }
        <1-120:fragment L% on Query { ...Y } >fragment Y on Query { ...X }",
        "",
    );
}

/// The names of the spreads in the trace of a cycle, one behind another.
fn trace_of(rt: &impl Abort, alloc: Global, report: &DiagnosticEntry) -> String {
    let mut text = String::new(alloc);
    match &report.details {
        Details::Diagnostic(DiagnosticData::RecursiveFragmentDefinition { trace, .. }) => {
            for spread in trace {
                let name = spread.value.fragment_name.as_str();
                text.push_str(name).expect(rt, "memory for a name");
            }
        }
        _ => panic!(rt; "another report"),
    }
    text
}

#[test]
fn the_trace_goes_back_to_the_own_spread(rt: HostRuntime) {
    let alloc = rt.alloc();
    let diagnostics = checked_text(
        &rt,
        alloc,
        "fragment A on Query { a q { ...B } } fragment B on Query { ... { ...C } }
        fragment C on Query { ...D ...A } fragment D on Query { ...B }",
    );
    let report = diagnostics.iter().next().expect(&rt, "a report");
    is_text(&rt, trace_of(&rt, alloc, report).as_str(), "ACB");
}
