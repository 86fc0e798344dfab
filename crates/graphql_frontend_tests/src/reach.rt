use crate::documents::lines;
use graphql_answers::frontend::{SourceText, validate_standalone_document};
use graphql_nodes::FileId;
use graphql_parser::Bounds;
use std::alloc::Global;
use std::process::Abort;

/// Two operations of 16 bytes, in a text of 33.
const OPERATIONS: &str = "query A { ...F } query B { ...F }";

/// How many bytes operations may reach for each byte of the texts, of which 65,536 count at least; how many bytes the fragment
/// has that both operations reach, and how many fields are in one another there; and what is reported. A document of 100
/// levels, the set of the operation and that of the fragment among them, may reach its bytes once.
const REACHES: &[(usize, usize, usize, &str)] = &[
    (0, 32_752, 0, ""),
    (1, 32_753, 0, "1:17 ReachesTooMuch\n"),
    (1, 100_000, 0, "1:17 ReachesTooMuch\n"),
    (2, 100_000, 0, ""),
    (2, 100_000, 97, ""),
    (2, 100_000, 98, "1:17 ReachesTooMuch\n"),
    (2, 32_752, 98, ""),
];

fn bounds(reach: usize) -> Bounds {
    Bounds {
        tokens: usize::MAX,
        depth: 500,
        reach,
        work: usize::MAX,
        reports: usize::MAX,
        report_bytes: usize::MAX,
    }
}

/// A text, and behind it a fragment of so many bytes, with so many fields in one another.
fn with_fragment(
    rt: &impl Abort,
    alloc: Global,
    text: &str,
    bytes: usize,
    nested: usize,
) -> String {
    let opened = "a{".repeat(alloc, nested).expect(rt, "memory for fields");
    let closed = "}".repeat(alloc, nested).expect(rt, "memory for fields");
    let written = opened.len().saturating_add(closed.len()).saturating_add(23);
    let spaces = " "
        .repeat(alloc, bytes.saturating_sub(written))
        .expect(rt, "memory for spaces");
    format!(in alloc; "{text}fragment F on Query {{{spaces}{opened}s{closed}}}").expect(
        rt,
        "memory for a text",
    )
}

#[test]
fn operations_reach_within_a_bound(rt: HostRuntime) {
    let alloc = rt.alloc();
    for (reach, bytes, nested, expected) in REACHES {
        let text = with_fragment(&rt, alloc, OPERATIONS, *bytes, *nested);
        let source = SourceText {
            file_id: FileId(1),
            text: text.as_str(),
        };
        let found = validate_standalone_document(alloc, source, bounds(*reach));
        match found.expect(&rt, "memory for reports") {
            Some(reports) => {
                let lines = lines(&rt, alloc, &reports, &[source]);
                assert_eq!(rt; lines.as_str(), *expected, "{reach} {bytes} {nested}");
            }
            None => assert_eq!(rt; "", *expected, "{reach} {bytes} {nested}"),
        }
    }
}
