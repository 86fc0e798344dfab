use crate::documents::lines;
use graphql_answers::frontend::{SourceText, validate_standalone_document};
use graphql_nodes::FileId;
use graphql_parser::Bounds;

/// Documents that are validated without a schema, with what is reported: the byte and the rule, and the byte of the first of
/// a repetition. Without a schema no directive is defined.
const STANDALONE: &[(&str, &str)] = &[
    ("{ a { b ... on C { d } ...F } } fragment F on E { g }", ""),
    ("query A($v: Int) { a(b: $v) } mutation B { c }", ""),
    ("{ a", "1:3 Syntax\n"),
    (
        "{ a } { b }",
        "1:0 AmbiguousAnonymousOperation\n1:6 AmbiguousAnonymousOperation\n",
    ),
    (
        "query A { a } query A { b }",
        "1:20 OperationNameCollision 6\n",
    ),
    ("{ a } type B { c: Int }", "1:6 TypeSystemDefinition\n"),
    ("query($v: Int) { a }", "1:6 UnusedVariable\n"),
    ("{ a ...F }", "1:4 UndefinedFragment\n"),
    ("{ a } fragment F on B { c }", "1:6 UnusedFragment\n"),
    ("{ a @skip(if: true) }", "1:4 UndefinedDirective\n"),
    ("{ a(b: {x: 1, x: 2}) }", "1:14 UniqueInputField 8\n"),
    ("{ a(b: $u) }", "1:7 UndefinedVariable\n"),
    (
        "{ a(b: {c: [$u]}) ...F } fragment F on E { g(h: $w) }",
        "1:12 UndefinedVariable\n1:48 UndefinedVariable\n",
    ),
    ("query($u: Int) { a(b: {c: [$u]}) }", ""),
];

#[test]
fn documents_are_validated_without_a_schema(rt: HostRuntime) {
    let alloc = rt.alloc();
    for (text, expected) in STANDALONE {
        let source = SourceText {
            file_id: FileId(1),
            text: *text,
        };
        let found = validate_standalone_document(alloc, source, Bounds::DEFAULT);
        match found.expect(&rt, "memory for reports") {
            Some(reports) => {
                let lines = lines(&rt, alloc, &reports, &[source]);
                assert_eq!(rt; lines.as_str(), *expected, "{text}");
            }
            None => assert_eq!(rt; "", *expected, "{text}"),
        }
    }
}
