use crate::documents::{reported, sources, texts_of_schema};
use graphql_answers::frontend::{
    BUILT_IN_DEFINITIONS, Reports, SchemaReading, SourceText, read_schema,
    validate_standalone_document,
};
use graphql_hash_seeds::HashSeed;
use graphql_nodes::FileId;
use graphql_parser::Bounds;
use std::fmt::Write;
use std::hash::BuildHasher;

const SCHEMA: &str = "type Query { a: Int q: Query }";

const VALUES: &str =
    "scalar S input I { a: Int } input R { b: Int! c: Int! d: Int! } type Query { s(s: S): Int i(i: I): Int r(r: R): Int }";

const SUBSCRIBED: &str = "type Query { a: Int } type Subscription { a: Int }";

/// Texts of a schema and of a document, how many reports are kept, how many bytes their messages may have, and what is reported.
const REPORTS: &[(&str, &str, usize, usize, &str)] = &[
    (
        SCHEMA,
        "{ x y z }",
        3,
        1_000,
        "1:2 UndefinedField\n1:4 UndefinedField\n1:6 UndefinedField\n",
    ),
    (
        SCHEMA,
        "{ x y z }",
        2,
        1_000,
        "1:2 UndefinedField\n1:4 UndefinedField\nMoreReports\n",
    ),
    (
        SCHEMA,
        "{ x y z }",
        0,
        1_000,
        "1:2 UndefinedField\nMoreReports\n",
    ),
    (
        SCHEMA,
        "{ x y z }",
        3,
        1,
        "1:2 UndefinedField\nMoreReports\n",
    ),
    (
        SCHEMA,
        "query ($a: Int, $b: Int) { a }",
        2,
        1_000,
        "1:7 UnusedVariable\n1:16 UnusedVariable\n",
    ),
    (
        SCHEMA,
        "query ($a: Int, $b: Int) { a }",
        1,
        1_000,
        "1:7 UnusedVariable\nMoreReports\n",
    ),
    (
        SCHEMA,
        "query ($a: Int, $b: Int) { a }",
        2,
        0,
        "1:7 UnusedVariable\nMoreReports\n",
    ),
    (
        SUBSCRIBED,
        "subscription Long { a @skip(if: true) a @skip(if: true) }",
        2,
        136,
        "1:22 SubscriptionUsesConditionalSelection\n1:40 SubscriptionUsesConditionalSelection\n",
    ),
    (
        SUBSCRIBED,
        "subscription Long { a @skip(if: true) a @skip(if: true) }",
        2,
        135,
        "1:22 SubscriptionUsesConditionalSelection\nMoreReports\n",
    ),
    (
        "type Query { a: X b: Y }",
        "{ a }",
        2,
        1_000,
        "9:16 UndefinedDefinition\n9:21 UndefinedDefinition\n",
    ),
    (
        "type Query { a: X b: Y }",
        "{ a }",
        1,
        1_000,
        "9:16 UndefinedDefinition\nMoreReports\n",
    ),
    (
        "type Query { a: Int a: Int a: Int }",
        "{ a }",
        1,
        1_000,
        "9:20 MemberNameCollision 13\nMoreReports\n",
    ),
    (
        VALUES,
        "{ s(s: {x: $x, y: $y, z: $z}) }",
        2,
        1_000,
        "1:11 UndefinedVariable\n1:18 UndefinedVariable\nMoreReports\n",
    ),
    (
        VALUES,
        "{ s(s: {x: $x, y: $y}) }",
        2,
        1_000,
        "1:11 UndefinedVariable\n1:18 UndefinedVariable\n",
    ),
    (
        VALUES,
        "{ i(i: {a: 1, a: 2, a: 3}) }",
        1,
        1_000,
        "1:14 UniqueInputField 8\nMoreReports\n",
    ),
    (
        VALUES,
        "query ($s: Int) { r(r: {b: $s, c: $s, d: $s}) }",
        2,
        1_000,
        "1:27 DisallowedVariableUsage 7\n1:34 DisallowedVariableUsage 7\nMoreReports\n",
    ),
    (
        VALUES,
        "query ($s: Int) { r(r: {b: $s, c: $s, d: $s}) }",
        3,
        10,
        "1:27 DisallowedVariableUsage 7\nMoreReports\n",
    ),
    (
        "type Query { a(i: I = {x: 1, x: 2, x: 3}): Int } input I { x: Int }",
        "{ a }",
        1,
        1_000,
        "9:29 UniqueInputField 23\nMoreReports\n",
    ),
];

fn bounds(reports: usize, report_bytes: usize) -> Bounds {
    Bounds {
        tokens: usize::MAX,
        depth: 500,
        reach: 4,
        work: 1_000_000,
        reports,
        report_bytes,
    }
}

#[test]
fn the_first_reports_are_kept(rt: HostRuntime) {
    let alloc = rt.alloc();
    for (schema, document, reports, bytes, expected) in REPORTS {
        let sources = sources(&rt, alloc, document, "");
        let found = reported(&rt, alloc, schema, &sources, bounds(*reports, *bytes));
        assert_eq!(rt;
            found.as_str(),
            *expected,
            "{schema} {document} {reports} {bytes}"
        );
    }
}

#[test]
fn names_are_hashed_by_a_seed_of_the_text(rt: HostRuntime) {
    let alloc = rt.alloc();
    for text in &["query ($a: Int) { a }", "query ($b: Int) { a }"] {
        let source = SourceText {
            file_id: FileId(1),
            text: *text,
        };
        let found = validate_standalone_document(alloc, source, Bounds::DEFAULT).expect(
            &rt,
            "memory for reports",
        );
        match &found {
            Some(Reports::DocumentRules(reports)) => {
                let seed = reports.rules.hash_seed();
                let expected = HashSeed::of_text(text);
                assert_eq!(rt; seed.hash_one("name"), expected.hash_one("name"));
            }
            _ => panic!(rt; "no rule is reported"),
        }
    }
}

#[test]
fn names_of_a_schema_are_hashed_by_a_seed_of_its_texts(rt: HostRuntime) {
    let alloc = rt.alloc();
    for text in &["type Query { a: Int }", "type Query { b: Int }"] {
        let mut both = String::new(alloc);
        write!(both, "{BUILT_IN_DEFINITIONS}{text}").expect(&rt, "memory for a text");
        let sources = texts_of_schema(FileId(1), *text);
        match read_schema(alloc, &sources, Bounds::DEFAULT).expect(&rt, "memory for a schema") {
            SchemaReading::Accepted(schema) => {
                let expected = HashSeed::of_text(&both);
                assert_eq!(rt;
                    schema.hash_seed().hash_one("name"),
                    expected.hash_one("name")
                );
            }
            _ => panic!(rt; "the schema is not accepted"),
        }
    }
}
