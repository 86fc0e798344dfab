//! Documents and the deprecated elements that they use. The expected lines are those of graphql-core 3.2.8, rule
//! `NoDeprecatedCustomRule`, for the same texts: its places are those of names, its operations before its fragments, and its
//! messages in the words of this project.
use graphql_deprecations::deprecated_usages;
use graphql_documents::documents::Valid;
use graphql_nodes::FileId;
use graphql_notation::build::{document_in_file, schema};
use std::alloc::Global;
use std::fmt::Write;
use std::process::Abort;

const SCHEMA: &str = "
    directive @tag(old: Int @deprecated(reason: \"No tags.\"), as: Kind, new: Int) repeatable on FIELD | QUERY | FRAGMENT_DEFINITION | FRAGMENT_SPREAD | INLINE_FRAGMENT | VARIABLE_DEFINITION
    scalar Any
    type Query implements Named {
      name: String
      user(id: ID @deprecated(reason: \"Use `key`.\"), key: ID, filter: Filter, filters: [Filter!], kind: Kind, any: Any): User
      old: Int @deprecated
      self: Query
    }
    interface Named { name: String @deprecated(reason: \"Unnamed.\") }
    type User implements Named {
      name: String @deprecated(reason: \"Use `fullName`.\")
      fullName: String
      friends(first: Int, kinds: [[Kind!]]): [User]
    }
    union Result = User | Query
    input Filter {
      text: String @deprecated(reason: \"Use `words`.\")
      words: [String]
      kind: Kind = NEW
      kinds: [Kind!]
      and: [Filter!]
      not: Filter @deprecated(reason: \"Use `and`.\")
    }
    enum Kind { NEW OLD @deprecated(reason: \"It is old.\") WORN @deprecated }";

/// Documents, and their usages: the place of the name in the text, and the message.
const USAGES: &[(&str, &str)] = &[
    (
        "{ old }",
        "2 the field `Query.old` is deprecated: No longer supported\n",
    ),
    (
        "{ user { name } }",
        "9 the field `User.name` is deprecated: Use `fullName`.\n",
    ),
    (
        "{ user(id: 1, key: 2) { fullName } }",
        "7 the argument `Query.user(id:)` is deprecated: Use `key`.\n",
    ),
    (
        "query @tag(old: 1, new: 2) { self @tag(old: 3) { user { ...f @tag(old: 4) ... @tag(old: 5) { fullName } } } } fragment f on User @tag(old: 6) { fullName }",
        "11 the argument `@tag(old:)` is deprecated: No tags.\n\
            39 the argument `@tag(old:)` is deprecated: No tags.\n\
            66 the argument `@tag(old:)` is deprecated: No tags.\n\
            83 the argument `@tag(old:)` is deprecated: No tags.\n\
            134 the argument `@tag(old:)` is deprecated: No tags.\n",
    ),
    (
        "{ user(filter: { text: \"a\", words: [\"b\"] }) { fullName } }",
        "17 the input field `Filter.text` is deprecated: Use `words`.\n",
    ),
    (
        "{ user(filters: [{ and: [{ not: { kind: OLD, text: \"c\" } }] }, { kinds: [NEW, WORN, OLD] }], kind: OLD) { fullName } }",
        "27 the input field `Filter.not` is deprecated: Use `and`.\n\
            40 the enum value `Kind.OLD` is deprecated: It is old.\n\
            45 the input field `Filter.text` is deprecated: Use `words`.\n\
            78 the enum value `Kind.WORN` is deprecated: No longer supported\n\
            84 the enum value `Kind.OLD` is deprecated: It is old.\n\
            99 the enum value `Kind.OLD` is deprecated: It is old.\n",
    ),
    (
        "query q($f: Filter = { text: \"a\", kind: WORN }, $k: [Kind] = [OLD, NEW] @tag(as: OLD)) { user(filter: $f) { friends(kinds: [[OLD], [NEW]]) { fullName } } }",
        "23 the input field `Filter.text` is deprecated: Use `words`.\n\
            40 the enum value `Kind.WORN` is deprecated: No longer supported\n\
            62 the enum value `Kind.OLD` is deprecated: It is old.\n\
            81 the enum value `Kind.OLD` is deprecated: It is old.\n\
            125 the enum value `Kind.OLD` is deprecated: It is old.\n",
    ),
    (
        "{ user(any: { text: OLD }, filters: { and: { text: \"one\" } }) { fullName } }",
        "45 the input field `Filter.text` is deprecated: Use `words`.\n",
    ),
    (
        "{ n: name ... on Named { name } self { name: old } }",
        "25 the field `Named.name` is deprecated: Unnamed.\n\
            45 the field `Query.old` is deprecated: No longer supported\n",
    ),
    (
        "fragment unused on User { name friends { other: name } } query a { old } query b { self { old } }",
        "67 the field `Query.old` is deprecated: No longer supported\n\
            90 the field `Query.old` is deprecated: No longer supported\n\
            26 the field `User.name` is deprecated: Use `fullName`.\n\
            48 the field `User.name` is deprecated: Use `fullName`.\n",
    ),
    ("{ __typename user { __typename } self { name } }", ""),
];

/// The usages in a document of this text, each on a line.
fn usages_in(rt: &impl Abort, alloc: Global, text: &str) -> String {
    let Valid(schema) = schema(alloc, SCHEMA).expect(rt, "a schema");
    let document = document_in_file(alloc, &schema, text, FileId(1)).expect(rt, "a document");
    let usages = deprecated_usages(alloc, &schema, &document).expect(rt, "memory for usages");
    let mut lines = String::new(alloc);
    for usage in &usages {
        let place = usage.place.expect(rt, "a place");
        let start = place.start;
        let written = write!(lines, "{start} {usage}\n");
        written.expect(rt, "memory for a line");
    }
    lines
}

#[test]
fn a_document_uses_deprecated_elements(rt: HostRuntime) {
    for (text, expected) in USAGES {
        let found = usages_in(&rt, rt.alloc(), text);
        if found.as_str() != *expected {
            panic!(rt; "{text}: {expected} was expected, not {found}");
        }
    }
}
