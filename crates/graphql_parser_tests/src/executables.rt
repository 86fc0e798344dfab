use crate::texts::{are_read, are_refused};
use graphql_syntax::{Expected, Keyword};
use graphql_tokens::TokenKind;

/// Examples of executable documents, most of them the specification's own, and how many definitions
/// graphql-core reads in each.
const DOCUMENTS: &[(&str, usize)] = &[
    (
        "mutation { likeStory(storyID: 12345) { story { likeCount } } }",
        1,
    ),
    ("{ field }", 1),
    (
        "subscription NewMessages { newMessage(roomId: 123) { sender } }",
        1,
    ),
    (
        "{ me { id firstName lastName birthday { month day } friends { name } } }",
        1,
    ),
    (
        "{ user(id: 4) { id name smallPic: profilePic(size: 64) bigPic: profilePic(width: 1024, height: 50) } }",
        1,
    ),
    (
        "query withFragments { user(id: 4) { friends(first: 10) { ...friendFields } mutualFriends(first: 10) { ...friendFields } } }\n\nfragment friendFields on User { id name profilePic(size: 50) }",
        2,
    ),
    (
        r#"query inlineFragmentTyping { profiles(handles: ["zuck", "coca-cola"]) { handle ... on User { friends { count } } ... on Page { likers { count } } } }"#,
        1,
    ),
    (
        r#"query inlineFragmentNoType($expandedInfo: Boolean) { user(handle: "zuck") { id name ... @include(if: $expandedInfo) { firstName lastName birthday } } }"#,
        1,
    ),
    (
        r#"mutation {
  sendEmail(message: """
    Hello,
      World!

    Yours,
      GraphQL.
  """)
}"#,
        1,
    ),
    (
        "{ nearestThing(location: { lon: 12.43, lat: -53.211 }) }",
        1,
    ),
    ("{ field(arg: null) field }", 1),
    (
        r#"{ field(arg: [1, 2, 3], empty: [], nested: { inner: {} }, yes: true, no: false, size: LARGE, text: "\u00e9" ) }"#,
        1,
    ),
    (
        "query getZuckProfile($devicePicSize: Int) { user(id: 4) { id name profilePic(size: $devicePicSize) } }",
        1,
    ),
    (
        r#"query A($ids: [ID!]! = ["a"], $size: Int = 6.0221413e23 @example) { node }"#,
        1,
    ),
    (
        "directive @addExternalFields(source: String!) on FIELD\nquery B @onQuery { field @skip(if: true) ...F @onSpread }\nfragment F on T @onFragment { field }",
        3,
    ),
    (
        "query query { query } fragment type on type { on } type input { enum: scalar }",
        3,
    ),
];

/// Texts that graphql-core refuses, where it does, and what comes there in the documents that begin so.
const REFUSED: &[(&str, usize, Expected)] = &[
    ("", 0, Expected::Definition),
    ("# nothing", 9, Expected::Definition),
    ("{ a } b", 6, Expected::Definition),
    ("notAnOperation Foo { field }", 0, Expected::Definition),
    ("{", 1, Expected::Selection),
    ("{ }", 2, Expected::Selection),
    ("{ a", 3, Expected::Token(TokenKind::RightBrace)),
    ("{ a: }", 5, Expected::Token(TokenKind::Name)),
    (
        "{ ...MissingOn\n} fragment MissingOn Type",
        36,
        Expected::Keyword(Keyword::On),
    ),
    ("{ ... on }", 9, Expected::Token(TokenKind::Name)),
    ("{ ... on T", 10, Expected::Token(TokenKind::LeftBrace)),
    ("fragment on on on { on }", 9, Expected::FragmentName),
    ("fragment A on T", 15, Expected::Token(TokenKind::LeftBrace)),
    ("query", 5, Expected::Token(TokenKind::LeftBrace)),
    ("query A {", 9, Expected::Selection),
    (
        "query ($a Int) { a }",
        10,
        Expected::Token(TokenKind::Colon),
    ),
    ("query ($a: ) { a }", 11, Expected::Token(TokenKind::Name)),
    (
        "query ($a: [Int) { a }",
        15,
        Expected::Token(TokenKind::RightBracket),
    ),
    (
        "query ($a: Int",
        14,
        Expected::Token(TokenKind::RightParenthesis),
    ),
    ("query () { a }", 7, Expected::Token(TokenKind::Dollar)),
    (
        "query Foo($x: Complex = { a: { b: [ $var ] } }) { field }",
        36,
        Expected::ConstantValue,
    ),
    ("{ field(arg: ) }", 13, Expected::Value),
    ("{ field(arg: { a: }) }", 18, Expected::Value),
    ("{ field(arg: [ }) }", 15, Expected::Value),
    ("{ field(arg 1) }", 12, Expected::Token(TokenKind::Colon)),
    ("{ field() }", 8, Expected::Token(TokenKind::Name)),
    ("{ field(arg: $ ) }", 15, Expected::Token(TokenKind::Name)),
    ("{ field @ }", 10, Expected::Token(TokenKind::Name)),
];

#[test]
fn executable_documents_are_read(rt: HostRuntime) {
    are_read(&rt, rt.alloc(), DOCUMENTS);
}

#[test]
fn executable_documents_are_refused_where_a_peer_refuses_them(rt: HostRuntime) {
    are_refused(&rt, rt.alloc(), REFUSED);
}
