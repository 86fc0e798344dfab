use crate::texts::{are_read, are_refused};
use graphql_syntax::{Expected, Keyword};
use graphql_tokens::TokenKind;

/// Examples of type system documents, most of them the specification's own, and how many definitions
/// graphql-core reads in each.
const DOCUMENTS: &[(&str, usize)] = &[
    (
        "schema { query: MyQueryRootType mutation: MyMutationRootType }",
        1,
    ),
    (
        r#""""
A simple GraphQL schema which is well described.
"""
schema { query: Query }

"""
Root type for all your query operations
"""
type Query {
  """
  Translates a string from a given language into a different language.
  """
  translate(
    "The original language that `text` is provided in."
    fromLanguage: Language
    text: String
  ): String
}

"""
The set of languages supported by `translate`.
"""
enum Language {
  "English"
  EN
  "French"
  FR
}"#,
        3,
    ),
    (
        r#"extend schema @link(url: "https://example.com/")
extend schema @a { subscription: S }
extend schema { mutation: M }"#,
        3,
    ),
    (
        r#"scalar UUID @specifiedBy(url: "https://tools.ietf.org/html/rfc4122")
scalar Time
extend scalar Time @example"#,
        3,
    ),
    (
        "type Person { name: String age: Int picture(size: Int): Url }\ntype Empty",
        2,
    ),
    (
        "type Business implements NamedEntity & ValuedEntity { name: String value: Int employeeCount: Int }\ntype C implements & A",
        2,
    ),
    (
        "type ExampleType { oldField: String @deprecated friends(first: Int = 10 @example): [Person!]! }",
        1,
    ),
    (
        "extend type Story { isHiddenLocally: Boolean }\nextend type User @addedDirective\nextend type User implements A",
        3,
    ),
    (
        "interface NamedEntity { name: String }\ninterface Image implements Resource & Node { id: ID! url: String thumbnail: String }\nextend interface NamedEntity { nickname: String }\nextend interface NamedEntity @addedDirective\nextend interface A implements B",
        5,
    ),
    (
        "union SearchResult = Photo | Person\nunion SearchResult = | Photo | Person\nunion None @example\nextend union SearchResult = Video\nextend union SearchResult @addedDirective",
        5,
    ),
    (
        r#"enum Direction { NORTH EAST SOUTH WEST }
enum Empty
extend enum Direction { UP @deprecated(reason: "not on a map") }
extend enum Direction @addedDirective"#,
        4,
    ),
    (
        "input Point2D { x: Float y: Float }\ninput ExampleInputObject { a: String b: Int! = 3 }\ninput Empty\nextend input ExampleInputObject { c: Int }\nextend input ExampleInputObject @addedDirective",
        5,
    ),
    (
        r#"directive @example on FIELD_DEFINITION | ARGUMENT_DEFINITION
directive @example on | FIELD | FRAGMENT_SPREAD | INLINE_FRAGMENT
"Repeated."
directive @delegateField(name: String!) repeatable on OBJECT | INTERFACE"#,
        3,
    ),
    (
        "directive @everywhere on QUERY | MUTATION | SUBSCRIPTION | FIELD | FRAGMENT_DEFINITION | FRAGMENT_SPREAD | INLINE_FRAGMENT | VARIABLE_DEFINITION | SCHEMA | SCALAR | OBJECT | FIELD_DEFINITION | ARGUMENT_DEFINITION | INTERFACE | UNION | ENUM | ENUM_VALUE | INPUT_OBJECT | INPUT_FIELD_DEFINITION",
        1,
    ),
];

/// Texts that graphql-core refuses, where it does, and what comes there in the documents that begin so.
const REFUSED: &[(&str, usize, Expected)] = &[
    ("schema { }", 9, Expected::OperationType),
    (
        "schema { query Query }",
        15,
        Expected::Token(TokenKind::Colon),
    ),
    ("schema { other: Query }", 9, Expected::OperationType),
    ("schema @a", 9, Expected::Token(TokenKind::LeftBrace)),
    ("extend", 6, Expected::Extension),
    ("extend query { a }", 7, Expected::Extension),
    ("extend directive @a on FIELD", 7, Expected::Extension),
    ("extend schema", 13, Expected::ExtensionPart),
    ("extend type Hello", 17, Expected::ExtensionPart),
    ("extend scalar A { a: Int }", 16, Expected::ExtensionPart),
    ("extend union A B", 15, Expected::ExtensionPart),
    ("type Hello { }", 13, Expected::Token(TokenKind::Name)),
    (
        "type Hello { world }",
        19,
        Expected::Token(TokenKind::Colon),
    ),
    (
        "type Hello implements { a: Int }",
        22,
        Expected::Token(TokenKind::Name),
    ),
    (
        "type Hello implements A & { a: Int }",
        26,
        Expected::Token(TokenKind::Name),
    ),
    (
        "type Hello { a(): Int }",
        15,
        Expected::Token(TokenKind::Name),
    ),
    ("interface", 9, Expected::Token(TokenKind::Name)),
    ("union Hello =", 13, Expected::Token(TokenKind::Name)),
    ("union Hello = | | A", 16, Expected::Token(TokenKind::Name)),
    ("enum Hello { true }", 13, Expected::EnumValue),
    ("enum Hello { false }", 13, Expected::EnumValue),
    ("enum Hello { A null }", 15, Expected::EnumValue),
    ("enum Hello { }", 13, Expected::Token(TokenKind::Name)),
    (
        "input Hello { world(foo: Int): String }",
        19,
        Expected::Token(TokenKind::Colon),
    ),
    ("directive foo on FIELD", 10, Expected::Token(TokenKind::At)),
    ("directive @foo FIELD", 15, Expected::Keyword(Keyword::On)),
    (
        "directive @foo on FIELD | INCORRECT_LOCATION",
        26,
        Expected::DirectiveLocation,
    ),
    ("directive @foo on", 17, Expected::DirectiveLocation),
    ("scalar A = 1", 9, Expected::Definition),
];

/// A description comes before a definition of the type system alone. graphql-core names the description here,
/// and not the token that may not follow it.
const DESCRIBED: &[(&str, usize, Expected)] = &[
    (r#""a" query { a }"#, 4, Expected::TypeSystemDefinition),
    (r#""a" extend type A @b"#, 4, Expected::TypeSystemDefinition),
    (r#""a""#, 3, Expected::TypeSystemDefinition),
];

#[test]
fn type_system_documents_are_read(rt: HostRuntime) {
    are_read(&rt, rt.alloc(), DOCUMENTS);
}

#[test]
fn type_system_documents_are_refused_where_a_peer_refuses_them(rt: HostRuntime) {
    are_refused(&rt, rt.alloc(), REFUSED);
}

#[test]
fn other_definitions_have_no_description(rt: HostRuntime) {
    are_refused(&rt, rt.alloc(), DESCRIBED);
}
