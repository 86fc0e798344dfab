use graphql_introspection::schema_text;
use std::process::Abort;

/// The answer of a whole schema, with every kind of definition.
const ANSWER: &str = r#"{"data": {"__schema": {
  "description": "All of \"it\".\nTwo lines \\ here.",
  "queryType": {"name": "Root"},
  "mutationType": {"name": "Mutation"},
  "subscriptionType": null,
  "types": [
    {"kind": "OBJECT", "name": "Root", "description": null, "specifiedByURL": null, "isOneOf": null,
     "fields": [
       {"name": "node", "description": "Finds a node.",
        "args": [
          {"name": "id", "description": "Its id.", "type": {"kind": "NON_NULL", "name": null, "ofType": {"kind": "SCALAR", "name": "ID", "ofType": null}}, "defaultValue": null, "isDeprecated": false, "deprecationReason": null},
          {"name": "filter", "description": null, "type": {"kind": "INPUT_OBJECT", "name": "Filter", "ofType": null}, "defaultValue": "{kinds: [BOOK], text: \"a \\\"b\\\"\"}", "isDeprecated": false, "deprecationReason": null}],
        "type": {"kind": "INTERFACE", "name": "Node", "ofType": null}, "isDeprecated": false, "deprecationReason": null},
       {"name": "all", "description": null, "args": [{"name": "first", "description": null, "type": {"kind": "SCALAR", "name": "Int", "ofType": null}, "defaultValue": "10", "isDeprecated": true, "deprecationReason": "Too many"}],
        "type": {"kind": "NON_NULL", "name": null, "ofType": {"kind": "LIST", "name": null, "ofType": {"kind": "NON_NULL", "name": null, "ofType": {"kind": "UNION", "name": "Any", "ofType": null}}}}, "isDeprecated": true, "deprecationReason": "Use `node`"}],
     "inputFields": null, "interfaces": [], "enumValues": null, "possibleTypes": null},
    {"kind": "OBJECT", "name": "Mutation", "description": null,
     "fields": [{"name": "touch", "description": null, "args": [], "type": {"kind": "SCALAR", "name": "Boolean", "ofType": null}, "isDeprecated": false, "deprecationReason": null}],
     "inputFields": null, "interfaces": [], "enumValues": null, "possibleTypes": null},
    {"kind": "INTERFACE", "name": "Node", "description": "Has an id.",
     "fields": [{"name": "id", "description": null, "args": [], "type": {"kind": "NON_NULL", "name": null, "ofType": {"kind": "SCALAR", "name": "ID", "ofType": null}}, "isDeprecated": false, "deprecationReason": null}],
     "inputFields": null, "interfaces": [], "enumValues": null, "possibleTypes": [{"kind": "OBJECT", "name": "Book", "ofType": null}]},
    {"kind": "OBJECT", "name": "Book", "description": null,
     "fields": [{"name": "id", "description": null, "args": [], "type": {"kind": "NON_NULL", "name": null, "ofType": {"kind": "SCALAR", "name": "ID", "ofType": null}}, "isDeprecated": false, "deprecationReason": null},
                {"name": "kind", "description": null, "args": [], "type": {"kind": "ENUM", "name": "Kind", "ofType": null}, "isDeprecated": false, "deprecationReason": null}],
     "inputFields": null, "interfaces": [{"kind": "INTERFACE", "name": "Node", "ofType": null}], "enumValues": null, "possibleTypes": null},
    {"kind": "UNION", "name": "Any", "description": null, "fields": null, "inputFields": null, "interfaces": null, "enumValues": null, "possibleTypes": [{"kind": "OBJECT", "name": "Book", "ofType": null}]},
    {"kind": "ENUM", "name": "Kind", "description": null, "fields": null, "inputFields": null, "interfaces": null,
     "enumValues": [{"name": "BOOK", "description": "A book.", "isDeprecated": false, "deprecationReason": null}, {"name": "SCROLL", "description": null, "isDeprecated": true, "deprecationReason": "None left"}], "possibleTypes": null},
    {"kind": "INPUT_OBJECT", "name": "Filter", "description": null, "fields": null,
     "inputFields": [{"name": "kinds", "description": "Only these.", "type": {"kind": "LIST", "name": null, "ofType": {"kind": "ENUM", "name": "Kind", "ofType": null}}, "defaultValue": null, "isDeprecated": false, "deprecationReason": null},
                     {"name": "text", "description": null, "type": {"kind": "SCALAR", "name": "String", "ofType": null}, "defaultValue": "\"\"", "isDeprecated": false, "deprecationReason": null}],
     "interfaces": null, "enumValues": null, "possibleTypes": null, "isOneOf": false},
    {"kind": "SCALAR", "name": "Date", "description": null, "specifiedByURL": "https://example.org/date", "fields": null, "inputFields": null, "interfaces": null, "enumValues": null, "possibleTypes": null},
    {"kind": "SCALAR", "name": "ID", "description": "An id.", "specifiedByURL": null, "fields": null, "inputFields": null, "interfaces": null, "enumValues": null, "possibleTypes": null},
    {"kind": "OBJECT", "name": "__Schema", "description": null, "fields": [], "interfaces": []}
  ],
  "directives": [
    {"name": "skip", "description": "Skips.", "isRepeatable": false, "locations": ["FIELD"], "args": []},
    {"name": "tag", "description": "A tag.", "isRepeatable": true, "locations": ["OBJECT", "FIELD_DEFINITION"],
     "args": [{"name": "name", "description": null, "type": {"kind": "NON_NULL", "name": null, "ofType": {"kind": "SCALAR", "name": "String", "ofType": null}}, "defaultValue": null, "isDeprecated": false, "deprecationReason": null}]}
  ]
}}}"#;

/// That schema.
const SCHEMA: &str = r#""All of \"it\".\nTwo lines \\ here."
schema {
  query: Root
  mutation: Mutation
}

"A tag."
directive @tag(name: String!) repeatable on OBJECT | FIELD_DEFINITION

type Root {
  "Finds a node."
  node(
    "Its id."
    id: ID!
    filter: Filter = {kinds: [BOOK], text: "a \"b\""}
  ): Node
  all(first: Int = 10 @deprecated(reason: "Too many")): [Any!]! @deprecated(reason: "Use `node`")
}

type Mutation {
  touch: Boolean
}

"Has an id."
interface Node {
  id: ID!
}

type Book implements Node {
  id: ID!
  kind: Kind
}

union Any = Book

enum Kind {
  "A book."
  BOOK
  SCROLL @deprecated(reason: "None left")
}

input Filter {
  "Only these."
  kinds: [Kind]
  text: String = ""
}

scalar Date @specifiedBy(url: "https://example.org/date")
"#;

/// Answers that are refused, and what is said of them. In the last ones the fault is at the end of the text.
const REFUSED: &[(&str, &str)] = &[
    ("1", "the answer is not an object"),
    (
        r#"{"data":{"__schema":{}}}"#,
        "data.__schema.queryType is missing, or null",
    ),
    (
        "",
        "the answer is not JSON, or is nested too deep, at byte 0",
    ),
    (
        "   ",
        "the answer is not JSON, or is nested too deep, at byte 3",
    ),
    (
        "{",
        "the answer is not JSON, or is nested too deep, at byte 1",
    ),
    (
        "{\"data\":{}",
        "the answer is not JSON, or is nested too deep, at byte 10",
    ),
];

/// The schema that is printed.
fn printed(rt: &(impl Abort + AllocGlobal), answer: &str) -> String {
    match schema_text(rt.alloc(), answer) {
        Ok(text) => text,
        Err(error) => panic!(rt; "{error}"),
    }
}

/// What is said of an answer that is refused.
fn refusal(rt: &(impl Abort + AllocGlobal), answer: &str) -> String {
    match schema_text(rt.alloc(), answer) {
        Ok(text) => panic!(rt; "printed: {text}"),
        Err(error) => error.to_string(rt.alloc()).expect(rt, "memory"),
    }
}

#[test]
fn a_whole_schema_is_printed(rt: HostRuntime) {
    let printed = printed(&rt, ANSWER);
    assert_eq!(rt; printed.as_str(), SCHEMA);
}

#[test]
fn refused_answers_are_told_why(rt: HostRuntime) {
    for (answer, wanted) in REFUSED {
        let refusal = refusal(&rt, answer);
        assert_eq!(rt; refusal.as_str(), *wanted, "{answer}");
    }
}
