use graphql_answers::{Answer, Batch, Found, Refusal, validate, validate_each, validate_schema};
use std::process::Abort;

const SCHEMA: &[u8] = b"type Query { a(b: Int): Int }";

const VALID: &[u8] = b"{ a(b: 1) }";

const REPORTED: &[u8] = b"{ a(c: 1) }";

/// The answer to `REPORTED` in the form of the errors of a response.
const REPORT: &str =
    "{\"errors\":[{\"message\":\"the argument `c` is not supported by `Query.a`\",\"locations\":[{\"line\":1,\"column\":5}],\"extensions\":{\"rule\":\"UndefinedArgument\",\"span\":{\"start\":4,\"end\":8},\"help\":[\"did you mean `b`?\"]}}]}";

/// This is what was found, and its JSON.
fn is_answer(rt: &impl Abort, answered: Result<Answer, Refusal>, found: Found, json: &str) {
    match answered {
        Ok(answer) => {
            assert_eq!(rt; answer.found, found);
            assert_eq!(rt; answer.json.as_slice(), json.as_bytes());
        }
        Err(refusal) => panic!(rt; "refused: {refusal:?}"),
    }
}

/// There is no answer, for this reason.
fn is_refused(rt: &impl Abort, answered: Result<Answer, Refusal>, refusal: Refusal) {
    match answered {
        Ok(_) => panic!(rt; "answered"),
        Err(given) => assert_eq!(rt; given, refusal),
    }
}

#[test]
fn documents_are_answered(rt: HostRuntime) {
    let alloc = rt.alloc();
    let nothing = "{\"errors\":[]}";
    is_answer(&rt, validate(alloc, SCHEMA, VALID), Found::Nothing, nothing);
    is_answer(
        &rt,
        validate(alloc, SCHEMA, REPORTED),
        Found::InDocuments,
        REPORT,
    );
    is_refused(&rt, validate(alloc, SCHEMA, b"\xFF"), Refusal::NotUtf8);
}

#[test]
fn schemas_are_answered(rt: HostRuntime) {
    let alloc = rt.alloc();
    let nothing = "{\"errors\":[]}";
    is_answer(&rt, validate_schema(alloc, SCHEMA), Found::Nothing, nothing);
    is_refused(&rt, validate_schema(alloc, b"\xC3"), Refusal::NotUtf8);
    let syntax =
        "{\"errors\":[{\"message\":\"expected a definition, found the end of the text\",\"locations\":[{\"line\":1,\"column\":1}],\"extensions\":{\"rule\":\"Syntax\",\"span\":{\"start\":0,\"end\":0}}}]}";
    is_answer(&rt, validate_schema(alloc, b""), Found::InSchema, syntax);
}

/// The first definition of the type is in the file of the definitions that every schema has.
#[test]
fn a_note_names_its_file(rt: HostRuntime) {
    let json =
        "{\"errors\":[{\"message\":\"the type `__Type` is defined multiple times in the schema\",\"locations\":[{\"line\":1,\"column\":28}],\"extensions\":{\"rule\":\"TypeDefinitionCollision\",\"span\":{\"start\":27,\"end\":33},\"related\":[{\"message\":\"first here\",\"file\":\"<built-in>\",\"line\":21,\"column\":6,\"span\":{\"start\":574,\"end\":580}}]}}]}";
    is_answer(
        &rt,
        validate_schema(rt.alloc(), b"type Query { a: Int } type __Type { b: Int }"),
        Found::InSchema,
        json,
    );
}

/// A schema, a document, and what is answered.
const ANSWERS: &[(&str, &str, &str)] = &[
    // One fault that two operations reach.
    (
        "type Query { a(b: Int): Int }",
        "query A { ...F } query B { ...F } fragment F on Query { a(c: 1) }",
        "{\"errors\":[{\"message\":\"the argument `c` is not supported by `Query.a`\",\"locations\":[{\"line\":1,\"column\":59}],\"extensions\":{\"rule\":\"UndefinedArgument\",\"span\":{\"start\":58,\"end\":62},\"help\":[\"did you mean `b`?\"]}}]}",
    ),
    // The other place is in the document.
    (
        "type Query { a(b: Int): Int }",
        "{ a(b: 1, b: 2) }",
        "{\"errors\":[{\"message\":\"the argument `b` is provided multiple times\",\"locations\":[{\"line\":1,\"column\":11}],\"extensions\":{\"rule\":\"UniqueArgument\",\"span\":{\"start\":10,\"end\":14},\"related\":[{\"message\":\"first here\",\"line\":1,\"column\":5,\"span\":{\"start\":4,\"end\":8}}]}}]}",
    ),
    // The front end reports the usage last.
    (
        "type Query { a(b: Int): Int f(l: [Int!]): Int }",
        "query A($v: Int) { f(l: [$v]) a(c: 1) }",
        "{\"errors\":[{\"message\":\"variable `$v` of type `Int` used in position expecting type `Int!`\",\"locations\":[{\"line\":1,\"column\":26}],\"extensions\":{\"rule\":\"DisallowedVariableUsage\",\"span\":{\"start\":25,\"end\":27},\"related\":[{\"message\":\"`$v` of type `Int` is defined here\",\"line\":1,\"column\":9,\"span\":{\"start\":8,\"end\":15}}]}},{\"message\":\"the argument `c` is not supported by `Query.a`\",\"locations\":[{\"line\":1,\"column\":33}],\"extensions\":{\"rule\":\"UndefinedArgument\",\"span\":{\"start\":32,\"end\":36},\"help\":[\"did you mean `b`?\"]}}]}",
    ),
    // A text that is no document.
    (
        "type Query { a(b: Int): Int }",
        "{ a(b: 01) }",
        "{\"errors\":[{\"message\":\"invalid number\",\"locations\":[{\"line\":1,\"column\":8}],\"extensions\":{\"rule\":\"Syntax\",\"span\":{\"start\":7,\"end\":7},\"help\":[\"a number has no zeros before its first digit\"]}}]}",
    ),
    // Another definition of a text that is no document.
    (
        "type Query { a(b: Int): Int }",
        "query A { a(c: 1) }\nquery B { a(b: 01) }",
        "{\"errors\":[{\"message\":\"the argument `c` is not supported by `Query.a`\",\"locations\":[{\"line\":1,\"column\":13}],\"extensions\":{\"rule\":\"UndefinedArgument\",\"span\":{\"start\":12,\"end\":16},\"help\":[\"did you mean `b`?\"]}},{\"message\":\"invalid number\",\"locations\":[{\"line\":2,\"column\":16}],\"extensions\":{\"rule\":\"Syntax\",\"span\":{\"start\":35,\"end\":35},\"help\":[\"a number has no zeros before its first digit\"]}}]}",
    ),
    // What is beside a field that cannot be built.
    (
        "type Query { a(b: Int): Int }",
        "{ other a(c: 1) }",
        "{\"errors\":[{\"message\":\"type `Query` does not have a field `other`\",\"locations\":[{\"line\":1,\"column\":3}],\"extensions\":{\"rule\":\"UndefinedField\",\"span\":{\"start\":2,\"end\":7}}},{\"message\":\"the argument `c` is not supported by `Query.a`\",\"locations\":[{\"line\":1,\"column\":11}],\"extensions\":{\"rule\":\"UndefinedArgument\",\"span\":{\"start\":10,\"end\":14},\"help\":[\"did you mean `b`?\"]}}]}",
    ),
];

#[test]
fn each_fault_is_answered_once_and_in_order(rt: HostRuntime) {
    for (schema, document, json) in ANSWERS {
        is_answer(
            &rt,
            validate(rt.alloc(), schema.as_bytes(), document.as_bytes()),
            Found::InDocuments,
            json,
        );
    }
}

/// A type that is defined again hides no other fault.
#[test]
fn each_fault_of_a_schema_is_answered(rt: HostRuntime) {
    let schema = b"type Query { a: Int }\ntype Query { b: Int }\ntype A { c: Nope }";
    let json =
        "{\"errors\":[{\"message\":\"the type `Query` is defined multiple times in the schema\",\"locations\":[{\"line\":2,\"column\":6}],\"extensions\":{\"rule\":\"TypeDefinitionCollision\",\"span\":{\"start\":27,\"end\":32},\"related\":[{\"message\":\"first here\",\"line\":1,\"column\":6,\"span\":{\"start\":5,\"end\":10}}]}},{\"message\":\"cannot find type `Nope` in this document\",\"locations\":[{\"line\":3,\"column\":13}],\"extensions\":{\"rule\":\"UndefinedDefinition\",\"span\":{\"start\":56,\"end\":60}}}]}";
    is_answer(
        &rt,
        validate_schema(rt.alloc(), schema),
        Found::InSchema,
        json,
    );
}

/// The documents lie one behind another.
#[test]
fn each_document_is_answered(rt: HostRuntime) {
    let alloc = rt.alloc();
    let both = Batch {
        bytes: b"{ a(b: 1) }{ a(c: 1) }",
        ends: &[11, 22],
    };
    let json =
        "[{\"errors\":[]},{\"errors\":[{\"message\":\"the argument `c` is not supported by `Query.a`\",\"locations\":[{\"line\":1,\"column\":5}],\"extensions\":{\"rule\":\"UndefinedArgument\",\"span\":{\"start\":4,\"end\":8},\"help\":[\"did you mean `b`?\"]}}]}]";
    is_answer(
        &rt,
        validate_each(alloc, SCHEMA, both),
        Found::InDocuments,
        json,
    );
    let none = Batch {
        bytes: b"",
        ends: &[],
    };
    is_answer(
        &rt,
        validate_each(alloc, SCHEMA, none),
        Found::Nothing,
        "[]",
    );
    let beyond = Batch {
        bytes: VALID,
        ends: &[99],
    };
    is_refused(&rt, validate_each(alloc, SCHEMA, beyond), Refusal::BadEnds);
}
