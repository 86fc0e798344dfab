use crate::changes::{Row, assert_rows};

/// Arguments.
const ARGUMENTS: &[Row] = &[
    // It is removed.
    (
        "type Query { a(x: Int): Int }",
        "type Query { a: Int }",
        "documents ArgumentRemoved { a(x: 1) }\n",
    ),
    // It is added, and optional.
    (
        "type Query { a: Int }",
        "type Query { a(x: Int): Int }",
        "safe ArgumentAdded\n",
    ),
    // It is added, non-null with a default value.
    (
        "type Query { a: Int }",
        "type Query { a(x: Int! = 1): Int }",
        "safe ArgumentAdded\n",
    ),
    // It is added, and required.
    (
        "type Query { a: Int }",
        "type Query { a(x: Int!): Int }",
        "documents ArgumentAdded { a }\n",
    ),
    // It becomes required.
    (
        "type Query { a(x: Int): Int }",
        "type Query { a(x: Int!): Int }",
        "documents ArgumentTypeChanged { a }\n",
    ),
    // It becomes non-null, with a default value.
    (
        "type Query { a(x: Int): Int }",
        "type Query { a(x: Int! = 1): Int }",
        "documents ArgumentTypeChanged { a(x: null) }\ndangerous DefaultAdded\n",
    ),
    (
        "type Query { a(x: Int = 1): Int }",
        "type Query { a(x: Int! = 1): Int }",
        "documents ArgumentTypeChanged { a(x: null) }\n",
    ),
    // It may be null from now on.
    (
        "type Query { a(x: Int!): Int b(x: [Int!]): Int }",
        "type Query { a(x: Int): Int b(x: [Int]): Int }",
        "safe ArgumentTypeChanged\nsafe ArgumentTypeChanged\n",
    ),
    // Its items become non-null.
    (
        "type Query { a(x: [Int]): Int }",
        "type Query { a(x: [Int!]): Int }",
        "documents ArgumentTypeChanged { a(x: [null]) }\n",
    ),
    // It becomes a list: a literal goes on, a variable does not.
    (
        "type Query { a(x: Int): Int }",
        "type Query { a(x: [Int]): Int }",
        "documents ArgumentTypeChanged query($v: Int) { a(x: $v) }\n",
    ),
    // It is no list any longer.
    (
        "type Query { a(x: [Int]): Int }",
        "type Query { a(x: Int): Int }",
        "documents ArgumentTypeChanged { a(x: []) }\n",
    ),
    // It is of another scalar.
    (
        "type Query { a(x: Int): Int }",
        "type Query { a(x: Float): Int }",
        "safe TypeAdded\ndocuments ArgumentTypeChanged query($v: Int) { a(x: $v) }\n",
    ),
    (
        "type Query { a(x: Int): Int b: S } scalar S",
        "type Query { a(x: S): Int b: S } scalar S",
        "documents ArgumentTypeChanged query($v: Int) { a(x: $v) }\n",
    ),
    // The default value of a non-null argument is removed.
    (
        "type Query { a(x: Int! = 1): Int }",
        "type Query { a(x: Int!): Int }",
        "documents DefaultRemoved { a }\n",
    ),
    // The default value of another argument is removed.
    (
        "type Query { a(x: Int = 1): Int }",
        "type Query { a(x: Int): Int }",
        "dangerous DefaultRemoved\n",
    ),
    // A default value is another one, or is added.
    (
        "type Query { a(x: Int = 1): Int }",
        "type Query { a(x: Int = 2): Int }",
        "dangerous DefaultChanged\n",
    ),
    (
        "type Query { a(x: Int): Int }",
        "type Query { a(x: Int = 1): Int }",
        "dangerous DefaultAdded\n",
    ),
];

/// Fields of input objects.
const INPUT_FIELDS: &[Row] = &[
    // It is removed.
    (
        "type Query { a(i: I): Int } input I { p: Int q: Int }",
        "type Query { a(i: I): Int } input I { p: Int }",
        "documents InputFieldRemoved { a(i: {q: 1}) }\n",
    ),
    // It is added, and optional.
    (
        "type Query { a(i: I): Int } input I { p: Int }",
        "type Query { a(i: I): Int } input I { p: Int q: Int }",
        "safe InputFieldAdded\n",
    ),
    // It is added, and required.
    (
        "type Query { a(i: I): Int } input I { p: Int }",
        "type Query { a(i: I): Int } input I { p: Int q: Int! }",
        "documents InputFieldAdded { a(i: {}) }\n",
    ),
    // The same deep in other objects and lists, which have required fields of their own.
    (
        "type Query { a(l: [L!]!): Int } input L { i: I r: Int! } input I { p: E! } enum E { X }",
        "type Query { a(l: [L!]!): Int } input L { i: I r: Int! } input I { p: E! q: Int! } enum E { X }",
        "documents InputFieldAdded { a(l: {r: 1, i: {p: X}}) }\n",
    ),
    // The same, and no place takes the type: it is refused, and no document breaks.
    (
        "type Query { a: Int } input I { p: Int }",
        "type Query { a: Int } input I { p: Int q: Int! }",
        "documents InputFieldAdded\n",
    ),
    // The same, and a custom scalar can be given.
    (
        "type Query { a(s: S): Int } scalar S input I { p: Int }",
        "type Query { a(s: S): Int } scalar S input I { p: Int q: Int! }",
        "documents InputFieldAdded query($v: I = {}) { a(s: {k: $v}) }\n",
    ),
    // It becomes non-null, with a default value.
    (
        "type Query { a(i: I): Int } input I { p: Int }",
        "type Query { a(i: I): Int } input I { p: Int! = 1 }",
        "documents InputFieldTypeChanged { a(i: {p: null}) }\ndangerous DefaultAdded\n",
    ),
    // The default value of a non-null field is removed.
    (
        "type Query { a(i: I): Int } input I { p: Int! = 1 }",
        "type Query { a(i: I): Int } input I { p: Int! }",
        "documents DefaultRemoved { a(i: {}) }\n",
    ),
    // It may be null from now on.
    (
        "type Query { a(i: I): Int } input I { p: Int! }",
        "type Query { a(i: I): Int } input I { p: Int }",
        "safe InputFieldTypeChanged\n",
    ),
];

#[test]
fn changes_of_arguments(rt: HostRuntime) {
    assert_rows(&rt, ARGUMENTS);
}

#[test]
fn changes_of_input_fields(rt: HostRuntime) {
    assert_rows(&rt, INPUT_FIELDS);
}
