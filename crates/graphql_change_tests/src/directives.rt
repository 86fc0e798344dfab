use crate::changes::{Row, assert_rows};

/// Directives.
const DIRECTIVES: &[Row] = &[
    (
        "type Query { a: Int }",
        "type Query { a: Int } directive @d on FIELD",
        "safe DirectiveAdded\n",
    ),
    // It is removed, and documents could apply it.
    (
        "type Query { a: Int } directive @d on FIELD",
        "type Query { a: Int }",
        "documents DirectiveRemoved { __typename @d }\n",
    ),
    (
        "type Query { a: Int } directive @defer(label: String, if: Boolean! = true) on INLINE_FRAGMENT",
        "type Query { a: Int }",
        "documents DirectiveRemoved { ... @defer { __typename } }\n",
    ),
    // It is removed, and schemas alone could apply it.
    (
        "type Query { a: Int } directive @d on OBJECT",
        "type Query { a: Int }",
        "safe DirectiveRemoved\n",
    ),
    // A location is added.
    (
        "type Query { a: Int } directive @d on FIELD",
        "type Query { a: Int } directive @d on FIELD | QUERY",
        "safe LocationAdded\n",
    ),
    // A location is removed.
    (
        "type Query { a: Int } directive @d on FIELD | QUERY",
        "type Query { a: Int } directive @d on QUERY",
        "documents LocationRemoved { __typename @d }\n",
    ),
    (
        "type Query { a: Int } type Subscription { s: Int } directive @d on SUBSCRIPTION | QUERY",
        "type Query { a: Int } type Subscription { s: Int } directive @d on QUERY",
        "documents LocationRemoved subscription @d { s }\n",
    ),
    (
        "type Query { a: Int } directive @d on QUERY | FRAGMENT_SPREAD",
        "type Query { a: Int } directive @d on QUERY",
        "documents LocationRemoved { ...F @d } fragment F on Query { __typename }\n",
    ),
    (
        "type Query { a: Int } directive @d on QUERY | FRAGMENT_DEFINITION",
        "type Query { a: Int } directive @d on QUERY",
        "documents LocationRemoved { ...F } fragment F on Query @d { __typename }\n",
    ),
    (
        "type Query { a: Int } directive @d on QUERY | VARIABLE_DEFINITION",
        "type Query { a: Int } directive @d on QUERY",
        "documents LocationRemoved query($v: Boolean! @d) { __typename @skip(if: $v) }\n",
    ),
    // A location is removed, where there is no such operation: it is refused, and no document breaks.
    (
        "type Query { a: Int } directive @d on QUERY | MUTATION",
        "type Query { a: Int } directive @d on QUERY",
        "documents LocationRemoved\n",
    ),
    // A location of schemas is removed.
    (
        "type Query { a: Int } directive @d on FIELD | OBJECT",
        "type Query { a: Int } directive @d on FIELD",
        "safe LocationRemoved\n",
    ),
    // It can be repeated from now on, and no longer.
    (
        "type Query { a: Int } directive @d on FIELD",
        "type Query { a: Int } directive @d repeatable on FIELD",
        "safe RepeatableAdded\n",
    ),
    (
        "type Query { a: Int } directive @d repeatable on FIELD",
        "type Query { a: Int } directive @d on FIELD",
        "documents RepeatableRemoved { __typename @d @d }\n",
    ),
    // An argument is removed, or a required one is added.
    (
        "type Query { a: Int } directive @d(x: Int) on FIELD",
        "type Query { a: Int } directive @d on FIELD",
        "documents DirectiveArgumentRemoved { __typename @d(x: 1) }\n",
    ),
    (
        "type Query { a: Int } directive @d on FIELD",
        "type Query { a: Int } directive @d(x: Int!) on FIELD",
        "documents DirectiveArgumentAdded { __typename @d }\n",
    ),
    // An argument becomes required, or is of another scalar.
    (
        "type Query { a: Int } directive @d(x: Int) on FIELD",
        "type Query { a: Int } directive @d(x: Int!) on FIELD",
        "documents DirectiveArgumentTypeChanged { __typename @d }\n",
    ),
    (
        "type Query { a: Int } directive @d(x: Int) on FIELD",
        "type Query { a: Int } directive @d(x: String) on FIELD",
        "documents DirectiveArgumentTypeChanged { __typename @d(x: 1) }\n",
    ),
    // An argument of a directive is removed that schemas alone could apply.
    (
        "type Query { a: Int } directive @d(x: Int) on OBJECT",
        "type Query { a: Int } directive @d on OBJECT",
        "safe DirectiveArgumentRemoved\n",
    ),
    // The default value of a non-null argument is removed.
    (
        "type Query { a: Int } directive @d(x: Int! = 1) on FIELD",
        "type Query { a: Int } directive @d(x: Int!) on FIELD",
        "documents DefaultRemoved { __typename @d }\n",
    ),
];

#[test]
fn changes_of_directives(rt: HostRuntime) {
    assert_rows(&rt, DIRECTIVES);
}
