use crate::changes::{Row, assert_rows};

/// Fields and their types.
const FIELDS: &[Row] = &[
    // A field is removed.
    (
        "type Query { a: Int b: Int }",
        "type Query { a: Int }",
        "documents FieldRemoved { b }\n",
    ),
    (
        "type Query { a: A } type A { x: Int b(n: Int!, m: Int): A }",
        "type Query { a: A } type A { x: Int }",
        "documents FieldRemoved { a { b(n: 1) { __typename } } }\n",
    ),
    // A field is added.
    (
        "type Query { a: Int }",
        "type Query { a: Int b: Int }",
        "safe FieldAdded\n",
    ),
    // An output becomes non-null, and another field of the shape meets it.
    (
        "type Query { u: U } union U = A | B type A { x: Int } type B { x: Int }",
        "type Query { u: U } union U = A | B type A { x: Int! } type B { x: Int }",
        "merging FieldTypeChanged { u { ... on A { x } ... on B { x } } }\n",
    ),
    // The same below two fields that come under one response key.
    (
        "type Query { u: U } union U = A | B type A { c: C } type B { d: D } type C { x: Int } type D { y: Int }",
        "type Query { u: U } union U = A | B type A { c: C } type B { d: D } type C { x: Int! } type D { y: Int }",
        "merging FieldTypeChanged { u { ... on A { k: c { k: x } } ... on B { k: d { k: y } } } }\n",
    ),
    // The same in an object, and its interface stays nullable.
    (
        "type Query { i: I } interface I { x: Int } type A implements I { x: Int }",
        "type Query { i: I } interface I { x: Int } type A implements I { x: Int! }",
        "merging FieldTypeChanged { i { x ... on A { x } } }\n",
    ),
    // The same, and no other field of the shape meets it.
    (
        "type Query { a: A } type A { x: Int y: Boolean }",
        "type Query { a: A } type A { x: Int! y: Boolean }",
        "safe FieldTypeChanged\n",
    ),
    // All fields of a shape become non-null together.
    (
        "type Query { u: U } union U = A | B type A { x: Int } type B { x: Int }",
        "type Query { u: U } union U = A | B type A { x: Int! } type B { x: Int! }",
        "safe FieldTypeChanged\nsafe FieldTypeChanged\n",
    ),
    // An output becomes nullable, and another field of the shape meets it.
    (
        "type Query { u: U } union U = A | B type A { x: Int! } type B { x: Int! }",
        "type Query { u: U } union U = A | B type A { x: Int } type B { x: Int! }",
        "merging FieldTypeChanged { u { ... on A { x } ... on B { x } } }\n",
    ),
    // The name of a type has the shape of another field.
    (
        "type Query { u: U } union U = A | B type A { x: String! } type B { y: Int }",
        "type Query { u: U } union U = A | B type A { x: String } type B { y: Int }",
        "merging FieldTypeChanged { u { ... on A { k: x } ... on B { k: __typename } } }\n",
    ),
    // An output becomes nullable, and nothing meets it: responses change.
    (
        "type Query { a: Int! }",
        "type Query { a: Int }",
        "responses FieldTypeChanged\n",
    ),
    // A leaf becomes another leaf, and another field of the shape meets it.
    (
        "type Query { u: U } union U = A | B type A { x: Int } type B { x: Int }",
        "type Query { u: U } union U = A | B type A { x: Float } type B { x: Int }",
        "safe TypeAdded\nmerging FieldTypeChanged { u { ... on A { x } ... on B { x } } }\n",
    ),
    // A leaf becomes another leaf, and nothing meets it: responses change.
    (
        "type Query { a: Int b(i: Int f: Float): Boolean }",
        "type Query { a: Float b(i: Int f: Float): Boolean }",
        "responses FieldTypeChanged\n",
    ),
    // A leaf becomes composite.
    (
        "type Query { a: Int } type A { x: Int }",
        "type Query { a: A } type A { x: Int }",
        "documents FieldTypeChanged { a }\n",
    ),
    // Composite becomes a leaf.
    (
        "type Query { a: A } type A { x: Int }",
        "type Query { a: Int } type A { x: Int }",
        "documents FieldTypeChanged { a { x } }\n",
    ),
    // An object becomes another object.
    (
        "type Query { a: T } type T { x: Int } type S { x: Int }",
        "type Query { a: S } type T { x: Int } type S { x: Int }",
        "documents FieldTypeChanged { a { ... on T { __typename } } }\n",
    ),
    // An interface becomes one of its objects.
    (
        "type Query { n: N } interface N { x: Int } type O implements N { x: Int } type P implements N { x: Int }",
        "type Query { n: O } interface N { x: Int } type O implements N { x: Int } type P implements N { x: Int }",
        "documents FieldTypeChanged { n { ... on P { __typename } } }\n",
    ),
    // An interface becomes its only object: it is refused, and no document breaks.
    (
        "type Query { n: N } interface N { x: Int } type O implements N { x: Int }",
        "type Query { n: O } interface N { x: Int } type O implements N { x: Int }",
        "documents FieldTypeChanged\n",
    ),
    // An object becomes a union of it.
    (
        "type Query { a: A u: U } union U = A | B type A { x: Int } type B { x: Int }",
        "type Query { a: U u: U } union U = A | B type A { x: Int } type B { x: Int }",
        "documents FieldTypeChanged { a { x } }\n",
    ),
    // A union becomes a wider one: it is refused, and no document breaks.
    (
        "type Query { a: U v: V } union U = A union V = A | B type A { x: Int } type B { x: Int }",
        "type Query { a: V v: V } union U = A union V = A | B type A { x: Int } type B { x: Int }",
        "documents FieldTypeChanged\n",
    ),
    // A union becomes an interface of its members: the same.
    (
        "type Query { a: U i: I } union U = A interface I { x: Int } type A implements I { x: Int }",
        "type Query { a: I i: I } union U = A interface I { x: Int } type A implements I { x: Int }",
        "documents FieldTypeChanged\n",
    ),
];

#[test]
fn changes_of_fields(rt: HostRuntime) {
    assert_rows(&rt, FIELDS);
}
