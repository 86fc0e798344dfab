use crate::changes::{Row, assert_rows};

/// Enums, unions and interfaces.
const PARTS: &[Row] = &[
    // A value of an enum is removed that documents can give.
    (
        "type Query { a(e: E): Int } enum E { X Y }",
        "type Query { a(e: E): Int } enum E { X }",
        "documents EnumValueRemoved { a(e: Y) }\n",
    ),
    // The same of an enum that is an output alone: it is refused, and no document breaks.
    (
        "type Query { e: E } enum E { X Y }",
        "type Query { e: E } enum E { X }",
        "documents EnumValueRemoved\n",
    ),
    // The same, and a custom scalar can be given.
    (
        "type Query { e(s: S): E } enum E { X Y } scalar S",
        "type Query { e(s: S): E } enum E { X } scalar S",
        "documents EnumValueRemoved query($v: E = Y) { e(s: {k: $v}) }\n",
    ),
    // A value is added.
    (
        "type Query { e: E } enum E { X }",
        "type Query { e: E } enum E { X Y }",
        "dangerous EnumValueAdded\n",
    ),
    // A member is removed.
    (
        "type Query { u: U b: B } union U = A | B type A { x: Int } type B { x: Int }",
        "type Query { u: U b: B } union U = A type A { x: Int } type B { x: Int }",
        "documents MemberRemoved { u { ... on B { __typename } } }\n",
    ),
    // A member is added.
    (
        "type Query { u: U b: B } union U = A type A { x: Int } type B { x: Int }",
        "type Query { u: U b: B } union U = A | B type A { x: Int } type B { x: Int }",
        "dangerous MemberAdded\n",
    ),
    // An object no longer implements an interface.
    (
        "type Query { i: I a: A } interface I { x: Int } type A implements I { x: Int } type B implements I { x: Int }",
        "type Query { i: I a: A } interface I { x: Int } type A { x: Int } type B implements I { x: Int }",
        "documents InterfaceRemoved { i { ... on A { __typename } } }\n",
    ),
    // An interface no longer implements another one, and its objects do.
    (
        "type Query { i: I } interface I { x: Int } interface J implements I { x: Int } type A implements I & J { x: Int }",
        "type Query { i: I } interface I { x: Int } interface J { x: Int } type A implements I & J { x: Int }",
        "safe InterfaceRemoved\n",
    ),
    // The root type of subscriptions becomes an object of an interface or a union, and a subscription has a second root field.
    (
        "type Query { i: I } interface I { x: Int } interface J { x: Int } type A implements I & J { x: Int } type Subscription implements J { x: Int }",
        "type Query { i: I } interface I { x: Int } interface J { x: Int } type A implements I & J { x: Int } type Subscription implements I & J { x: Int }",
        "documents InterfaceAdded subscription { x ... on J { ... on I { k: x } } }\n",
    ),
    (
        "type Query { u: U } union U = A interface J { x: Int } type A implements J { x: Int } type Subscription implements J { x: Int }",
        "type Query { u: U } union U = A | Subscription interface J { x: Int } type A implements J { x: Int } type Subscription implements J { x: Int }",
        "documents MemberAdded subscription { x ... on J { ... on U { ... on J { k: x } } } }\n",
    ),
    // The same, and no condition on the root type leads to the union: it is refused, and no document breaks.
    (
        "type Query { u: U } union U = A type A { x: Int } type Subscription { x: Int }",
        "type Query { u: U } union U = A | Subscription type A { x: Int } type Subscription { x: Int }",
        "documents MemberAdded\n",
    ),
    // An object implements one more interface.
    (
        "type Query { i: I a: A } interface I { x: Int } type A { x: Int }",
        "type Query { i: I a: A } interface I { x: Int } type A implements I { x: Int }",
        "dangerous InterfaceAdded\n",
    ),
];

/// Types and their kinds.
const TYPES: &[Row] = &[
    (
        "type Query { a: Int }",
        "type Query { a: Int } type A { x: Int }",
        "safe TypeAdded\n",
    ),
    // A type is removed to which documents come.
    (
        "type Query { u: U } union U = A | B type A { x: Int } type B { x: Int }",
        "type Query { u: U } union U = A type A { x: Int }",
        "documents MemberRemoved { u { ... on B { __typename } } }\ndocuments TypeRemoved { u { ... on B { __typename } } }\n",
    ),
    // A type is removed to which no document comes: it is refused, and no document breaks.
    (
        "type Query { a: Int } type A { x: Int }",
        "type Query { a: Int }",
        "documents TypeRemoved\n",
    ),
    // An input type is removed that a variable can be of.
    (
        "type Query { a(s: S): Int } scalar S input Z { p: Int }",
        "type Query { a(s: S): Int } scalar S",
        "documents TypeRemoved query($v: Z) { a(s: {k: $v}) }\n",
    ),
    // The last use of a built-in scalar is removed, and a custom scalar can be given.
    (
        "type Query { a(s: S): Int b: Float } scalar S",
        "type Query { a(s: S): Int } scalar S",
        "documents TypeRemoved query($v: Float) { a(s: {k: $v}) }\ndocuments FieldRemoved { b }\n",
    ),
    // An enum or an input object becomes a custom scalar.
    (
        "type Query { a(e: E): Int } enum E { X }",
        "type Query { a(e: E): Int } scalar E",
        "dangerous KindChanged\n",
    ),
    (
        "type Query { a(i: I): Int } input I { p: Int }",
        "type Query { a(i: I): Int } scalar I",
        "dangerous KindChanged\n",
    ),
    // A custom scalar becomes an enum, as an input and as an output alone.
    (
        "type Query { a(s: S): Int } scalar S",
        "type Query { a(s: S): Int } enum S { X }",
        "documents KindChanged { a(s: 1) }\n",
    ),
    (
        "type Query { s: S } scalar S",
        "type Query { s: S } enum S { X }",
        "documents KindChanged\n",
    ),
    // A scalar becomes an object.
    (
        "type Query { s: S i: Int } scalar S",
        "type Query { s: S i: Int } type S { x: Int }",
        "documents KindChanged { s }\n",
    ),
    // A union becomes an interface of the same objects.
    (
        "type Query { u: U } union U = A type A { x: Int }",
        "type Query { u: U } interface U { x: Int } type A implements U { x: Int }",
        "safe KindChanged\nsafe FieldAdded\nsafe InterfaceAdded\n",
    ),
    // An interface becomes a union.
    (
        "type Query { u: U } interface U { x: Int } type A implements U { x: Int }",
        "type Query { u: U } union U = A type A { x: Int }",
        "safe KindChanged\ndocuments FieldRemoved { u { x } }\nsafe InterfaceRemoved\n",
    ),
    // An object becomes an interface, and overlaps with another object.
    (
        "type Query { i: I } interface I { x: Int } type T implements I { x: Int } type A implements I { x: Int y: Int }",
        "type Query { i: I } interface I { x: Int } interface T implements I { x: Int } type A implements I { x: Int y: Int } type Z implements I & T { x: Int }",
        "documents KindChanged { i { ... on T { k: x } ... on A { k: y } } }\nsafe TypeAdded\n",
    ),
    // An interface without objects becomes an object.
    (
        "type Query { i: I } interface I { x: Int }",
        "type Query { i: I } type I { x: Int }",
        "safe KindChanged\n",
    ),
];

/// Root types, and what is no change.
const ROOTS: &[Row] = &[
    (
        "type Query { a: Int }",
        "type Query { a: Int } type Mutation { m: Int }",
        "safe RootAdded\nsafe TypeAdded\n",
    ),
    // A root type is removed.
    (
        "type Query { a: Int } type Mutation { m: Int }",
        "type Query { a: Int }",
        "documents RootRemoved mutation { __typename }\ndocuments TypeRemoved mutation { ... on Mutation { __typename } }\n",
    ),
    (
        "type Query { a: Int } type Subscription { s: Int }",
        "type Query { a: Int }",
        "documents RootRemoved subscription { s }\ndocuments TypeRemoved subscription { ... on Subscription { s } }\n",
    ),
    // It is left out of the schema definition, and the type stays.
    (
        "schema { query: Query mutation: Mutation } type Query { a: Int } type Mutation { m: Int }",
        "schema { query: Query } type Query { a: Int } type Mutation { m: Int }",
        "documents RootRemoved mutation { __typename }\n",
    ),
    // It is another type, and both stay.
    (
        "schema { query: Q } type Q { a: Int } type R { a: Int }",
        "schema { query: R } type Q { a: Int } type R { a: Int }",
        "documents RootChanged { ... on Q { __typename } }\n",
    ),
    // Its type has another name.
    (
        "schema { query: Q } type Q { a: Int }",
        "schema { query: R } type R { a: Int }",
        "documents RootChanged { ... on Q { __typename } }\nsafe TypeAdded\ndocuments TypeRemoved { ... on Q { __typename } }\n",
    ),
    // Descriptions, deprecation and order.
    (
        "\"d\" type Query { a: Int b: Int @deprecated } enum E { X Y }",
        "enum E { Y X } type Query { b: Int \"e\" a: Int }",
        "",
    ),
];

#[test]
fn changes_of_parts_of_types(rt: HostRuntime) {
    assert_rows(&rt, PARTS);
}

#[test]
fn changes_of_types(rt: HostRuntime) {
    assert_rows(&rt, TYPES);
}

#[test]
fn changes_of_root_types(rt: HostRuntime) {
    assert_rows(&rt, ROOTS);
}
