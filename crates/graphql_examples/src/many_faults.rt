//! Schemas and documents with many faults each.
use crate::examples::up_to_19::SUBSCRIPTION;
use crate::examples::up_to_26::DEFER;
use crate::{Example, Subject};

/// Schemas and documents with many faults each: wherever a check goes on behind a diagnostic, one of them
/// brings a diagnostic before it and one behind it.
pub fn examples() -> &'static [Example] {
    EXAMPLES
}

const EXAMPLES: &[Example] = &[
    Example {
        id: "schema-definition",
        schema: "schema @skip(if: true) { mutation: E subscription: E } directive @__d on FIELD \
            enum E type T",
        subject: Subject::SchemaInFile,
        lines: "1:0-54 missing query root operation type in schema definition\n\
            1:35-36 `E` field must return an object type\n\
            1:51-52 `E` field must return an object type\n\
            1:51-52 the same type `E` must not be used for multiple root operation types\n\
            1:7-22 skip directive is not supported for SCHEMA location\n\
            1:66-69 a directive definition cannot be named `__d` as names starting with two underscores are reserved\n\
            1:79-85 `E` has no enum values\n\
            1:86-92 `T` has no fields\n",
    },
    Example {
        id: "directive-definitions",
        schema: "type Query { f: Int } directive @__d(__x: Y @skip(if: true), x: Int, x: Int, y: \
            Int @__d, y: Query, x: Int) on ARGUMENT_DEFINITION directive @e(z: Z) on FIELD",
        subject: Subject::SchemaInFile,
        lines: "1:33-36 a directive definition cannot be named `__d` as names starting with two underscores are reserved\n\
            1:37-40 an argument cannot be named `__x` as names starting with two underscores are reserved\n\
            1:44-59 skip directive is not supported for ARGUMENT_DEFINITION location\n\
            1:42-43 cannot find type `Y` in this document\n\
            1:90-98 `y` field must be of an input type\n\
            1:61-67 the value `x` is defined multiple times\n\
            1:77-88 the value `y` is defined multiple times\n\
            1:61-67 the value `x` is defined multiple times\n\
            1:22-36 `__d` directive definition cannot reference itself\n\
            1:147-148 cannot find type `Z` in this document\n",
    },
    Example {
        id: "fields-of-objects",
        schema: "type Query { f: Int } type __T @skip(if: true) { __f(a: Int, a: Int): I @skip(if: \
            true) g: X } input I { i: Int }",
        subject: Subject::SchemaInFile,
        lines: "1:27-30 an object type cannot be named `__T` as names starting with two underscores are reserved\n\
            1:31-46 skip directive is not supported for OBJECT location\n\
            1:49-52 a field cannot be named `__f` as names starting with two underscores are reserved\n\
            1:72-87 skip directive is not supported for FIELD_DEFINITION location\n\
            1:53-59 the value `a` is defined multiple times\n\
            1:49-87 `__f` field must return an output type\n\
            1:91-92 cannot find type `X` in this document\n",
    },
    Example {
        id: "implementations",
        schema: "type Query { f: Int } interface V { v: Int } interface W { w: Int } interface P \
            implements V & W { v: Int w: Int t: Int u: Int a(x: Int, y: Int): Int b(z: Int): \
            Int } interface R implements V { v: Int s: Int c(z: Int): Int } type T implements \
            X & P & Y & R { t: String u: Boolean s: Float a(k: Int!, l: Int!): Int b(z: Int!): \
            Int c(z: String): Int o: Z } type U implements V",
        subject: Subject::SchemaInFile,
        lines: "1:351-352 cannot find type `Z` in this document\n\
            1:243-244 cannot find type `X` in this document\n\
            1:251-252 cannot find type `Y` in this document\n\
            1:225-354 interface `T` declares that it implements `P`, but to do so it must also implement `V`\n\
            1:225-354 interface `T` declares that it implements `P`, but to do so it must also implement `W`\n\
            1:225-354 interface `T` declares that it implements `R`, but to do so it must also implement `V`\n\
            1:225-354 type `T` does not satisfy interface `P`: missing field `v`\n\
            1:225-354 type `T` does not satisfy interface `P`: missing field `w`\n\
            1:225-354 type `T` does not satisfy interface `R`: missing field `v`\n\
            1:259-268 interface field `P.t` expects type `Int` but `T.t` of type `String` is not a proper subtype\n\
            1:269-279 interface field `P.u` expects type `Int` but `T.u` of type `Boolean` is not a proper subtype\n\
            1:280-288 interface field `R.s` expects type `Int` but `T.s` of type `Float` is not a proper subtype\n\
            1:289-313 interface field `P.a` expects argument `x` but `T.a` does not provide it\n\
            1:289-313 interface field `P.a` expects argument `y` but `T.a` does not provide it\n\
            1:291-298 `T.a` has extra required argument `k` not present in interface `P.a`\n\
            1:300-307 `T.a` has extra required argument `l` not present in interface `P.a`\n\
            1:316-323 interface field `P.b` expects argument `z` of type `Int` but `T.b` provides type `Int!`\n\
            1:332-341 interface field `R.c` expects argument `z` of type `Int` but `T.c` provides type `String`\n\
            1:355-374 `U` has no fields\n\
            1:355-374 type `U` does not satisfy interface `V`: missing field `v`\n",
    },
    Example {
        id: "interfaces",
        schema: "type Query { f: Int } interface N implements N & J @skip(if: true) { n: X } \
            interface J { j: Int } interface K implements J",
        subject: Subject::SchemaInFile,
        lines: "1:51-66 skip directive is not supported for INTERFACE location\n\
            1:45-46 interface N cannot implement itself\n\
            1:72-73 cannot find type `X` in this document\n\
            1:22-75 type `N` does not satisfy interface `J`: missing field `j`\n\
            1:99-123 `K` has no fields\n\
            1:99-123 type `K` does not satisfy interface `J`: missing field `j`\n",
    },
    Example {
        id: "unions-and-enums",
        schema: "type Query { f: Int } union U @skip(if: true) = X | E | Y union V @skip(if: true) \
            enum E @skip(if: true) { __A @skip(if: true) __B } enum F @skip(if: true)",
        subject: Subject::SchemaInFile,
        lines: "1:30-45 skip directive is not supported for UNION location\n\
            1:48-49 cannot find type `X` in this document\n\
            1:52-53 union member `E` must be an object type\n\
            1:56-57 cannot find type `Y` in this document\n\
            1:66-81 skip directive is not supported for UNION location\n\
            1:58-81 `V` has no member types\n\
            1:89-104 skip directive is not supported for ENUM location\n\
            1:107-110 an enum value cannot be named `__A` as names starting with two underscores are reserved\n\
            1:111-126 skip directive is not supported for ENUM_VALUE location\n\
            1:127-130 an enum value cannot be named `__B` as names starting with two underscores are reserved\n\
            1:140-155 skip directive is not supported for ENUM location\n\
            1:133-155 `F` has no enum values\n",
    },
    Example {
        id: "input-objects",
        schema: "type Query { f: Int } input A @skip(if: true) { a: A! __b: Int @skip(if: true) c: \
            X } input B @skip(if: true)",
        subject: Subject::SchemaInFile,
        lines: "1:30-45 skip directive is not supported for INPUT_OBJECT location\n\
            1:22-85 `A` input object cannot reference itself\n\
            1:54-57 an input object field cannot be named `__b` as names starting with two underscores are reserved\n\
            1:63-78 skip directive is not supported for INPUT_FIELD_DEFINITION location\n\
            1:82-83 cannot find type `X` in this document\n\
            1:94-109 skip directive is not supported for INPUT_OBJECT location\n\
            1:86-109 `B` has no input values\n",
    },
    Example {
        id: "default-values",
        schema: "type Query { f(a: Int = \"a\", b: Int = true): Int g(c: Int = \"c\"): Int } \
            directive @d(a: Int = \"d\", b: Int = 1.5) on FIELD directive @e(a: Boolean = 2) \
            on FIELD interface N { h(l: [Int] = [\"i\", \"j\"]): Int } input J { a: Int = \
            \"k\", j: J = {c: 3, a: \"l\"} } type T",
        subject: Subject::SchemaInFile,
        lines: "1:254-260 `T` has no fields\n\
            1:94-97 expected value of type Int, found a string\n\
            1:108-111 expected value of type Int, found a float\n\
            1:148-149 expected value of type Boolean, found an integer\n\
            1:24-27 expected value of type Int, found a string\n\
            1:38-42 expected value of type Int, found a boolean\n\
            1:60-63 expected value of type Int, found a string\n\
            1:188-191 expected value of type Int, found a string\n\
            1:193-196 expected value of type Int, found a string\n\
            1:225-228 expected value of type Int, found a string\n\
            1:241-242 field `c` does not exist on `J`\n\
            1:247-250 expected value of type Int, found a string\n",
    },
    Example {
        id: "applied-directives",
        schema: "type Query { a: Int } directive @d(a: Int, b: Int!, c: Int!) on QUERY",
        subject: Subject::DocumentInFile("{ a @d(a: 1, a: 2, a: \"x\", e: 3) @d(b: 1, c: 1) }"),
        lines: "1:13-17 the argument `a` is provided multiple times\n\
            1:19-25 the argument `a` is provided multiple times\n\
            1:4-32 d directive is not supported for FIELD location\n\
            1:22-25 expected value of type Int, found a string\n\
            1:27-31 the argument `e` is not supported by `@d`\n\
            1:4-32 the required argument `@d(b:)` is not provided\n\
            1:4-32 the required argument `@d(c:)` is not provided\n\
            1:33-47 non-repeatable directive d can only be used once per location\n\
            1:33-47 d directive is not supported for FIELD location\n",
    },
    Example {
        id: "fields",
        schema: "type Query { q(n: Int!): Query a: Int }",
        subject: Subject::DocumentInFile("{ q(x: 1, x: 2) @u a(y: 3) }"),
        lines: "1:16-18 cannot find directive `@u` in this document\n\
            1:10-14 the argument `x` is provided multiple times\n\
            1:4-8 the argument `x` is not supported by `Query.q`\n\
            1:10-14 the argument `x` is not supported by `Query.q`\n\
            1:2-18 the required argument `Query.q(n:)` is not provided\n\
            1:2-18 interface, union and object types must have a subselection set\n\
            1:21-25 the argument `y` is not supported by `Query.a`\n",
    },
    Example {
        id: "values",
        schema: "type Query { f(i: I, l: [Int]): Int } input I { r: Int! s: Int! t: Int }",
        subject: Subject::DocumentInFile(
            "{ f(i: {u: 1, r: null, s: \"x\", t: true}, l: [\"y\", \"z\"]) }",
        ),
        lines: "1:11-12 field `u` does not exist on `I`\n\
            1:7-39 the required field `I.r` is not provided\n\
            1:17-21 expected value of type Int!, found null\n\
            1:26-29 expected value of type Int!, found a string\n\
            1:34-38 expected value of type Int, found a boolean\n\
            1:45-48 expected value of type Int, found a string\n\
            1:50-53 expected value of type Int, found a string\n",
    },
    Example {
        id: "fragments",
        schema: "type Query { q: Query a: Int }",
        subject: Subject::DocumentInFile(
            "{ ... on Int @u { ...None } ...F @u ...G @u q { ...F } } fragment F on Int @u { \
            ...F ...None }",
        ),
        lines: "1:13-15 cannot find directive `@u` in this document\n\
            1:2-27 inline fragment must have a composite type in its type condition\n\
            1:33-35 cannot find directive `@u` in this document\n\
            1:28-35 fragment `F` with type condition `Int` cannot be applied to `Query`\n\
            1:75-77 cannot find directive `@u` in this document\n\
            1:57-94 fragment `F` must have a composite type in its type condition\n\
            1:57-94 `F` fragment cannot reference itself\n\
            1:41-43 cannot find directive `@u` in this document\n\
            1:36-43 cannot find fragment `G` in this document\n\
            1:48-52 fragment `F` with type condition `Int` cannot be applied to `Query`\n",
    },
    Example {
        id: "operations",
        schema: "type Query { a: Int b: Int }",
        subject: Subject::DocumentInFile(
            "query A($v: X @u, $v: Query, $w: Int) @u { a @u } query B($v: Int) { x: a x: b } \
            fragment F on Query { a } fragment G on Query { ... @defer(label: $l) { a } }",
        ),
        lines: "1:38-40 cannot find directive `@u` in this document\n\
            1:14-16 cannot find directive `@u` in this document\n\
            1:8-16 cannot find type `X` in this document\n\
            1:18-27 `$v` variable must be of an input type\n\
            1:18-27 the variable `$v` is declared multiple times\n\
            1:18-20 unused variable: `$v`\n\
            1:29-31 unused variable: `$w`\n\
            1:45-47 cannot find directive `@u` in this document\n\
            1:58-60 unused variable: `$v`\n\
            1:81-106 fragment `F` must be used in an operation\n\
            1:107-158 fragment `G` must be used in an operation\n\
            1:147-149 DeferLabelMustNotBeVariable\n\
            1:74-78 ConflictingFieldName\n",
    },
    Example {
        id: "defer",
        schema: DEFER,
        subject: Subject::DocumentInFile(
            "mutation M { ... @defer(label: \"x\") { a } ... @defer(label: \"x\") @defer(label: \
            \"x\") { a } } subscription S { ... @defer(label: \"x\") { s { a } } }",
        ),
        lines: "1:65-83 non-repeatable directive defer can only be used once per location\n\
            1:60-63 DuplicateDeferLabel\n\
            1:79-82 DuplicateDeferLabel\n\
            1:127-130 DuplicateDeferLabel\n\
            1:17-35 DeferOnRootMutationOrSubscriptionField\n\
            1:46-64 DeferOnRootMutationOrSubscriptionField\n\
            1:65-83 DeferOnRootMutationOrSubscriptionField\n\
            1:113-131 DeferOnRootMutationOrSubscriptionField\n\
            1:113-131 DeferInSubscriptionMustBeConditional\n",
    },
    Example {
        id: "defer-too-deep",
        schema: DEFER,
        subject: Subject::Document(
            "mutation M { ... @defer(label: \"x\") { a } ... @defer(label: \"x\") { a } \
            <1-501:... { >a<1-501: }> } query Q { ... @defer(label: \"x\") { a } }",
        ),
        lines: "- too much recursion\n\
            - RecursionLimitError\n\
            - DuplicateDeferLabel\n\
            - too much recursion\n\
            - DuplicateDeferLabel\n\
            - DeferOnRootMutationOrSubscriptionField\n\
            - DeferOnRootMutationOrSubscriptionField\n\
            - too much recursion\n",
    },
    Example {
        id: "query-too-deep",
        schema: DEFER,
        subject: Subject::Document("{ <1-501:... { >a<1-501: }> }"),
        lines: "- too much recursion\n\
            - RecursionLimitError\n\
            - too much recursion\n",
    },
    Example {
        id: "mutation-too-deep",
        schema: DEFER,
        subject: Subject::Document("mutation { <1-501:... { >a<1-501: }> }"),
        lines: "- too much recursion\n\
            - RecursionLimitError\n\
            - too much recursion\n\
            - too much recursion\n",
    },
    Example {
        id: "subscriptions",
        schema: SUBSCRIPTION,
        subject: Subject::DocumentInFile(
            "subscription S { x: __typename @skip(if: true) x: a b @include(if: true) } \
            subscription T { a b }",
        ),
        lines: "1:17-46 SubscriptionUsesIntrospection\n\
            1:31-46 SubscriptionUsesConditionalSelection\n\
            1:54-72 SubscriptionUsesConditionalSelection\n\
            1:0-74 SubscriptionUsesMultipleFields\n\
            1:47-51 ConflictingFieldType\n\
            1:47-51 ConflictingFieldName\n\
            1:75-97 SubscriptionUsesMultipleFields\n",
    },
    Example {
        id: "merging",
        schema: "type Query { q: Query a: Int b: Int c: Int }",
        subject: Subject::DocumentInFile(
            "{ x: a x: b x: c y: a y: b q { z: a z: b } r: q { w: a w: b } }",
        ),
        lines: "1:7-11 ConflictingFieldName\n\
            1:12-16 ConflictingFieldName\n\
            1:22-26 ConflictingFieldName\n\
            1:36-40 ConflictingFieldName\n\
            1:55-59 ConflictingFieldName\n",
    },
];
