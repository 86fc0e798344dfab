use crate::documents::{reported, sources};
use graphql_parser::Bounds;
use std::process::Abort;

/// Texts of a schema and of a document with more than one fault in each list, object or sequence of checks, and what is
/// reported, in order: the file, the byte and the name of the rule, and the byte of the other place. The schema is file 9, and
/// the document file 1.
const SEQUENCES: &[(&str, &str, &str)] = &[
    (
        "{ a } query Q { a } extend schema { query: A query: A query: A mutation: B mutation: B subscription: C subscription: C } extend schema @d scalar Int scalar Float type T { a: Int } type T { a: Int } type T { a: Int } directive @d on SCHEMA directive @d on SCHEMA directive @d on SCHEMA extend type Y { a: Int } extend type Z { a: Int } type U implements T & T & V { a: Int a: Int a: Int } type V { a: Int a: Int }",
        "",
        "9:0 ExecutableDefinition\n\
            9:6 ExecutableDefinition\n\
            9:52 DuplicateRootOperation 43\n\
            9:61 DuplicateRootOperation 43\n\
            9:85 DuplicateRootOperation 73\n\
            9:117 DuplicateRootOperation 101\n\
            9:20 OrphanSchemaExtension\n\
            9:121 OrphanSchemaExtension\n\
            9:138 BuiltInScalarTypeRedefinition\n\
            9:149 BuiltInScalarTypeRedefinition\n\
            9:185 TypeDefinitionCollision 167\n\
            9:203 TypeDefinitionCollision 167\n\
            9:250 DirectiveDefinitionCollision 227\n\
            9:273 DirectiveDefinitionCollision 227\n\
            9:297 OrphanTypeExtension\n\
            9:322 OrphanTypeExtension\n\
            9:353 ImplementedNonInterface 167\n\
            9:357 ImplementedNonInterface 167\n\
            9:361 ImplementedNonInterface 393\n\
            9:372 MemberNameCollision 365\n\
            9:379 MemberNameCollision 365\n\
            9:357 DuplicateImplementsInterface 353\n\
            9:404 MemberNameCollision 397\n",
    ),
    (
        "schema { query: A } schema { mutation: B } schema { subscription: C } type A { x: Int } type B { x: Int } type C { x: Int }",
        "",
        "9:20 SchemaDefinitionCollision 0\n\
            9:43 SchemaDefinitionCollision 0\n",
    ),
    (
        "type Query { a: Int }",
        "{ a ...F } { a } query O { a } query O { a } query O { a } fragment F on Query { z } fragment F on Query { z y } fragment F on Query { a }",
        "1:0 AmbiguousAnonymousOperation\n\
            1:11 AmbiguousAnonymousOperation\n\
            1:37 OperationNameCollision 23\n\
            1:51 OperationNameCollision 23\n\
            1:94 FragmentNameCollision 68\n\
            1:122 FragmentNameCollision 68\n\
            1:81 UndefinedField\n\
            1:107 UndefinedField\n\
            1:109 UndefinedField\n",
    ),
    (
        "scalar J type Query { f(j: J, k: J): Query g: Int } directive @d(j: J, k: J) repeatable on QUERY | VARIABLE_DEFINITION | FIELD | FRAGMENT_SPREAD | INLINE_FRAGMENT | FRAGMENT_DEFINITION",
        "query A($v: J = {x: 1 x: 2} @d(j: {x: 1 x: 2}), $w: J = {x: 1 x: 2}) @d(j: {x: 1 x: 2}, k: {x: 1 x: 2}) @d(j: {x: 1 x: 2}) { f(j: [{x: 1 x: 2} {x: 1 x: 2}], k: {x: 1 x: 2 y: {x: 1 x: 2} z: {x: 1 x: 2}}) @d(j: {x: 1 x: 2}) { h: f(j: $v, k: {x: 1 x: 2}) { g } } ... on Query @d(j: {x: 1 x: 2}) { i: f(k: $w, j: {x: 1 x: 2}) { g } } ...F @d(j: {x: 1 x: 2}) } query B { f(j: {x: 1 x: 2}) { g ...G } } fragment F on Query @d(j: {x: 1 x: 2}) { k: f(j: {x: 1 x: 2}) { g } } fragment G on Query { l: f(j: {x: 1 x: 2}) { g } }",
        "1:22 UniqueInputField 17\n\
            1:40 UniqueInputField 35\n\
            1:62 UniqueInputField 57\n\
            1:81 UniqueInputField 76\n\
            1:97 UniqueInputField 92\n\
            1:116 UniqueInputField 111\n\
            1:137 UniqueInputField 132\n\
            1:149 UniqueInputField 144\n\
            1:166 UniqueInputField 161\n\
            1:180 UniqueInputField 175\n\
            1:195 UniqueInputField 190\n\
            1:215 UniqueInputField 210\n\
            1:245 UniqueInputField 240\n\
            1:285 UniqueInputField 280\n\
            1:315 UniqueInputField 310\n\
            1:347 UniqueInputField 342\n\
            1:377 UniqueInputField 372\n\
            1:429 UniqueInputField 424\n\
            1:452 UniqueInputField 447\n\
            1:503 UniqueInputField 498\n",
    ),
    (
        "scalar J type Query { f(j: J, k: J): Query g: Int } directive @d(j: J, k: J) repeatable on QUERY | VARIABLE_DEFINITION | FIELD | FRAGMENT_SPREAD | INLINE_FRAGMENT | FRAGMENT_DEFINITION",
        "{ f(j: {x: 1 x: 2}) { g ...G } } fragment G on Query { l: f(j: {x: 1 x: 2}) { g } }",
        "1:13 UniqueInputField 8\n\
            1:69 UniqueInputField 64\n",
    ),
    (
        "type Query { sum(of: [Int!]): Int }",
        "query($a: Int) { sum(of: [$a $a]) }",
        "1:26 DisallowedVariableUsage 6\n\
            1:29 DisallowedVariableUsage 6\n",
    ),
    (
        "schema { query: A } schema { query: A } type A { x: Int }",
        "",
        "9:20 SchemaDefinitionCollision 0\n\
            9:36 DuplicateRootOperation 16\n",
    ),
    (
        "scalar J type Query { f(j: J, k: J): Query g: Int } directive @d(j: J, k: J) repeatable on QUERY | VARIABLE_DEFINITION | FIELD | FRAGMENT_SPREAD | INLINE_FRAGMENT | FRAGMENT_DEFINITION",
        "{ f(j: {x: 1 x: 2 x: 3}) { g } }",
        "1:13 UniqueInputField 8\n\
            1:18 UniqueInputField 8\n",
    ),
    (
        "schema @d(j: {x: 1 x: 2}, k: {x: 1 x: 2}) @d(j: {x: 1 x: 2}) { query: Query } directive @d(j: J, k: J) repeatable on SCHEMA | SCALAR | OBJECT | FIELD_DEFINITION | ARGUMENT_DEFINITION | INTERFACE | UNION | ENUM | ENUM_VALUE | INPUT_OBJECT | INPUT_FIELD_DEFINITION directive @e(a: J = {x: 1 x: 2} @d(j: {x: 1 x: 2}), b: J = {x: 1 x: 2}) on FIELD directive @f(a: J = {x: 1 x: 2}) on FIELD scalar J scalar K @d(j: {x: 1 x: 2}) type Query @d(j: {x: 1 x: 2}) { f(a: J = {x: 1 x: 2} @d(j: {x: 1 x: 2}), b: J = {x: 1 x: 2}): Int @d(j: {x: 1 x: 2}) g(a: J = {x: 1 x: 2} @d(j: {x: 1 x: 2}), b: J = {x: 1 x: 2}): Int @d(j: {x: 1 x: 2}) } interface N @d(j: {x: 1 x: 2}) { h(a: J = {x: 1 x: 2} @d(j: {x: 1 x: 2}), b: J = {x: 1 x: 2}): Int @d(j: {x: 1 x: 2}) } union U @d(j: {x: 1 x: 2}) = Query enum E @d(j: {x: 1 x: 2}) { A @d(j: {x: 1 x: 2}) B @d(j: {x: 1 x: 2}) } input I @d(j: {x: 1 x: 2}) { x: J = {x: 1 x: 2} @d(j: {x: 1 x: 2}) y: J = {x: 1 x: 2} }",
        "",
        "9:19 UniqueInputField 14\n\
            9:35 UniqueInputField 30\n\
            9:54 UniqueInputField 49\n\
            9:307 UniqueInputField 302\n\
            9:289 UniqueInputField 284\n\
            9:328 UniqueInputField 323\n\
            9:370 UniqueInputField 365\n\
            9:416 UniqueInputField 411\n\
            9:446 UniqueInputField 441\n\
            9:533 UniqueInputField 528\n\
            9:488 UniqueInputField 483\n\
            9:470 UniqueInputField 465\n\
            9:509 UniqueInputField 504\n\
            9:618 UniqueInputField 613\n\
            9:573 UniqueInputField 568\n\
            9:555 UniqueInputField 550\n\
            9:594 UniqueInputField 589\n\
            9:651 UniqueInputField 646\n\
            9:738 UniqueInputField 733\n\
            9:693 UniqueInputField 688\n\
            9:675 UniqueInputField 670\n\
            9:714 UniqueInputField 709\n\
            9:767 UniqueInputField 762\n\
            9:801 UniqueInputField 796\n\
            9:824 UniqueInputField 819\n\
            9:845 UniqueInputField 840\n\
            9:874 UniqueInputField 869\n\
            9:914 UniqueInputField 909\n\
            9:896 UniqueInputField 891\n\
            9:934 UniqueInputField 929\n",
    ),
    (
        "type Query { f(l: [Int!], m: [Int!], o: P): Query g: Int } input P { l: [Int!] m: [Int!] } directive @d(l: [Int!], m: [Int!]) repeatable on QUERY | FIELD | FRAGMENT_DEFINITION | INLINE_FRAGMENT | FRAGMENT_SPREAD",
        "query A($a: Int) @d(l: [$a]) @d(l: [$a], m: [$a]) { f(l: [$a], m: [$a]) @d(l: [$a]) @d(l: [$a]) { g h: f(o: {l: [$a], m: [$a]}) { g } } i: f(l: [$a]) { g } ... on Query @d(l: [$a]) { j: f(l: [$a]) { g } } ...F @d(l: [$a]) ...G } query B($a: Int) { f(l: [$a]) { g } } fragment F on Query @d(l: [$a]) { k: f(l: [$a]) { g } } fragment G on Query { n: f(l: [$a]) { g } }",
        "1:24 DisallowedVariableUsage 8\n\
            1:36 DisallowedVariableUsage 8\n\
            1:45 DisallowedVariableUsage 8\n\
            1:58 DisallowedVariableUsage 8\n\
            1:67 DisallowedVariableUsage 8\n\
            1:79 DisallowedVariableUsage 8\n\
            1:91 DisallowedVariableUsage 8\n\
            1:113 DisallowedVariableUsage 8\n\
            1:122 DisallowedVariableUsage 8\n\
            1:145 DisallowedVariableUsage 8\n\
            1:176 DisallowedVariableUsage 8\n\
            1:192 DisallowedVariableUsage 8\n\
            1:217 DisallowedVariableUsage 8\n\
            1:294 DisallowedVariableUsage 8\n\
            1:310 DisallowedVariableUsage 8\n\
            1:354 DisallowedVariableUsage 8\n\
            1:254 DisallowedVariableUsage 237\n",
    ),
];

/// No check of the front end ends at its first report.
#[test]
fn each_fault_of_several_is_reported(rt: HostRuntime) {
    let alloc = rt.alloc();
    for (schema, document, expected) in SEQUENCES {
        let sources = sources(&rt, alloc, document, "");
        let found = reported(&rt, alloc, schema, &sources, Bounds::DEFAULT);
        assert_eq!(rt; found.as_str(), *expected, "{schema} {document}");
    }
}
