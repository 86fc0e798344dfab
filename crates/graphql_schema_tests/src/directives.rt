use super::fixtures::{query_of_itself, reports};
use graphql_diagnostics::DiagnosticList;
use graphql_documents::documents::Schema;
use graphql_hash_seeds::HashSeed;
use graphql_nodes::DirectiveLocation;
use graphql_notation::build::directives;
use graphql_values::directive::{check_directives, check_each_directive, validate_directives};
use graphql_variables::VariablesByName;
use std::alloc::Global;
use std::process::Abort;

/// Directives on a field, and what is reported of them.
const ON_A_FIELD: &[(&str, &str)] = &[
    (
        "@skip(if: true) @skip(if: true)",
        "- non-repeatable directive skip can only be used once per location\n",
    ),
    (
        "@deprecated",
        "- deprecated directive is not supported for FIELD location\n",
    ),
    (
        "@skip",
        "- the required argument `@skip(if:)` is not provided\n",
    ),
    (
        "@skip(if: true, x: 1)",
        "- the argument `x` is not supported by `@skip`\n",
    ),
    (
        "@x @x",
        "- cannot find directive `@x` in this document\n\
            - cannot find directive `@x` in this document\n",
    ),
];

const UNDEFINED: &str = "- cannot find directive `@skip` in this document\n";

/// These directives on a field bring these reports, against the schema if there is one.
fn check(rt: &impl Abort, alloc: Global, schema: Option<&Schema>, applied: &str, expected: &str) {
    let built = directives(alloc, applied).expect(rt, "directives");
    let mut given = Vec::new(alloc);
    for application in &built {
        given.push(application).expect(rt, "memory for a reference");
    }
    let mut found = DiagnosticList::new(alloc);
    let place = DirectiveLocation::Field;
    validate_directives(&mut found, schema, &given, place, &[]).expect(rt, "memory");
    reports(rt, alloc, &found, expected);
}

#[test]
fn directives_are_checked(rt: HostRuntime) {
    let alloc = rt.alloc();
    let schema = query_of_itself(&rt, alloc);
    for (applied, expected) in ON_A_FIELD {
        check(&rt, alloc, Some(&schema.0), applied, expected);
    }
    check(&rt, alloc, None, "@skip", UNDEFINED);
}

/// The lines of both calls on directives whose variables are by name.
const TWICE: &str = "- cannot find directive `@x` in this document\n\
    - cannot find directive `@x` in this document\n";

#[test]
fn directives_are_checked_where_the_variables_are_by_name(rt: HostRuntime) {
    let alloc = rt.alloc();
    let built = directives(alloc, "@x").expect(&rt, "a directive");
    let mut given = Vec::new(alloc);
    let only = built.first().expect(&rt, "a directive");
    given.push(only).expect(&rt, "memory for a reference");
    let none = VariablesByName::new(alloc, HashSeed::default(), &[]).expect(&rt, "no variables");
    let place = DirectiveLocation::Field;
    let mut found = DiagnosticList::new(alloc);
    check_directives(&mut found, None, &given, place, &none).expect(&rt, "memory");
    check_each_directive(&mut found, None, &built, place, &none).expect(&rt, "memory");
    reports(&rt, alloc, &found, TWICE);
}
