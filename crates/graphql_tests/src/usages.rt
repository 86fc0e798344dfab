use super::fixtures::{argument_definition, reports, schema_of};
use graphql_diagnostics::DiagnosticList;
use graphql_documents::documents::{Argument, Schema, Type, VariableDefinition};
use graphql_hash_seeds::HashSeed;
use graphql_nodes::Node;
use graphql_notation::build::{arguments, variables};
use graphql_values::value::{check_value_of_type, validate_values};
use graphql_variables::{
    VariablesByName, check_variable_usage, is_variable_usage_allowed, validate_variable_usage,
};
use std::alloc::Global;
use std::process::Abort;

const MISUSED: &str =
    "- variable `$v` of type `Int` cannot be used for argument `n` of type `Int!`\n";

const WRONG_ITEM: &str = "- expected value of type Int, found a variable\n";

/// The definition of a variable, alone.
fn defined(rt: &impl Abort, alloc: Global, written: &str) -> Vec<Node<VariableDefinition>> {
    variables(alloc, written).expect(rt, "a variable")
}

/// Whether this variable is allowed where this argument is taken.
fn is_allowed(rt: &impl Abort, alloc: Global, written: &str, taken: &str) -> bool {
    let variable = defined(rt, alloc, written).pop().expect(rt, "a variable");
    let place = argument_definition(rt, alloc, taken);
    is_variable_usage_allowed(&variable.value, &place.value)
}

/// Variables, places where they are used, and whether that is allowed.
const USAGES: &[(&str, &str, bool)] = &[
    ("($v: Int = 1)", "(n: Int!)", true),
    ("($v: Int = null)", "(n: Int!)", false),
    ("($v: Int)", "(n: Int! = 3)", true),
    ("($v: [Int!])", "(n: [Int])", true),
    ("($v: Int)", "(n: [Int])", false),
    ("($v: [Int])", "(n: [Int!]! = [1])", false),
];

#[test]
fn usages_are_allowed_or_not(rt: HostRuntime) {
    for (variable, place, allowed) in USAGES {
        assert_eq!(rt;
            is_allowed(&rt, rt.alloc(), variable, place),
            *allowed,
            "{variable}"
        );
    }
}

/// The argument that a text as `(n: 1)` gives.
fn given(rt: &impl Abort, alloc: Global, written: &str) -> Node<Argument> {
    let mut arguments = arguments(alloc, written).expect(rt, "an argument");
    arguments.pop().expect(rt, "an argument")
}

#[test]
fn a_misused_variable_is_reported(rt: HostRuntime) {
    let alloc = rt.alloc();
    let built = defined(&rt, alloc, "($v: Int = null)");
    let place = argument_definition(&rt, alloc, "(n: Int!)");
    let argument = given(&rt, alloc, "(n: $v)");
    let mut found = DiagnosticList::new(alloc);
    let answer = validate_variable_usage(&mut found, &place, &built, &argument);
    assert!(rt; !answer.expect(&rt, "memory"));
    reports(&rt, alloc, &found, MISUSED);
}

/// What the value of the argument brings at a place of this type.
fn checked(
    rt: &impl Abort,
    alloc: Global,
    schema: &Schema,
    ty: &Node<Type>,
    argument: &Node<Argument>,
    defined: &[Node<VariableDefinition>],
) -> DiagnosticList {
    let mut found = DiagnosticList::new(alloc);
    validate_values(&mut found, schema, ty, argument, defined).expect(rt, "memory");
    found
}

const IN_LISTS: &[(&str, &str)] = &[("($v: Int)", ""), ("($v: String)", WRONG_ITEM)];

#[test]
fn variables_in_lists_go_by_the_innermost_type(rt: HostRuntime) {
    let alloc = rt.alloc();
    let schema = schema_of(&rt, alloc, "");
    let place = argument_definition(&rt, alloc, "(n: [Int])");
    let argument = given(&rt, alloc, "(n: [$v])");
    for (variable, expected) in IN_LISTS {
        let built = defined(&rt, alloc, variable);
        let found = checked(&rt, alloc, &schema.0, &place.value.ty, &argument, &built);
        reports(&rt, alloc, &found, expected);
    }
}

/// The lines of both calls that find variables by their names.
const BY_NAME: &str =
    "- variable `$v` of type `Int` cannot be used for argument `n` of type `Int!`\n\
    - variable `$w` is not defined\n";

#[test]
fn usages_and_values_find_variables_by_name(rt: HostRuntime) {
    let alloc = rt.alloc();
    let schema = schema_of(&rt, alloc, "");
    let built = defined(&rt, alloc, "($v: Int)");
    let variables = VariablesByName::new(alloc, HashSeed::default(), &built).expect(&rt, "memory");
    let place = argument_definition(&rt, alloc, "(n: Int!)");
    let mut found = DiagnosticList::new(alloc);
    let usage = given(&rt, alloc, "(n: $v)");
    let allowed = check_variable_usage(&mut found, &place, &variables, &usage);
    assert!(rt; !allowed.expect(&rt, "memory"));
    let (ty, other) = (&place.value.ty, given(&rt, alloc, "(n: $w)"));
    let value = &other.value.value;
    let checked = check_value_of_type(&mut found, &schema.0, ty, value, &variables);
    checked.expect(&rt, "memory");
    reports(&rt, alloc, &found, BY_NAME);
}
