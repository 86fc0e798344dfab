//! Input objects and directive definitions that are known by their levels to lead to no cycle.
use super::fixtures::{name, reports, schema_of};
use graphql_cycles::directive_levels::{DirectiveLevels, validate_directive_cycles_by_levels};
use graphql_cycles::input_object_levels::{
    InputObjectLevels, validate_input_object_cycles_by_levels,
};
use graphql_diagnostics::DiagnosticList;
use graphql_documents::documents::{DirectiveDefinition, ExtendedType, InputObjectType, Schema};
use graphql_nodes::Node;
use std::alloc::Global;
use std::process::Abort;

/// `A` requires `B`, and that `C`; `X` and `Y` require one another, and `Z` requires `X`.
const INPUT_OBJECTS: &str = "input A { b: B! a: [A!] } input B { c: C! } input C { d: Int! }
    input X { y: Y! } input Y { x: X! } input Z { x: X! }";

/// Those from which no cycle leads, and those that are on one or lead to one.
const WITHOUT_CYCLE: &[&str] = &["A", "B", "C"];

const WITH_CYCLE: &[&str] = &["X", "Y", "Z"];

const SEARCHED: &[&str] = &["A", "X", "Z", "Y"];

/// The input object of this name.
fn input_object<'a>(
    rt: &impl Abort,
    alloc: Global,
    schema: &'a Schema,
    written: &str,
) -> &'a Node<InputObjectType> {
    match schema.types.get(&name(rt, alloc, written)) {
        Some(ExtendedType::InputObject(input_object)) => input_object,
        _ => panic!(rt; "an input object was expected"),
    }
}

#[test]
fn input_objects_are_known_that_lead_to_no_cycle(rt: HostRuntime) {
    let alloc = rt.alloc();
    let schema = schema_of(&rt, alloc, INPUT_OBJECTS);
    let levels = InputObjectLevels::find(alloc, &schema.0).expect(&rt, "memory for levels");
    for written in WITHOUT_CYCLE {
        let known = input_object(&rt, alloc, &schema.0, written);
        assert!(rt; levels.is_known_without_cycle(known));
    }
    for written in WITH_CYCLE {
        let other = input_object(&rt, alloc, &schema.0, written);
        assert!(rt; !levels.is_known_without_cycle(other));
    }
    let unknown = InputObjectLevels::unknown(alloc, &schema.0);
    assert!(rt; !unknown.is_known_without_cycle(input_object(&rt, alloc, &schema.0, "C")));
}

#[test]
fn the_same_input_objects_are_reported_with_levels(rt: HostRuntime) {
    let alloc = rt.alloc();
    let schema = schema_of(&rt, alloc, INPUT_OBJECTS);
    let levels = InputObjectLevels::find(alloc, &schema.0).expect(&rt, "memory for levels");
    let mut found = DiagnosticList::new(alloc);
    for written in SEARCHED {
        let input_object = input_object(&rt, alloc, &schema.0, written);
        let searched = validate_input_object_cycles_by_levels(&mut found, &levels, input_object);
        searched.expect(&rt, "memory for a report");
    }
    reports(
        &rt,
        alloc,
        &found,
        "- `X` input object cannot reference itself\n\
            - `Y` input object cannot reference itself\n",
    );
}

/// More directive definitions than are searched one by one. `a` leads to `b`, and that through an input object to `c`; `d` leads
/// to itself through an enum, and `e` to `d`.
const DIRECTIVES: &str = "directive @a(x: Int @b) on ARGUMENT_DEFINITION
    directive @b(x: I) on ARGUMENT_DEFINITION
    directive @c(x: Int) on INPUT_FIELD_DEFINITION
    directive @d(x: E) on ENUM_VALUE
    directive @e(x: Int @d) on ARGUMENT_DEFINITION
    directive @f on FIELD directive @g on FIELD directive @h on FIELD directive @i on FIELD
    input I { x: Int @c } enum E { V @d }";

/// Those from which no cycle leads, and those that are on one or lead to one.
const DIRECTIVES_WITHOUT_CYCLE: &[&str] = &["a", "b", "c", "f"];

const DIRECTIVES_WITH_CYCLE: &[&str] = &["d", "e"];

const SEARCHED_DIRECTIVES: &[&str] = &["a", "d", "e"];

/// The directive definition of this name.
fn directive<'a>(
    rt: &impl Abort,
    alloc: Global,
    schema: &'a Schema,
    written: &str,
) -> &'a Node<DirectiveDefinition> {
    let found = schema.directive_definitions.get(&name(rt, alloc, written));
    found.expect(rt, "a directive definition")
}

/// Whether the directive definition of this name is known to lead to no cycle.
fn is_known(rt: &impl Abort, alloc: Global, levels: &DirectiveLevels<'_>, written: &str) -> bool {
    let definition = directive(rt, alloc, levels.schema, written);
    let known = levels.is_known_without_cycle(alloc, definition);
    known.expect(rt, "memory for references")
}

#[test]
fn directives_are_known_that_lead_to_no_cycle(rt: HostRuntime) {
    let alloc = rt.alloc();
    let schema = schema_of(&rt, alloc, DIRECTIVES);
    let levels = DirectiveLevels::find(alloc, &schema.0).expect(&rt, "memory for levels");
    for written in DIRECTIVES_WITHOUT_CYCLE {
        assert!(rt; is_known(&rt, alloc, &levels, written));
    }
    for written in DIRECTIVES_WITH_CYCLE {
        assert!(rt; !is_known(&rt, alloc, &levels, written));
    }
    let unknown = DirectiveLevels::unknown(alloc, &schema.0);
    assert!(rt; !is_known(&rt, alloc, &unknown, "f"));
}

#[test]
fn the_same_directives_are_reported_with_levels(rt: HostRuntime) {
    let alloc = rt.alloc();
    let schema = schema_of(&rt, alloc, DIRECTIVES);
    let levels = DirectiveLevels::find(alloc, &schema.0).expect(&rt, "memory for levels");
    let mut found = DiagnosticList::new(alloc);
    for written in SEARCHED_DIRECTIVES {
        let definition = directive(&rt, alloc, &schema.0, written);
        let searched = validate_directive_cycles_by_levels(&mut found, &levels, definition);
        searched.expect(&rt, "memory for a report");
    }
    reports(
        &rt,
        alloc,
        &found,
        "- `d` directive definition cannot reference itself\n",
    );
}
