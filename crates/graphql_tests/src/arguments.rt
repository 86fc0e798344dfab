use super::fixtures::{is_text, name, query_of_itself, reports};
use graphql_coordinates::{
    DirectiveArgumentCoordinate, DirectiveCoordinate, FieldArgumentCoordinate,
    TypeAttributeCoordinate,
};
use graphql_diagnostics::DiagnosticList;
use graphql_documents::documents::Schema;
use graphql_notation::build::{arguments, inputs};
use graphql_values::argument::{
    ArgumentOwner, GivenArguments, validate_arguments, validate_given_arguments,
    validate_required_arguments,
};
use graphql_variables::VariablesByName;
use std::alloc::Global;
use std::fmt::Write;
use std::process::Abort;

const GIVEN_TWICE_UNKNOWN_AND_MISSING: &str = "- the argument `x` is provided multiple times\n\
    - the argument `x` is not supported by `@d`\n\
    - the argument `x` is not supported by `@d`\n\
    - the required argument `@d(n:)` is not provided\n";

/// Checks these arguments, where no variable is defined.
fn check(
    rt: &impl Abort,
    schema: &Schema,
    compared: &GivenArguments<'_>,
    found: &mut DiagnosticList,
) {
    let none = VariablesByName::new(found.allocator(), found.hash_seed(), &[]).expect(
        rt,
        "no variables",
    );
    validate_arguments(found, compared.given).expect(rt, "memory");
    validate_given_arguments(found, schema, compared, &none).expect(rt, "memory");
    validate_required_arguments(found, compared).expect(rt, "memory");
}

#[test]
fn arguments_are_checked(rt: HostRuntime) {
    let alloc = rt.alloc();
    let schema = query_of_itself(&rt, alloc);
    let directive = name(&rt, alloc, "d");
    let given = arguments(alloc, "(x: 1, x: null)").expect(&rt, "arguments");
    let definitions = inputs(alloc, "(n: Int!)").expect(&rt, "a definition");
    let compared = GivenArguments {
        owner: ArgumentOwner::Directive {
            application: &directive,
            definition: &directive,
        },
        location: None,
        given: &given,
        definitions: &definitions,
        definition_location: None,
    };
    let mut found = DiagnosticList::new(alloc);
    check(&rt, &schema.0, &compared, &mut found);
    reports(&rt, alloc, &found, GIVEN_TWICE_UNKNOWN_AND_MISSING);
}

/// The coordinates of an owner of arguments and of one of these.
fn coordinates_of(rt: &impl Abort, alloc: Global, owner: &ArgumentOwner<'_>, expected: &str) {
    let own = owner
        .coordinate(alloc)
        .expect(rt, "memory for a coordinate");
    let argument = name(rt, alloc, "a");
    let of_argument = owner.argument_coordinate(alloc, &argument);
    let of_argument = of_argument.expect(rt, "memory for a coordinate");
    let mut text = String::new(alloc);
    write!(text, "{own} {of_argument}").expect(rt, "memory for a text");
    is_text(rt, text.as_str(), expected);
}

#[test]
fn owners_of_arguments_have_their_coordinates(rt: HostRuntime) {
    let alloc = rt.alloc();
    let (ty, part) = (name(&rt, alloc, "T"), name(&rt, alloc, "f"));
    let of_field = ArgumentOwner::Field {
        parent: &ty,
        field: &part,
    };
    coordinates_of(&rt, alloc, &of_field, "T.f T.f(a:)");
    let of_directive = ArgumentOwner::Directive {
        application: &part,
        definition: &ty,
    };
    coordinates_of(&rt, alloc, &of_directive, "@f @T(a:)");
}

#[test]
fn coordinates_are_made_of_names(rt: HostRuntime) {
    let alloc = rt.alloc();
    let (ty, field) = (name(&rt, alloc, "T"), name(&rt, alloc, "f"));
    let argument = name(&rt, alloc, "a");
    let one = TypeAttributeCoordinate::new(alloc, &ty, &field).expect(&rt, "memory");
    let two = FieldArgumentCoordinate::new(alloc, &ty, &field, &argument).expect(&rt, "memory");
    let three = DirectiveCoordinate::new(alloc, &field).expect(&rt, "memory");
    let four = DirectiveArgumentCoordinate::new(alloc, &field, &argument).expect(&rt, "memory");
    let mut text = String::new(alloc);
    let written = write!(text, "{one} {two} {three} {four}");
    written.expect(&rt, "memory for a text");
    is_text(&rt, text.as_str(), "T.f T.f(a:) @f @f(a:)");
}
