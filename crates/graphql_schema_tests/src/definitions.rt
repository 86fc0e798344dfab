//! The calls on the definitions of a schema that `validate_schema` reaches only through one another.
use super::fixtures::{is_text, name, reports, schema_of};
use graphql_cycles::directives::validate_directive_cycles;
use graphql_cycles::input_objects::validate_input_object_cycles;
use graphql_diagnostics::DiagnosticList;
use graphql_documents::documents::{ExtendedType, ExtensionId, ObjectType, Schema};
use graphql_field_definitions::built_in_scalars::BuiltInScalars;
use graphql_field_definitions::definition_directives::{
    validate_component_directives, validate_definition_directives,
};
use graphql_implementations::validate_interface_fields;
use graphql_nodes::{DirectiveLocation, Name, ValidationError};
use graphql_schemas::default_values::validate_default_values;
use graphql_schemas::extensions::{
    enum_extensions, input_object_extensions, interface_extensions, locations_of,
    object_extensions, union_extensions,
};
use graphql_schemas::type_map::retain_used_built_in_scalars;
use graphql_schemas::types::validate_types;
use std::alloc::Global;
use std::fmt::Write;
use std::process::Abort;

/// The type of this name.
fn type_named<'a>(
    rt: &impl Abort,
    alloc: Global,
    schema: &'a Schema,
    written: &str,
) -> &'a ExtendedType {
    let found = schema.types.get(&name(rt, alloc, written));
    found.expect(rt, "a type")
}

#[test]
fn a_directive_that_leads_to_itself_is_reported(rt: HostRuntime) {
    let alloc = rt.alloc();
    let schema = schema_of(&rt, alloc, "directive @d(a: Int @d) on ARGUMENT_DEFINITION");
    let last = schema.0.directive_definitions.last();
    let (_, definition) = last.expect(&rt, "a directive");
    let mut found = DiagnosticList::new(alloc);
    let searched = validate_directive_cycles(&mut found, &schema.0, definition);
    searched.expect(&rt, "memory for a report");
    reports(
        &rt,
        alloc,
        &found,
        "- `d` directive definition cannot reference itself\n",
    );
}

#[test]
fn an_input_object_that_leads_to_itself_is_reported(rt: HostRuntime) {
    let alloc = rt.alloc();
    let schema = schema_of(&rt, alloc, "input A { a: A! }");
    let ExtendedType::InputObject(input_object) = type_named(&rt, alloc, &schema.0, "A") else {
        panic!(rt; "an input object was expected");
    };
    let mut found = DiagnosticList::new(alloc);
    let searched = validate_input_object_cycles(&mut found, &schema.0, input_object);
    searched.expect(&rt, "memory for a report");
    reports(
        &rt,
        alloc,
        &found,
        "- `A` input object cannot reference itself\n",
    );
}

/// The lines of the call on all types, and of that on all default values.
const TYPES_AND_DEFAULTS: &str = "- `E` has no enum values\n\
    - `T` has no fields\n\
    - expected value of type Int, found a string\n\
    - expected value of type Int, found a boolean\n";

#[test]
fn all_types_and_then_all_default_values_are_checked(rt: HostRuntime) {
    let alloc = rt.alloc();
    let written = "type Query { f(a: Int = true): Int } enum E type T \
        directive @d(a: Int = \"x\") on FIELD";
    let schema = schema_of(&rt, alloc, written);
    let used = &mut BuiltInScalars::new();
    let mut found = DiagnosticList::new(alloc);
    let types = validate_types(&mut found, &schema.0, used);
    types.expect(&rt, "memory for reports");
    let defaults = validate_default_values(&mut found, &schema.0);
    defaults.expect(&rt, "memory for reports");
    reports(&rt, alloc, &found, TYPES_AND_DEFAULTS);
}

/// An object that lists an interface, with directives that do not belong where they are.
const OBJECT: &str = "interface P { m: Int n: Int o: Int }
    type T implements P @deprecated { n: Int @skip(if: true) }";

/// The object `T`.
fn object<'a>(rt: &impl Abort, alloc: Global, schema: &'a Schema) -> &'a ObjectType {
    match type_named(rt, alloc, schema, "T") {
        ExtendedType::Object(object) => &object.value,
        _ => panic!(rt; "an object was expected"),
    }
}

#[test]
fn directives_are_checked_on_types_and_on_their_parts(rt: HostRuntime) {
    let alloc = rt.alloc();
    let schema = schema_of(&rt, alloc, OBJECT);
    let object = object(&rt, alloc, &schema.0);
    let (_, field) = object.fields.first().expect(&rt, "a field");
    let parts = &field.node.value.directives;
    let mut found = DiagnosticList::new(alloc);
    let place = DirectiveLocation::Object;
    let whole = validate_component_directives(&mut found, &schema.0, &object.directives, place);
    whole.expect(&rt, "memory for reports");
    let place = DirectiveLocation::FieldDefinition;
    let part = validate_definition_directives(&mut found, &schema.0, parts, place);
    part.expect(&rt, "memory for reports");
    reports(
        &rt,
        alloc,
        &found,
        "- deprecated directive is not supported for OBJECT location\n\
            - skip directive is not supported for FIELD_DEFINITION location\n",
    );
}

#[test]
fn each_missing_field_of_an_interface_is_reported(rt: HostRuntime) {
    let alloc = rt.alloc();
    let schema = schema_of(&rt, alloc, OBJECT);
    let object = object(&rt, alloc, &schema.0);
    let (fields, listed) = (&object.fields, &object.implements_interfaces);
    let mut found = DiagnosticList::new(alloc);
    let all = validate_interface_fields(&mut found, &schema.0, &object.name, None, fields, listed);
    all.expect(&rt, "memory for reports");
    reports(
        &rt,
        alloc,
        &found,
        "- type `T` does not satisfy interface `P`: missing field `m`\n\
            - type `T` does not satisfy interface `P`: missing field `o`\n",
    );
}

/// Types of each kind that holds more than directives, each with two extensions.
const EXTENDED: &str = "type T extend type T @b extend type T { a: Int }
    interface P extend interface P @b extend interface P { a: Int }
    union U extend union U = T extend union U @b
    enum E extend enum E { A } extend enum E @b
    input N extend input N { a: Int } extend input N @b";

/// Those types, and the numbers of their extensions, directives first.
const EXTENSIONS: &[(&str, &str)] = &[
    ("T", "1 2 "),
    ("P", "1 2 "),
    ("U", "2 1 "),
    ("E", "2 1 "),
    ("N", "2 1 "),
];

/// The extensions of a type by the call of its kind.
fn extensions_by_kind(
    rt: &impl Abort,
    alloc: Global,
    definition: &ExtendedType,
) -> Result<Vec<ExtensionId>, ValidationError> {
    match definition {
        ExtendedType::Object(object) => object_extensions(alloc, object),
        ExtendedType::Interface(interface) => interface_extensions(alloc, interface),
        ExtendedType::Union(members) => union_extensions(alloc, members),
        ExtendedType::Enum(values) => enum_extensions(alloc, values),
        ExtendedType::InputObject(fields) => input_object_extensions(alloc, fields),
        ExtendedType::Scalar(_) => panic!(rt; "another type was expected"),
    }
}

/// The numbers of the extensions of a type. None of them has a place.
fn numbers_of(rt: &impl Abort, alloc: Global, definition: &ExtendedType) -> String {
    let found = extensions_by_kind(rt, alloc, definition).expect(rt, "memory for extensions");
    let places = locations_of(alloc, &found).expect(rt, "memory for places");
    assert!(rt; places.len() == found.len() && places.iter().all(|place| place.is_none()));
    let mut numbers = String::new(alloc);
    for extension in &found {
        write!(numbers, "{} ", extension.number).expect(rt, "memory for a number");
    }
    numbers
}

#[test]
fn extensions_are_listed_for_each_kind_of_type(rt: HostRuntime) {
    let alloc = rt.alloc();
    let schema = schema_of(&rt, alloc, EXTENDED);
    for (written, expected) in EXTENSIONS {
        let found = numbers_of(&rt, alloc, type_named(&rt, alloc, &schema.0, written));
        is_text(&rt, found.as_str(), expected);
    }
}

#[test]
fn types_are_retained_by_the_scalars_that_are_used(rt: HostRuntime) {
    let alloc = rt.alloc();
    let mut schema = schema_of(&rt, alloc, "without ID type Query { f: Int }");
    let mut used = BuiltInScalars::new();
    assert!(rt; used.record_type_ref(&schema.0, &name(&rt, alloc, "ID")));
    drop(retain_used_built_in_scalars(&mut schema.0.types, &used).expect(&rt, "memory for types"));
    let mut names = String::new(alloc);
    for key in schema.0.types.keys() {
        write!(names, "{key} ").expect(&rt, "memory for a name");
    }
    is_text(&rt, names.as_str(), "Query ID ");
}
