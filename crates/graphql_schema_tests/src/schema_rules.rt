use super::fixtures::{is_text, name, query_of_itself, reports, schema_of, text};
use graphql_diagnostics::{Details, DiagnosticData, DiagnosticList};
use graphql_documents::documents::{
    ExtendedType, FieldDefinition, InputValueDefinition, ObjectType, Schema,
};
use graphql_field_definitions::built_in_scalars::BuiltInScalars;
use graphql_field_definitions::fields::{validate_field_definition, validate_field_definitions};
use graphql_field_definitions::input_values::{
    validate_argument_definitions, validate_input_value_definitions,
};
use graphql_field_definitions::names::validate_type_system_name;
use graphql_implementations::{
    validate_implementation_field_arguments, validate_implementation_field_types,
    validate_implements_interfaces,
};
use graphql_nodes::{DirectiveLocation, FileId, Name, Node, SourceSpan, ValidationError};
use graphql_schemas::directive_definitions::{
    validate_directive_definition, validate_directive_definitions,
};
use graphql_schemas::enums::{validate_enum_definition, validate_enum_value};
use graphql_schemas::extensions::extensions;
use graphql_schemas::input_objects::validate_input_object_definition;
use graphql_schemas::interfaces::validate_interface_definition;
use graphql_schemas::objects::validate_object_type_definition;
use graphql_schemas::scalars::validate_scalar_definition;
use graphql_schemas::schema_definition::{
    validate_root_operation_definitions, validate_schema_definition,
};
use graphql_schemas::unions::validate_union_definition;
use std::alloc::Global;
use std::fmt::Write;
use std::process::Abort;

/// A schema each of whose parts breaks its rules.
const BROKEN: &str = "
    schema @deprecated { mutation: E subscription: E }
    directive @__d(__a: Y, b: Int @__d, b: Int) on ARGUMENT_DEFINITION
    scalar Date @deprecated
    builtin scalar Known @deprecated
    interface Wide { w: Int }
    interface P implements Wide { w: Int m: Int n(z: Int): Int a(x: Int): Int }
    interface Own implements Own @deprecated
    type T implements P & X @deprecated {
        n: String
        a(x: Int!, y: Int!): Int
        __b(c: Y, c: Int @deprecated): I @skip(if: true)
    }
    type Empty
    union U @deprecated
    union V = X | Date
    enum E @deprecated { __A @skip(if: true) B }
    enum NoValues
    input I @deprecated { i: I! __x: Int q: T }
    input NoFields";

/// Types of that schema, and what the call of its kind reports of each.
const TYPES: &[(&str, &str)] = &[
    (
        "Date",
        "- deprecated directive is not supported for SCALAR location\n",
    ),
    ("Known", ""),
    ("P", ""),
    (
        "Own",
        "- deprecated directive is not supported for INTERFACE location\n\
            - interface Own cannot implement itself\n\
            - `Own` has no fields\n",
    ),
    (
        "T",
        "- deprecated directive is not supported for OBJECT location\n\
            - a field cannot be named `__b` as names starting with two underscores are reserved\n\
            - skip directive is not supported for FIELD_DEFINITION location\n\
            - cannot find type `Y` in this document\n\
            - deprecated directive is not supported for ARGUMENT_DEFINITION location\n\
            - the value `c` is defined multiple times\n\
            - `__b` field must return an output type\n\
            - cannot find type `X` in this document\n\
            - interface `T` declares that it implements `P`, but to do so it must also implement `Wide`\n\
            - type `T` does not satisfy interface `P`: missing field `w`\n\
            - type `T` does not satisfy interface `P`: missing field `m`\n\
            - interface field `P.n` expects type `Int` but `T.n` of type `String` is not a proper subtype\n\
            - interface field `P.n` expects argument `z` but `T.n` does not provide it\n\
            - interface field `P.a` expects argument `x` of type `Int` but `T.a` provides type `Int!`\n\
            - `T.a` has extra required argument `y` not present in interface `P.a`\n",
    ),
    ("Empty", "- `Empty` has no fields\n"),
    (
        "U",
        "- deprecated directive is not supported for UNION location\n\
            - `U` has no member types\n",
    ),
    (
        "V",
        "- cannot find type `X` in this document\n\
            - union member `Date` must be an object type\n",
    ),
    (
        "E",
        "- deprecated directive is not supported for ENUM location\n\
            - an enum value cannot be named `__A` as names starting with two underscores are reserved\n\
            - skip directive is not supported for ENUM_VALUE location\n",
    ),
    ("NoValues", "- `NoValues` has no enum values\n"),
    (
        "I",
        "- deprecated directive is not supported for INPUT_OBJECT location\n\
            - `I` input object cannot reference itself\n\
            - an input object field cannot be named `__x` as names starting with two underscores are reserved\n\
            - `q` field must be of an input type\n",
    ),
    ("NoFields", "- `NoFields` has no input values\n"),
];

/// Validates the type by the call of its kind.
fn validate_type(
    found: &mut DiagnosticList,
    schema: &Schema,
    definition: &ExtendedType,
) -> Result<(), ValidationError> {
    let used = &mut BuiltInScalars::new();
    match definition {
        ExtendedType::Scalar(scalar) => validate_scalar_definition(found, schema, scalar),
        ExtendedType::Object(object) => {
            validate_object_type_definition(found, schema, used, object)
        }
        ExtendedType::Interface(interface) => {
            validate_interface_definition(found, schema, used, interface)
        }
        ExtendedType::Union(members) => validate_union_definition(found, schema, members),
        ExtendedType::Enum(values) => validate_enum_definition(found, schema, values),
        ExtendedType::InputObject(input) => {
            validate_input_object_definition(found, schema, used, input)
        }
    }
}

/// The type of this name.
fn type_named<'a>(
    rt: &impl Abort,
    alloc: Global,
    schema: &'a Schema,
    written: &str,
) -> &'a ExtendedType {
    let found = schema.types.get(&name(rt, alloc, written));
    found.expect(rt, "a type")
}

/// What is reported of the type.
fn of_type(rt: &impl Abort, alloc: Global, schema: &Schema, written: &str) -> DiagnosticList {
    let definition = type_named(rt, alloc, schema, written);
    let mut found = DiagnosticList::new(alloc);
    validate_type(&mut found, schema, definition).expect(rt, "memory for reports");
    found
}

#[test]
fn types_are_checked_by_their_kinds(rt: HostRuntime) {
    let alloc = rt.alloc();
    let schema = schema_of(&rt, alloc, BROKEN);
    for (written, expected) in TYPES {
        let found = of_type(&rt, alloc, &schema.0, written);
        reports(&rt, alloc, &found, expected);
    }
}

/// The object `T`.
fn object<'a>(rt: &impl Abort, alloc: Global, schema: &'a Schema) -> &'a Node<ObjectType> {
    match type_named(rt, alloc, schema, "T") {
        ExtendedType::Object(object) => object,
        _ => panic!(rt; "an object was expected"),
    }
}

/// The last field of the object.
fn last_field<'a>(rt: &impl Abort, object: &'a Node<ObjectType>) -> &'a Node<FieldDefinition> {
    let (_, field) = object.value.fields.last().expect(rt, "a field");
    &field.node
}

/// The lines of both calls on fields, the first of which leaves their types out.
const FIELDS: &str =
    "- a field cannot be named `__b` as names starting with two underscores are reserved\n\
    - skip directive is not supported for FIELD_DEFINITION location\n\
    - cannot find type `Y` in this document\n\
    - deprecated directive is not supported for ARGUMENT_DEFINITION location\n\
    - the value `c` is defined multiple times\n\
    - a field cannot be named `__b` as names starting with two underscores are reserved\n\
    - skip directive is not supported for FIELD_DEFINITION location\n\
    - cannot find type `Y` in this document\n\
    - deprecated directive is not supported for ARGUMENT_DEFINITION location\n\
    - the value `c` is defined multiple times\n\
    - `__b` field must return an output type\n";

#[test]
fn fields_are_checked(rt: HostRuntime) {
    let alloc = rt.alloc();
    let built = schema_of(&rt, alloc, BROKEN);
    let schema = &built.0;
    let object = object(&rt, alloc, schema);
    let last = last_field(&rt, object);
    let used = &mut BuiltInScalars::new();
    let mut found = DiagnosticList::new(alloc);
    let one = validate_field_definition(&mut found, schema, used, last);
    one.expect(&rt, "memory for reports");
    let all = validate_field_definitions(&mut found, schema, used, &object.value.fields);
    all.expect(&rt, "memory for reports");
    reports(&rt, alloc, &found, FIELDS);
}

/// The arguments of a field, each as a reference.
fn arguments_of<'a>(
    rt: &impl Abort,
    alloc: Global,
    field: &'a Node<FieldDefinition>,
) -> Vec<&'a Node<InputValueDefinition>> {
    let mut arguments = Vec::new(alloc);
    for argument in &field.value.arguments {
        let pushed = arguments.push(argument);
        pushed.expect(rt, "memory for a reference");
    }
    arguments
}

/// The lines of both calls on arguments, the first of which leaves repetitions out.
const ARGUMENTS: &str = "- cannot find type `Y` in this document\n\
    - deprecated directive is not supported for ARGUMENT_DEFINITION location\n\
    - cannot find type `Y` in this document\n\
    - deprecated directive is not supported for ARGUMENT_DEFINITION location\n\
    - the value `c` is defined multiple times\n";

#[test]
fn definitions_of_arguments_are_checked(rt: HostRuntime) {
    let alloc = rt.alloc();
    let built = schema_of(&rt, alloc, BROKEN);
    let schema = &built.0;
    let field = last_field(&rt, object(&rt, alloc, schema));
    let given = arguments_of(&rt, alloc, field);
    let (place, kind) = (DirectiveLocation::ArgumentDefinition, "an argument");
    let used = &mut BuiltInScalars::new();
    let mut found = DiagnosticList::new(alloc);
    let each = validate_input_value_definitions(&mut found, schema, used, &given, place, kind);
    each.expect(&rt, "memory for reports");
    let all = validate_argument_definitions(&mut found, schema, used, &given, place);
    all.expect(&rt, "memory for reports");
    reports(&rt, alloc, &found, ARGUMENTS);
}

/// Where the type is said to be.
const PLACE: SourceSpan = SourceSpan {
    file_id: FileId(1),
    start: 2,
    end: 5,
};

/// The lines of the three calls on interfaces, one behind another.
const IMPLEMENTATIONS: &str = "- cannot find type `X` in this document\n\
    + interface `T` declares that it implements `P`, but to do so it must also implement `Wide`\n\
    - interface field `P.n` expects type `Int` but `T.n` of type `String` is not a proper subtype\n\
    - interface field `P.n` expects argument `z` but `T.n` does not provide it\n\
    - interface field `P.a` expects argument `x` of type `Int` but `T.a` provides type `Int!`\n\
    - `T.a` has extra required argument `y` not present in interface `P.a`\n";

#[test]
fn implementations_are_checked(rt: HostRuntime) {
    let alloc = rt.alloc();
    let built = schema_of(&rt, alloc, BROKEN);
    let schema = &built.0;
    let definition = &object(&rt, alloc, schema).value;
    let (own, fields) = (&definition.name, &definition.fields);
    let listed = &definition.implements_interfaces;
    let mut found = DiagnosticList::new(alloc);
    let names = validate_implements_interfaces(&mut found, schema, own, Some(PLACE), listed);
    names.expect(&rt, "memory for reports");
    let types = validate_implementation_field_types(&mut found, schema, own, fields, listed);
    types.expect(&rt, "memory for reports");
    let rest = validate_implementation_field_arguments(&mut found, schema, own, fields, listed);
    rest.expect(&rt, "memory for reports");
    reports(&rt, alloc, &found, IMPLEMENTATIONS);
}

/// The lines of both calls on directive definitions, of which only `@__d` breaks rules.
const DIRECTIVES: &str =
    "- a directive definition cannot be named `__d` as names starting with two underscores are reserved\n\
    - an argument cannot be named `__a` as names starting with two underscores are reserved\n\
    - cannot find type `Y` in this document\n\
    - the value `b` is defined multiple times\n\
    - `__d` directive definition cannot reference itself\n\
    - a directive definition cannot be named `__d` as names starting with two underscores are reserved\n\
    - an argument cannot be named `__a` as names starting with two underscores are reserved\n\
    - cannot find type `Y` in this document\n\
    - the value `b` is defined multiple times\n\
    - `__d` directive definition cannot reference itself\n";

#[test]
fn directive_definitions_are_checked(rt: HostRuntime) {
    let alloc = rt.alloc();
    let built = schema_of(&rt, alloc, BROKEN);
    let schema = &built.0;
    let last = schema.directive_definitions.last();
    let (_, last) = last.expect(&rt, "a directive");
    let used = &mut BuiltInScalars::new();
    let mut found = DiagnosticList::new(alloc);
    let one = validate_directive_definition(&mut found, schema, used, last);
    one.expect(&rt, "memory for reports");
    let all = validate_directive_definitions(&mut found, schema, used);
    all.expect(&rt, "memory for reports");
    reports(&rt, alloc, &found, DIRECTIVES);
}

/// The lines of both calls on what the schema says of itself, the first of which takes its roots alone.
const SCHEMA_DEFINITION: &str = "- `E` field must return an object type\n\
    - `E` field must return an object type\n\
    - the same type `E` must not be used for multiple root operation types\n\
    - missing query root operation type in schema definition\n\
    - `E` field must return an object type\n\
    - `E` field must return an object type\n\
    - the same type `E` must not be used for multiple root operation types\n\
    - deprecated directive is not supported for SCHEMA location\n";

#[test]
fn schema_definitions_are_checked(rt: HostRuntime) {
    let alloc = rt.alloc();
    let schema = schema_of(&rt, alloc, BROKEN);
    let mut found = DiagnosticList::new(alloc);
    let roots = validate_root_operation_definitions(&mut found, &schema.0);
    roots.expect(&rt, "memory for reports");
    let whole = validate_schema_definition(&mut found, &schema.0);
    whole.expect(&rt, "memory for reports");
    reports(&rt, alloc, &found, SCHEMA_DEFINITION);
}

#[test]
fn values_of_enums_are_checked(rt: HostRuntime) {
    let alloc = rt.alloc();
    let schema = schema_of(&rt, alloc, "enum E { __A @skip(if: true) }");
    let ExtendedType::Enum(definition) = type_named(&rt, alloc, &schema.0, "E") else {
        panic!(rt; "an enum was expected");
    };
    let (_, value) = definition.value.values.first().expect(&rt, "a value");
    let mut found = DiagnosticList::new(alloc);
    let one = validate_enum_value(&mut found, &schema.0, &value.node);
    one.expect(&rt, "memory for reports");
    reports(
        &rt,
        alloc,
        &found,
        "- an enum value cannot be named `__A` as names starting with two underscores are reserved\n\
            - skip directive is not supported for ENUM_VALUE location\n",
    );
}

/// What is reported of `__a` as the name of a field that is there.
fn of_name(rt: &impl Abort, alloc: Global, place: SourceSpan) -> DiagnosticList {
    let name = Name::new(text(rt, alloc, "__a"), Some(place)).expect(rt, "a name");
    let mut found = DiagnosticList::new(alloc);
    validate_type_system_name(&mut found, &name, "a field").expect(rt, "memory for a report");
    found
}

/// Where what is built in is.
const BUILT_IN: SourceSpan = SourceSpan {
    file_id: FileId::BUILT_IN,
    start: 0,
    end: 0,
};

const RESERVED: &str =
    "+ a field cannot be named `__a` as names starting with two underscores are reserved\n";

#[test]
fn reserved_names_stand_for_what_is_built_in(rt: HostRuntime) {
    let alloc = rt.alloc();
    for (place, expected) in [(PLACE, RESERVED), (BUILT_IN, "")] {
        reports(&rt, alloc, &of_name(&rt, alloc, place), expected);
    }
}

/// Names in order, whether each is a built-in scalar's, and whether all of these were visited then.
const RECORDED: &[(&str, bool, bool)] = &[
    ("Int", true, false),
    ("ID", true, false),
    ("Query", false, false),
    ("String", true, false),
    ("Int", true, false),
    ("Float", true, false),
    ("Boolean", true, true),
];

#[test]
fn built_in_scalars_are_recorded(rt: HostRuntime) {
    let schema = query_of_itself(&rt, rt.alloc());
    let mut used = BuiltInScalars::new();
    assert!(rt; !used.all_used());
    for (written, is_built_in, are_all) in RECORDED {
        let name = name(&rt, rt.alloc(), written);
        assert_eq!(rt;
            used.record_type_ref(&schema.0, &name),
            *is_built_in,
            "{written}"
        );
        assert_eq!(rt; used.all_used(), *are_all, "{written}");
    }
}

/// Three extensions: of the fields, of the directives, and of the interfaces.
const EXTENDED: &str = "interface P type T { a: Int } extend type T { b: Int }
    extend type T @deprecated extend type T implements P { c: Int }";

#[test]
fn extensions_come_by_directives_interfaces_and_fields(rt: HostRuntime) {
    let alloc = rt.alloc();
    let schema = schema_of(&rt, alloc, EXTENDED);
    let found = extensions(alloc, type_named(&rt, alloc, &schema.0, "T"));
    let mut numbers = String::new(alloc);
    for extension in &found.expect(&rt, "memory for extensions") {
        write!(numbers, "{} ", extension.number).expect(&rt, "memory for a number");
    }
    is_text(&rt, numbers.as_str(), "2 3 1 ");
}

/// `A` leads back to itself through `B` and `C`, and `D` only leads to them.
const CYCLE: &str = "input A { n: Int b: B! } input B { l: [D!]! c: C! } input C { d: D! a: A! }
    input D { b: B! }";

/// The name of the field at a place of a trace.
fn field_at<'a>(rt: &impl Abort, trace: &'a [Node<InputValueDefinition>], place: usize) -> &'a str {
    trace.get(place).expect(rt, "a field").value.name.as_str()
}

#[test]
fn the_trace_of_an_input_object_goes_back_to_its_own_field(rt: HostRuntime) {
    let alloc = rt.alloc();
    let schema = schema_of(&rt, alloc, CYCLE);
    let found = of_type(&rt, alloc, &schema.0, "A");
    let report = found.iter().next().expect(&rt, "a report");
    match &report.details {
        Details::Diagnostic(DiagnosticData::RecursiveInputObjectDefinition { trace, .. }) => {
            assert_eq!(rt; trace.len(), 3);
            assert_eq!(rt; field_at(&rt, trace, 0), "a");
            assert_eq!(rt; field_at(&rt, trace, 1), "c");
            assert_eq!(rt; field_at(&rt, trace, 2), "b");
        }
        _ => panic!(rt; "another report"),
    }
}
