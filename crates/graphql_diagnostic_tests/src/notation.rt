use super::fixtures::{name, query_of_itself, schema_of};
use graphql_documents::documents::{
    ComponentOrigin, DirectiveDefinition, ExtendedType, ObjectType, Schema,
};
use graphql_nodes::{DirectiveLocation, FileId};
use graphql_notation::ExampleError;
use graphql_notation::build::{document, schema};
use std::alloc::Global;
use std::process::Abort;

/// The object type of this name.
fn object<'a>(rt: &impl Abort, alloc: Global, schema: &'a Schema, text: &str) -> &'a ObjectType {
    match schema.types.get(&name(rt, alloc, text)) {
        Some(ExtendedType::Object(object)) => &object.value,
        _ => panic!(rt; "{text} is no object type"),
    }
}

fn is_extension(origin: ComponentOrigin) -> bool {
    matches!(origin, ComponentOrigin::Extension(_))
}

#[test]
fn extensions_add_parts_of_their_own_origin(rt: HostRuntime) {
    let alloc = rt.alloc();
    let written = "schema { query: Q } extend schema { mutation: M }
        type Q { a: Int } extend type Q { b: Float } type M { a: Int }";
    let schema = schema_of(&rt, alloc, written).0;
    let fields = &object(&rt, alloc, &schema, "Q").fields;
    let origins = fields.values().map(|field| is_extension(field.origin));
    assert!(rt; origins.eq([false, true]));
    let roots = &schema.schema_definition.value;
    let mutation = roots.mutation.as_ref().expect(&rt, "a root");
    assert!(rt; is_extension(mutation.origin));
    assert!(rt; roots.query.is_some() && roots.subscription.is_none());
}

/// The definition of the directive of this name.
fn directive<'a>(
    rt: &impl Abort,
    alloc: Global,
    schema: &'a Schema,
    text: &str,
) -> &'a DirectiveDefinition {
    let found = schema.directive_definitions.get(&name(rt, alloc, text));
    &found.expect(rt, "a definition").value
}

#[test]
fn directives_are_defined_with_their_locations(rt: HostRuntime) {
    let alloc = rt.alloc();
    let written = "directive @d(a: Int = 1) repeatable on SCHEMA | FIELD";
    let schema = schema_of(&rt, alloc, written).0;
    let definition = directive(&rt, alloc, &schema, "d");
    assert!(rt; definition.repeatable && definition.arguments.len() == 1);
    let locations = [DirectiveLocation::Schema, DirectiveLocation::Field];
    assert_eq!(rt; definition.locations.as_slice(), locations.as_slice());
}

/// The type under this key, if there is one.
fn type_under<'a>(
    rt: &impl Abort,
    alloc: Global,
    schema: &'a Schema,
    key: &str,
) -> Option<&'a ExtendedType> {
    schema.types.get(&name(rt, alloc, key))
}

#[test]
fn definitions_stand_under_chosen_keys(rt: HostRuntime) {
    let alloc = rt.alloc();
    let written = "without ID key X type Query { f: Int } key Float builtin type F { a: Int }";
    let schema = schema_of(&rt, alloc, written).0;
    assert!(rt; type_under(&rt, alloc, &schema, "ID").is_none());
    assert_eq!(rt; object(&rt, alloc, &schema, "X").name.as_str(), "Query");
    let float = type_under(&rt, alloc, &schema, "Float");
    let place = float.expect(&rt, "a type").location();
    assert!(rt; place.is_some_and(|place| place.file_id == FileId::BUILT_IN));
    assert_eq!(rt; schema.types.len(), 5);
}

/// Why the text is no schema, if it is none.
fn fault_of_schema(alloc: Global, written: &str) -> Option<ExampleError> {
    schema(alloc, written).err()
}

const FAULTS_OF_SCHEMAS: &[(&str, ExampleError)] = &[
    ("type Query { f: Int f: Int }", ExampleError::RepeatedName),
    ("scalar Int", ExampleError::RepeatedName),
    ("type Query { f: [Int }", ExampleError::NotInNotation),
    ("type Query { : Int }", ExampleError::NotAName),
    ("type Query { f Int }", ExampleError::NotInNotation),
    ("scalar A extend scalar B @d", ExampleError::NotInNotation),
    ("directive @d on NOWHERE", ExampleError::NotALocation),
    ("<1-2 scalar A%>", ExampleError::NotARepetition),
];

#[test]
fn faults_of_schemas_are_told_apart(rt: HostRuntime) {
    for (written, fault) in FAULTS_OF_SCHEMAS {
        assert_eq!(rt;
            fault_of_schema(rt.alloc(), written),
            Some(*fault),
            "{written}"
        );
    }
}

/// Why the text is no document over a query of itself, if it is none.
fn fault_of_document(alloc: Global, schema: &Schema, written: &str) -> Option<ExampleError> {
    document(alloc, schema, written).err()
}

const FAULTS_OF_DOCUMENTS: &[(&str, ExampleError)] = &[
    ("{ x }", ExampleError::NoSuchField),
    ("fragment F on X { x }", ExampleError::NoSuchType),
    ("mutation { x }", ExampleError::NoSuchRoot),
    ("{ a(x: 1e) }", ExampleError::NotANumber),
    ("<1-520:{ q >{ a }<1-520: }>", ExampleError::TooDeep),
];

#[test]
fn faults_of_documents_are_told_apart(rt: HostRuntime) {
    let alloc = rt.alloc();
    let schema = query_of_itself(&rt, alloc).0;
    for (written, fault) in FAULTS_OF_DOCUMENTS {
        assert_eq!(rt;
            fault_of_document(alloc, &schema, written),
            Some(*fault),
            "{written}"
        );
    }
}
