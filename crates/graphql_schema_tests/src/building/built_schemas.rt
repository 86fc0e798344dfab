ghost use Rattle.std.specs.Prelude.{IsTrue};
ghost use Rattle.graphql_schema_checking.specs.SchemaBuilds.{SchemaBuilds};

use super::texts::tree;
use graphql_building_reports::BuildingReportList;
use graphql_documents::documents::{ComponentName, ComponentOrigin, ExtendedType, Schema};
use graphql_hash_seeds::HashSeed;
use graphql_nodes::Name;
use graphql_schema_building::{BUILT_IN_DEFINITIONS, build_schema};
use graphql_schema_checking::check_schema;
use graphql_trees::Document;
use std::alloc::Global;
use std::process::Abort;

/// The text of a schema with extensions before and behind the definition, two default roots, and directives of
/// which one has the name of a built-in one. Seventeen definitions that every schema has come before it.
const TEXT: &str = "extend type Query { c: Int }
type Query { a: Int b: Int }
extend type Query { d: Int }
type Mutation { a: Int }
input Subscription { a: Int }
directive @own on FIELD
directive @deprecated(why: String) on FIELD_DEFINITION";

fn builds(alloc: Global, trees: &[Document]) -> bool
    ensures { IsTrue result → SchemaBuilds trees.now }
{
    let mut reports = BuildingReportList::new(alloc);
    match check_schema(&mut reports, trees) {
        Ok(()) => reports.is_empty(),
        Err(_) => false,
    }
}

/// The schema that the text says, behind the definitions that every schema has.
pub(crate) fn built(rt: &impl Abort, alloc: Global, text: &str) -> Schema {
    let trees = [
        tree(rt, alloc, 0, BUILT_IN_DEFINITIONS),
        tree(rt, alloc, 1, text),
    ];
    if !builds(alloc, &trees) {
        panic!(rt; "no schema")
    }
    build_schema(alloc, HashSeed::default(), &trees).expect(rt, "memory for the schema")
}

fn name(rt: &impl Abort, alloc: Global, text: &str) -> Name {
    let text = String::from_str(alloc, text).expect(rt, "memory for a name");
    Name::new(text, None).expect(rt, "a name")
}

/// The fields of an object type, each on a line: its name, and the number and the place of its extension.
fn fields(rt: &impl Abort, alloc: Global, schema: &Schema, type_name: &str) -> String {
    let Some(ExtendedType::Object(definition)) = schema.types.get(&name(rt, alloc, type_name))
    else {
        panic!(rt; "no object type")
    };
    let mut text = String::new(alloc);
    for (field, component) in definition.value.fields.iter() {
        text.push_str(field.as_str())
            .expect(rt, "memory for a line");
        if let ComponentOrigin::Extension(extension) = component.origin {
            let start = extension
                .location
                .map(|span| span.start)
                .expect(rt, "a place");
            let origin = format!(in alloc; " {} at {start}", extension.number);
            text.push_str(origin.expect(rt, "memory for a line").as_str())
                .expect(rt, "memory for a line");
        }
        text.push_str("\n").expect(rt, "memory for a line");
    }
    text
}

fn root(named: &Option<ComponentName>) -> &str {
    match named {
        Some(root) => root.name.as_str(),
        None => "-",
    }
}

#[test]
fn fields_of_extensions_come_last_with_their_numbers(rt: HostRuntime) {
    let alloc = rt.alloc();
    let schema = built(&rt, alloc, TEXT);
    let found = fields(&rt, alloc, &schema, "Query");
    assert_eq!(rt; found.as_str(), "a\nb\nc 17 at 0\nd 19 at 58\n");
}

#[test]
fn types_of_the_default_names_are_roots(rt: HostRuntime) {
    let schema = built(&rt, rt.alloc(), TEXT);
    let definition = &schema.schema_definition.value;
    assert_eq!(rt; root(&definition.query), "Query");
    assert_eq!(rt; root(&definition.mutation), "Mutation");
    assert_eq!(rt; root(&definition.subscription), "Subscription");
}

#[test]
fn a_directive_of_the_text_takes_the_place_of_the_built_in_one(rt: HostRuntime) {
    let alloc = rt.alloc();
    let schema = built(&rt, alloc, TEXT);
    let mut names = String::new(alloc);
    for (name, _) in schema.directive_definitions.iter() {
        names
            .push_str(name.as_str())
            .expect(&rt, "memory for names");
        names.push_str(" ").expect(&rt, "memory for names");
    }
    assert_eq!(rt; names.as_str(), "skip include deprecated specifiedBy own ");
    let deprecated = schema
        .directive_definitions
        .get(&name(&rt, alloc, "deprecated"));
    let deprecated = deprecated.expect(&rt, "a directive");
    let argument = deprecated
        .value
        .arguments
        .first()
        .expect(&rt, "an argument");
    assert_eq!(rt; argument.value.name.as_str(), "why");
}
