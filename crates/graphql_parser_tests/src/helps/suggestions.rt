use graphql_documents::documents::Schema;
use graphql_nodes::Name;
use graphql_notation::build::schema;
use graphql_suggestions::{
    Suggestion, like_argument, like_directive, like_directive_argument, like_enum_value,
    like_field, like_input_field, like_type,
};
use std::alloc::Global;
use std::process::Abort;

const SCHEMA: &str =
    "type Query { name: String names: String age: Int user(first: Int, last: Int): Query }
    enum Role { ADMIN MEMBER } input Filter { text: String limit: Int } directive @cached(seconds: Int) on FIELD";

fn name(rt: &impl Abort, alloc: Global, written: &str) -> Name {
    let text = String::from_str(alloc, written).expect(rt, "memory for a text");
    Name::new(text, None).expect(rt, "a name")
}

/// The suggested names, each ended by a space.
fn shown(rt: &impl Abort, alloc: Global, found: &[Suggestion]) -> String {
    let mut text = String::new(alloc);
    for suggestion in found {
        text.push_str(suggestion.name.as_str())
            .expect(rt, "memory for a name");
        text.push_str(" ").expect(rt, "memory for a name");
    }
    text
}

/// The names that each call suggests for a name of its own kind, in one line.
fn suggested(rt: &impl Abort, alloc: Global, schema: &Schema) -> String {
    let query = name(rt, alloc, "Query");
    let lists = [
        like_field(alloc, schema, &query, &name(rt, alloc, "nam")),
        like_type(alloc, schema, &name(rt, alloc, "Filtr")),
        like_directive(alloc, schema, &name(rt, alloc, "cache")),
        like_enum_value(
            alloc,
            schema,
            &name(rt, alloc, "Role"),
            &name(rt, alloc, "ADMN"),
        ),
        like_input_field(
            alloc,
            schema,
            &name(rt, alloc, "Filter"),
            &name(rt, alloc, "txt"),
        ),
        like_argument(
            alloc,
            schema,
            &query,
            &name(rt, alloc, "user"),
            &name(rt, alloc, "frist"),
        ),
        like_directive_argument(
            alloc,
            schema,
            &name(rt, alloc, "cached"),
            &name(rt, alloc, "second"),
        ),
    ];
    let mut text = String::new(alloc);
    for found in lists {
        let found = found.expect(rt, "memory for suggestions");
        text.push_str(shown(rt, alloc, &found).as_str())
            .expect(rt, "memory for names");
    }
    text
}

/// The most alike comes first: `name` is one edit away from `nam`, and `names` two; `first` two from `frist`, and `last` three.
#[test]
fn names_that_are_like_the_wanted_one_are_suggested(rt: HostRuntime) {
    let alloc = rt.alloc();
    let schema = schema(alloc, SCHEMA).expect(&rt, "a schema");
    let text = suggested(&rt, alloc, &schema.0);
    assert_eq!(rt;
        text.as_str(),
        "name names Filter cached ADMIN text first last seconds "
    );
}

/// Nothing is suggested for a name that is like none, nor on a type that is not defined.
#[test]
fn no_other_name_is_suggested(rt: HostRuntime) {
    let alloc = rt.alloc();
    let schema = schema(alloc, SCHEMA).expect(&rt, "a schema");
    let other = like_field(
        alloc,
        &schema.0,
        &name(&rt, alloc, "Query"),
        &name(&rt, alloc, "password"),
    );
    assert!(rt; other.expect(&rt, "memory for suggestions").is_empty());
    let nowhere = like_field(
        alloc,
        &schema.0,
        &name(&rt, alloc, "Nowhere"),
        &name(&rt, alloc, "nam"),
    );
    assert!(rt; nowhere.expect(&rt, "memory for suggestions").is_empty());
}
