use super::definitions::directive;
use super::parts::{add_named, both};
use super::reader::{LONGEST, Place, Reader};
use super::repetitions::written_out;
use super::types::{schema_definition, type_definition};
use crate::errors::ExampleError;
use graphql_documents::documents::{
    ComponentName, ComponentOrigin, DirectiveDefinition, ExtendedType, MetaFields, Schema,
    SchemaDefinition, Valid,
};
use graphql_hash_seeds::HashSeed;
use graphql_nodes::{FileId, Name, Node, SourceSpan};
use indexmap::IndexMap;
use std::alloc::Global;

/// Where the definitions are that every schema has.
const BUILT_IN: Place = Place::At(SourceSpan {
    file_id: FileId::BUILT_IN,
    start: 0,
    end: 0,
});

/// What every schema has.
const BASE: &str = "
    scalar Int scalar Float scalar String scalar Boolean scalar ID
    directive @skip(if: Boolean!) on FIELD | FRAGMENT_SPREAD | INLINE_FRAGMENT
    directive @include(if: Boolean!) on FIELD | FRAGMENT_SPREAD | INLINE_FRAGMENT
    directive @deprecated(reason: String = \"No longer supported\") on FIELD_DEFINITION | ENUM_VALUE
    directive @specifiedBy(url: String!) on SCALAR";

/// The schema of the built-in definitions, and then those of this text. Where the text names no root,
/// the roots are the types that are called `Query`, `Mutation` and `Subscription`.
pub fn schema(alloc: Global, text: &str) -> Result<Valid<Schema>, ExampleError> {
    let written = written_out(alloc, text)?;
    whole_schema(Reader::new(alloc, written.as_str(), Place::Nowhere))
}

/// The schema of the built-in definitions, and then those of this text, which is this file. Repetitions
/// in the text are not written out. If the text names no root, the roots are the types that are called
/// `Query`, `Mutation` and `Subscription`.
pub fn schema_in_file(
    alloc: Global,
    text: &str,
    file_id: FileId,
) -> Result<Valid<Schema>, ExampleError> {
    whole_schema(Reader::new(alloc, text, Place::In(file_id)))
}

fn whole_schema(reader: Reader<'_>) -> Result<Valid<Schema>, ExampleError> {
    let mut schema = empty_schema(reader.alloc)?;
    read_schema(reader, &mut schema).and(Ok(Valid(schema)))
}

fn empty_schema(alloc: Global) -> Result<Schema, ExampleError> {
    let no_types = IndexMap::with_hasher(alloc, HashSeed::default());
    let (schema_definition, meta_fields) = both(named_roots(alloc, &no_types), meta_fields(alloc))?;
    Ok(Schema {
        schema_definition,
        directive_definitions: IndexMap::with_hasher(alloc, HashSeed::default()),
        types: no_types,
        meta_fields,
    })
}

fn meta_fields(alloc: Global) -> Result<MetaFields, ExampleError> {
    Ok(MetaFields::new(alloc)?)
}

fn read_schema(reader: Reader<'_>, schema: &mut Schema) -> Result<(), ExampleError> {
    add_definitions(Reader::new(reader.alloc, BASE, BUILT_IN), schema)?;
    add_definitions(reader, schema)?;
    add_named_roots(reader.alloc, schema)
}

/// Reads all definitions of a text.
fn add_definitions(reader: Reader<'_>, schema: &mut Schema) -> Result<(), ExampleError> {
    let mut reader = reader;
    let place = reader.place;
    for _ in 0..LONGEST {
        if reader.is_at_end() {
            return Ok(());
        }
        reader.place = place;
        add_definition(&mut reader, schema)?;
    }
    Err(ExampleError::TooLong)
}

fn add_definition(reader: &mut Reader<'_>, schema: &mut Schema) -> Result<(), ExampleError> {
    if reader.takes_word("without") {
        let name = reader.name()?;
        schema.types.shift_remove(&name);
        return Ok(());
    }
    let key = reader.key();
    if reader.takes_word("builtin") {
        reader.place = BUILT_IN;
    }
    let start = reader.start();
    match reader.word() {
        "schema" => {
            schema.schema_definition = schema_definition(reader, start)?;
            Ok(())
        }
        "directive" => add_directive(reader, &mut schema.directive_definitions, key, start),
        keyword => add_type(reader, &mut schema.types, keyword, key, start),
    }
}

fn add_directive(
    reader: &mut Reader<'_>,
    directives: &mut IndexMap<Name, Node<DirectiveDefinition>, HashSeed>,
    key: Option<Reader<'_>>,
    start: usize,
) -> Result<(), ExampleError> {
    reader.expect("@")?;
    let own = *reader;
    let definition = directive(reader)?;
    let definition = reader.node(definition, start)?;
    add_named(directives, key, own, definition)
}

fn add_type(
    reader: &mut Reader<'_>,
    types: &mut IndexMap<Name, ExtendedType, HashSeed>,
    keyword: &str,
    key: Option<Reader<'_>>,
    start: usize,
) -> Result<(), ExampleError> {
    let own = *reader;
    let definition = type_definition(reader, keyword, start)?;
    add_named(types, key, own, definition)
}

/// The schema has the roots that its text names, or else those that types have by their names.
fn add_named_roots(alloc: Global, schema: &mut Schema) -> Result<(), ExampleError> {
    let roots = &schema.schema_definition.value;
    if roots.query.is_none() && roots.mutation.is_none() && roots.subscription.is_none() {
        schema.schema_definition = named_roots(alloc, &schema.types)?;
    }
    Ok(())
}

fn named_roots(
    alloc: Global,
    types: &IndexMap<Name, ExtendedType, HashSeed>,
) -> Result<Node<SchemaDefinition>, ExampleError> {
    let query = named_root(alloc, types, "Query");
    let mutation = named_root(alloc, types, "Mutation");
    let subscription = named_root(alloc, types, "Subscription");
    let (query, (mutation, subscription)) = both(query, both(mutation, subscription))?;
    let definition = SchemaDefinition {
        directives: Vec::new(alloc),
        query,
        mutation,
        subscription,
    };
    Ok(Node::new(alloc, definition)?)
}

fn named_root(
    alloc: Global,
    types: &IndexMap<Name, ExtendedType, HashSeed>,
    text: &str,
) -> Result<Option<ComponentName>, ExampleError> {
    let name = Reader::new(alloc, text, Place::Nowhere).name()?;
    if types.contains_key(&name) {
        let origin = ComponentOrigin::Definition;
        Ok(Some(ComponentName { origin, name }))
    } else {
        Ok(None)
    }
}
