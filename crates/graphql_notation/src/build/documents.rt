use super::applications::read_directives;
use super::parts::{add_named, add_new, both, listed};
use super::reader::{LONGEST, Place, Reader};
use super::repetitions::written_out;
use super::selections::selection_set;
use crate::errors::ExampleError;
use graphql_documents::documents::{
    ExecutableDocument, Fragment, Operation, OperationMap, Schema, SchemaDefinition,
};
use graphql_hash_seeds::HashSeed;
use graphql_nodes::{FileId, Name, Node, OperationType};
use indexmap::IndexMap;
use std::alloc::Global;

/// The document of this text, built against the schema.
pub fn document(
    alloc: Global,
    schema: &Schema,
    text: &str,
) -> Result<ExecutableDocument, ExampleError> {
    let written = written_out(alloc, text)?;
    read_document(Reader::new(alloc, written.as_str(), Place::Nowhere), schema)
}

/// The document of this text, which is this file, built against the schema. Repetitions in the text are not written out.
pub fn document_in_file(
    alloc: Global,
    schema: &Schema,
    text: &str,
    file_id: FileId,
) -> Result<ExecutableDocument, ExampleError> {
    read_document(Reader::new(alloc, text, Place::In(file_id)), schema)
}

fn read_document(reader: Reader<'_>, schema: &Schema) -> Result<ExecutableDocument, ExampleError> {
    let mut reader = reader;
    let hash_seed = HashSeed::default();
    let mut document = ExecutableDocument {
        operations: OperationMap {
            anonymous: None,
            named: IndexMap::with_hasher(reader.alloc, hash_seed),
        },
        fragments: IndexMap::with_hasher(reader.alloc, hash_seed),
    };
    add_definitions(&mut reader, schema, &mut document).and(Ok(document))
}

/// Reads all definitions that are left.
fn add_definitions(
    reader: &mut Reader<'_>,
    schema: &Schema,
    document: &mut ExecutableDocument,
) -> Result<(), ExampleError> {
    for _ in 0..LONGEST {
        if reader.is_at_end() {
            return Ok(());
        }
        add_definition(reader, schema, document)?;
    }
    Err(ExampleError::TooLong)
}

fn add_definition(
    reader: &mut Reader<'_>,
    schema: &Schema,
    document: &mut ExecutableDocument,
) -> Result<(), ExampleError> {
    match reader.next_word() {
        "key" | "fragment" => add_fragment(reader, schema, &mut document.fragments),
        _ => add_operation(reader, schema, &mut document.operations),
    }
}

fn add_fragment(
    reader: &mut Reader<'_>,
    schema: &Schema,
    fragments: &mut IndexMap<Name, Node<Fragment>, HashSeed>,
) -> Result<(), ExampleError> {
    let key = reader.key();
    let start = reader.start();
    reader.expect_word("fragment")?;
    let own = *reader;
    let fragment = fragment(reader, schema)?;
    let fragment = reader.node(fragment, start)?;
    add_named(fragments, key, own, fragment)
}

/// Reads a fragment, from its name on.
fn fragment(reader: &mut Reader<'_>, schema: &Schema) -> Result<Fragment, ExampleError> {
    let name = reader.name();
    let condition = reader.expect_word("on").and(reader.name());
    let directives = read_directives(reader);
    let inside = selection_set(reader, schema, condition);
    let (name, (directives, selection_set)) = both(name, both(directives, inside))?;
    Ok(Fragment {
        name,
        directives,
        selection_set,
    })
}

fn add_operation(
    reader: &mut Reader<'_>,
    schema: &Schema,
    operations: &mut OperationMap,
) -> Result<(), ExampleError> {
    let start = reader.start();
    let operation = operation(reader, schema)?;
    let operation = reader.node(operation, start)?;
    let (name, operation) = both(own_name(&operation.value), Ok(operation))?;
    match name {
        Some(name) => add_new(&mut operations.named, name, operation),
        None => add_anonymous(operations, operation),
    }
}

fn own_name(operation: &Operation) -> Result<Option<Name>, ExampleError> {
    Ok(operation.name.clone()?)
}

fn add_anonymous(
    operations: &mut OperationMap,
    operation: Node<Operation>,
) -> Result<(), ExampleError> {
    match operations.anonymous.replace(operation) {
        Some(_) => Err(ExampleError::RepeatedName),
        None => Ok(()),
    }
}

fn operation(reader: &mut Reader<'_>, schema: &Schema) -> Result<Operation, ExampleError> {
    let operation_type = operation_type(reader)?;
    let root = root_type(&schema.schema_definition.value, operation_type);
    let head = both(optional_name(reader), listed(reader, "(", ")"));
    let directives = read_directives(reader);
    let inside = selection_set(reader, schema, root);
    let ((name, variables), (directives, selection_set)) = both(head, both(directives, inside))?;
    Ok(Operation {
        operation_type,
        name,
        variables,
        directives,
        selection_set,
    })
}

/// Reads the kind of an operation; none stands for a query.
pub(super) fn operation_type(reader: &mut Reader<'_>) -> Result<OperationType, ExampleError> {
    match reader.word() {
        "" | "query" => Ok(OperationType::Query),
        "mutation" => Ok(OperationType::Mutation),
        "subscription" => Ok(OperationType::Subscription),
        _ => Err(ExampleError::NotInNotation),
    }
}

fn optional_name(reader: &mut Reader<'_>) -> Result<Option<Name>, ExampleError> {
    if reader.next_word().is_empty() {
        Ok(None)
    } else {
        Ok(Some(reader.name()?))
    }
}

fn root_type(
    roots: &SchemaDefinition,
    operation_type: OperationType,
) -> Result<Name, ExampleError> {
    let root = match operation_type {
        OperationType::Query => &roots.query,
        OperationType::Mutation => &roots.mutation,
        OperationType::Subscription => &roots.subscription,
    };
    match root {
        Some(root) => Ok(root.name.clone()?),
        None => Err(ExampleError::NoSuchRoot),
    }
}
