use crate::examples::{Example, Subject};
use graphql_documents::documents::{ExecutableDocument, FieldSet, Schema, Valid};
use graphql_nodes::FileId;
use graphql_notation::ExampleError;
use graphql_notation::build::{
    document, document_in_file, field_set, schema as build_schema, schema_in_file,
};
use std::alloc::Global;

/// The file of a text that has a location.
const FILE: FileId = FileId(1);

/// A worked example, built.
#[derive(Drop)]
pub struct BuiltExample {
    pub schema: Valid<Schema>,
    pub validated: Validated,
}

/// What an example has validated, with its schema or without.
#[derive(Drop)]
pub enum Validated {
    FieldSet(FieldSet),
    Document(ExecutableDocument),
    Standalone(ExecutableDocument),
    Schema,
}

/// The example that the example writes.
pub fn build_example(alloc: Global, example: &Example) -> Result<BuiltExample, ExampleError> {
    let schema = schema_of(alloc, example)?;
    let validated = built(alloc, &schema.0, example.subject)?;
    Ok(BuiltExample { schema, validated })
}

fn schema_of(alloc: Global, example: &Example) -> Result<Valid<Schema>, ExampleError> {
    match example.subject {
        Subject::SchemaInFile => schema_in_file(alloc, example.schema, FILE),
        _ => build_schema(alloc, example.schema),
    }
}

fn built(alloc: Global, schema: &Schema, subject: Subject) -> Result<Validated, ExampleError> {
    match subject {
        Subject::FieldSet(text) => {
            Ok(Validated::FieldSet(field_set(alloc, schema, "Query", text)?))
        }
        Subject::Document(text) => Ok(Validated::Document(document(alloc, schema, text)?)),
        Subject::DocumentInFile(text) => {
            Ok(Validated::Document(document_in_file(alloc, schema, text, FILE)?))
        }
        Subject::DocumentBuiltBy { text, builder } => {
            Ok(Validated::Document(built_by(alloc, builder, text)?))
        }
        Subject::Standalone(text) => Ok(Validated::Standalone(document(alloc, schema, text)?)),
        Subject::Schema
        | Subject::SchemaInFile
        | Subject::RetainedTypes
        | Subject::TypesRetainedAgain => Ok(Validated::Schema),
    }
}

/// The document of this text, built against the schema of another.
fn built_by(alloc: Global, builder: &str, text: &str) -> Result<ExecutableDocument, ExampleError> {
    let builder = build_schema(alloc, builder)?;
    let document = document(alloc, &builder.0, text);
    drop(builder);
    document
}
