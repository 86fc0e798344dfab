//! Schemas by themselves.

ghost use Rattle.std.specs.Prelude.{[], ◌∷◌, IfErr, IfOk, IsOkUnless};
ghost use Rattle.graphql_answers.specs.Answers.{FindsInSchema, IsRefusalOf};

use crate::answers::{Answer, Refusal};
use crate::objects::{lack_of_introspection, nothing, reports_of_schema};
use crate::texts::text_of;
use graphql_kept_projects::frontend::{SchemaReading, read_schema, schema_sources};
use graphql_parser::Bounds;
use std::alloc::Global;

/// Validates the schema of these bytes, to which the definitions are added that every schema has.
///
/// The answer's JSON is an object, `{"errors":[..]}`.
pub fn validate_schema(alloc: Global, schema: &[u8]) -> Result<Answer, Refusal>
    ensures found { IfOk result (λ answer. FindsInSchema schema.now answer.found answer.json.items) }
    ensures refused { IfErr result (IsRefusalOf (schema.now ∷ [])) }
{
    let schema = text_of(schema)?;
    answer(alloc, schema)
}

/// The answer on a schema with this text.
fn answer(alloc: Global, schema: &str) -> Result<Answer, Refusal>
    ensures found { IfOk result (λ answer. FindsInSchema schema.now answer.found answer.json.items) }
    ensures refused { IsOkUnless result Refusal.OutOfMemory }
{
    let sources = schema_sources(schema);
    match read_schema(alloc, sources.as_slice(), Bounds::DEFAULT)? {
        SchemaReading::Accepted(_schema) => nothing(alloc),
        SchemaReading::Rejected(reports) => reports_of_schema(alloc, reports, sources),
        SchemaReading::LacksIntrospection => lack_of_introspection(alloc),
    }
}
