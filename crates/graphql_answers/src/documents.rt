//! One document against a schema.

ghost use Rattle.std.specs.Prelude.{[], ◌∷◌, IfErr, IfOk, IsOkUnless};
ghost use Rattle.graphql_answers.specs.Answers.{Finds, IsRefusalOf};

use crate::answers::{Answer, Refusal};
use crate::limits::Limits;
use crate::objects::{lack_of_introspection, reports_of_schema};
use crate::sessions;
use crate::texts::text_of;
use graphql_kept_projects::frontend::{SchemaReading, read_schema, schema_sources};
use graphql_parser::Bounds;
use std::alloc::Global;

/// Validates the document of these bytes against the schema of these bytes, to which the definitions are added that
/// every schema has.
///
/// The answer's JSON is an object, `{"errors":[..]}`.
pub fn validate(alloc: Global, schema: &[u8], document: &[u8]) -> Result<Answer, Refusal>
    ensures found { IfOk result (λ answer. Finds schema.now document.now answer.found answer.json.items) }
    ensures refused { IfErr result (IsRefusalOf (schema.now ∷ document.now ∷ [])) }
{
    let schema = text_of(schema)?;
    let document = text_of(document)?;
    answer(alloc, schema, document)
}

/// The answer on a document with this text, against a schema with this text.
fn answer(alloc: Global, schema: &str, document: &str) -> Result<Answer, Refusal>
    ensures found { IfOk result (λ answer. Finds schema.now document.now answer.found answer.json.items) }
    ensures refused { IsOkUnless result Refusal.OutOfMemory }
{
    let sources = schema_sources(schema);
    match read_schema(alloc, sources.as_slice(), Bounds::DEFAULT)? {
        SchemaReading::Accepted(schema) => {
            sessions::answer(alloc, &schema, document, Limits::DEFAULT)
        }
        SchemaReading::Rejected(reports) => reports_of_schema(alloc, reports, sources),
        SchemaReading::LacksIntrospection => lack_of_introspection(alloc),
    }
}
