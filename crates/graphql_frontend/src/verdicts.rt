//! Texts to a verdict.

ghost use Rattle.std.specs.Prelude.{◌≡◌, IfOk, Ok};
ghost use Rattle.graphql_frontend.specs.Schemas.{IsUsable};
ghost use Rattle.graphql_frontend.specs.Texts.{AreTextsOf, IsTextOf};
ghost use Rattle.graphql_frontend.specs.Verdicts.{IsValidText, Validates, ValidatesAgainst, ValidatesTexts};

use crate::documents::validate_document;
use crate::reports::Reports;
use crate::schemas::{SchemaReading, read_schema};
use crate::texts::SourceText;
use graphql_documents::documents::Schema;
use graphql_nodes::{FileId, ValidationError};
use graphql_parser::Bounds;
use graphql_schema_building::BUILT_IN_DEFINITIONS;
use std::alloc::Global;

/// What the texts of a schema and of a document come to.
#[derive(Debug, Drop)]
pub enum Verdict {
    /// Every rule holds.
    Valid,
    /// What is reported of the texts of the schema. The document was not looked at.
    SchemaRejected(Reports),
    /// The definitions that every schema has are not among the texts of the schema.
    LacksIntrospection,
    /// What is reported of the text of the document.
    DocumentRejected(Reports),
}

/// Validates the text of a document against the text of a schema, to which it adds the definitions that every schema has. The
/// only error is a failed allocation.
///
/// If no limit is reported, the verdict is `Valid` exactly if both texts are GraphQL, they build, and every rule of schemas and
/// of documents holds. Each report is true of the texts. A verdict of `Valid` says so by itself (`IsValidText`).
///
/// Specification: 2.2 Document; 3 Type System; 5 Validation.
pub fn validate_texts(
    alloc: Global,
    schema: &str,
    document: &str,
    bounds: Bounds,
) -> Result<Verdict, ValidationError>
    ensures verdict { IfOk result (ValidatesTexts bounds schema.now document.now) }
    ensures valid { result ≡ Ok Verdict.Valid → IsValidText bounds schema.now document.now }
{
    let sources = schema_sources(schema);
    validate(alloc, sources.as_slice(), document_source(document), bounds)
}

/// The texts of a schema: the definitions that every schema has, and this text, as the first file of a user.
pub fn schema_sources<'a>(schema: &'a str) -> [SourceText<'a>; 2]
    ensures { AreTextsOf schema.now result }
{
    [
        SourceText {
            file_id: FileId::BUILT_IN,
            text: BUILT_IN_DEFINITIONS,
        },
        SourceText {
            file_id: FileId(1),
            text: schema,
        },
    ]
}

/// The text of a document, as the second file of a user.
pub fn document_source<'a>(document: &'a str) -> SourceText<'a>
    ensures { IsTextOf document.now result }
{
    SourceText {
        file_id: FileId(2),
        text: document,
    }
}

/// Validates a document against a schema, both from their texts. The first text of the schema is `BUILT_IN_DEFINITIONS` as file
/// `FileId::BUILT_IN`, and no other text is of that file: what that file defines counts as built in. `validate_texts` sees to
/// it. The only error is a failed allocation.
///
/// If no limit is reported, the verdict is `Valid` exactly if the texts are GraphQL, they build, and every rule of schemas and of
/// documents holds. Each report is true of the texts.
///
/// Specification: 2.2 Document; 3 Type System; 5 Validation.
pub fn validate(
    alloc: Global,
    schema: &[SourceText<'_>],
    document: SourceText<'_>,
    bounds: Bounds,
) -> Result<Verdict, ValidationError>
    ensures { IfOk result (Validates bounds schema.now document.entry) }
{
    match read_schema(alloc, schema, bounds)? {
        SchemaReading::Accepted(schema) => validate_against(alloc, &schema, document, bounds),
        SchemaReading::Rejected(reports) => Ok(Verdict::SchemaRejected(reports)),
        SchemaReading::LacksIntrospection => Ok(Verdict::LacksIntrospection),
    }
}

/// Validates the document against a schema that was read.
fn validate_against(
    alloc: Global,
    schema: &Schema,
    document: SourceText<'_>,
    bounds: Bounds,
) -> Result<Verdict, ValidationError>
    requires { IsUsable schema.now }
    ensures { IfOk result (ValidatesAgainst bounds schema.now document.entry) }
{
    match validate_document(alloc, schema, document, bounds)? {
        None => Ok(Verdict::Valid),
        Some(reports) => Ok(Verdict::DocumentRejected(reports)),
    }
}
