//! Several documents against one schema, which is read once.

ghost use Rattle.std.specs.Prelude.{◌≡◌, ◌<◌, ◌++◌, length, IfErr, IfOk, IsOkUnless, List, MatchResult};
ghost use Rattle.graphql_answers.specs.Answers.{Checks};
ghost use Rattle.graphql_answers.specs.Batches.{AppendsChecked, document_at, FindsInEach, found_in_documents, IsAnswerOnEach, IsNoText, IsRefusalOfDocuments, IsRefusalOfEach, start_of};
ghost use Rattle.json.specs.Token.{Token};
ghost use Rattle.graphql_kept_projects.specs.Frontend.Schemas.{IsUsable};

use crate::answers::{Answer, Found, Refusal};
use crate::limits::Limits;
use crate::objects::{add_document, add_nothing, lack_of_introspection, reports_of_schema};
use crate::texts::text_of;
use graphql_documents::documents::Schema;
use graphql_kept_projects::all_reports_of_document;
use graphql_kept_projects::frontend::{
    SchemaReading, document_source, read_schema, schema_sources,
};
use graphql_parser::Bounds;
use json::Writer;
use std::alloc::Global;

/// Documents one behind another, and where each ends.
#[derive(Clone, Copy)]
pub struct Batch<'a> {
    pub bytes: &'a [u8],
    pub ends: &'a [usize],
}

/// Validates the documents of these bytes against the schema of these bytes, to which the definitions are added that
/// every schema has.
///
/// The answer's JSON is an array of objects `{"errors":[..]}`, one for each document; or one such object, where it is
/// the schema that is reported.
pub fn validate_each(alloc: Global, schema: &[u8], documents: Batch<'_>) -> Result<Answer, Refusal>
    ensures found { IfOk result (λ answer. FindsInEach schema.now documents.entry.bytes.now documents.entry.ends.now answer.found answer.json.items) }
    ensures refused { IfErr result (IsRefusalOfEach schema.now documents.entry.bytes.now documents.entry.ends.now) }
{
    let schema = text_of(schema)?;
    answer(alloc, schema, documents)
}

/// The answer on the documents, against a schema with this text.
fn answer(alloc: Global, schema: &str, documents: Batch<'_>) -> Result<Answer, Refusal>
    ensures found { IfOk result (λ answer. FindsInEach schema.now documents.entry.bytes.now documents.entry.ends.now answer.found answer.json.items) }
    ensures refused { IfErr result (IsRefusalOfDocuments documents.entry.bytes.now documents.entry.ends.now) }
{
    let sources = schema_sources(schema);
    match read_schema(alloc, sources.as_slice(), Bounds::DEFAULT)? {
        SchemaReading::Accepted(schema) => answer_each(alloc, &schema, documents),
        SchemaReading::Rejected(reports) => reports_of_schema(alloc, reports, sources),
        SchemaReading::LacksIntrospection => lack_of_introspection(alloc),
    }
}

/// The answer on the documents.
fn answer_each(alloc: Global, schema: &Schema, documents: Batch<'_>) -> Result<Answer, Refusal>
    requires { IsUsable schema.now }
    ensures found { IfOk result (IsAnswerOnEach schema.now documents.entry.bytes.now documents.entry.ends.now) }
    ensures refused { IfErr result (IsRefusalOfDocuments documents.entry.bytes.now documents.entry.ends.now) }
{
    let mut json = Writer::new(Vec::new(alloc));
    json.begin_array()?;
    let is_reported = add_each(&mut json, alloc, schema, documents)?;
    json.end_array()?;
    Ok(Answer {
        found: found_in(is_reported),
        json: json.into_inner(),
    })
}

fn found_in(is_reported: bool) -> Found
    ensures { result ≡ found_in_documents is_reported }
{
    if is_reported {
        Found::InDocuments
    } else {
        Found::Nothing
    }
}

/// Adds an object for each document. Whether something is reported of one.
fn add_each(
    json: &mut Writer,
    alloc: Global,
    schema: &Schema,
    documents: Batch<'_>,
) -> Result<bool, Refusal>
    requires { IsUsable schema.now }
    ensures before { json.new.before ≡ json.old.before }
    ensures checks { IfOk result (λ reported. AppendsChecked schema.now documents.entry.bytes.now documents.entry.ends.now (length documents.entry.ends.now) reported json.old json.new) }
    ensures refused { IfErr result (IsRefusalOfDocuments documents.entry.bytes.now documents.entry.ends.now) }
{
    let mut is_reported = false;
    for k in 0..documents.ends.len() {
        let text = documents.text(k)?;
        if add_one(json, alloc, schema, text)? {
            is_reported = true;
        }
    }
    Ok(is_reported)
}

/// Adds the object for a document. Whether something is reported of it.
fn add_one(json: &mut Writer, alloc: Global, schema: &Schema, text: &str) -> Result<bool, Refusal>
    requires { IsUsable schema.now }
    ensures before { json.new.before ≡ json.old.before }
    ensures checks { IfOk result (λ reported. (object : List Token) × Checks schema.now text.now reported object × (json.new.tokens ≡ json.old.tokens ++ object)) }
    ensures refused { IsOkUnless result Refusal.OutOfMemory }
{
    let document = document_source(text);
    let lists = all_reports_of_document(alloc, schema, document, Bounds::DEFAULT)?;
    if lists.is_empty() {
        add_nothing(json)?;
        return Ok(false);
    }
    add_document(json, alloc, schema, &lists, document, Limits::DEFAULT)?;
    Ok(true)
}

impl<'a> Batch<'a> {
    /// The text of the k-th document.
    fn text(self, k: usize) -> Result<&'a str, Refusal>
        requires { k < length self.ends.now }
        ensures { MatchResult result (λ text. text.now ≡ document_at self.entry.bytes.now self.entry.ends.now k) (IsNoText self.entry.bytes.now self.entry.ends.now k) }
    {
        let start = self.start(k);
        let end = self.ends[k];
        if end < start || self.bytes.len() < end {
            return Err(Refusal::BadEnds);
        }
        text_of(&self.bytes[start..end])
    }

    /// Where the k-th document begins.
    fn start(self, k: usize) -> usize
        requires { k < length self.ends.now }
        ensures { result ≡ start_of self.entry.ends.now k }
    {
        if k == 0 { 0 } else { self.ends[k - 1] }
    }
}
