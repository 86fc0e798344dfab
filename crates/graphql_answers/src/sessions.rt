//! A schema that is kept between calls, and documents against it.

ghost use Rattle.std.specs.Prelude.{◌≡◌, [], ◌∷◌, IfErr, IfOk, IsOkUnless, None, Some, drop, length};
ghost use Rattle.graphql_answers.specs.Answers.{IsRefusalOf};
ghost use Rattle.graphql_answers.specs.Files.{IsRefusalOfFiles};
ghost use Rattle.graphql_answers.specs.Sessions.{FindsAgainst, FindsAgainstKept, FindsInFiles, IsReadFrom, IsReadFromTexts, IsRefusalOfKept, IsSharedWith, IsUsableIfKept, answer_in, found_in_schema, refusal_of_sharing, schema_in, schema_of};
ghost use Rattle.graphql_answers.specs.Written.{written};
ghost use Rattle.graphql_kept_projects.specs.Frontend.Schemas.{IsUsable};

use crate::answers::{Answer, Found, Refusal};
use crate::files::{SchemaFile, named_texts};
use crate::limits::Limits;
use crate::objects::{lack_of_introspection, nothing, reports_of_document, reports_of_subject};
use crate::texts::text_of;
use graphql_documents::documents::Schema;
use graphql_kept_projects::all_reports_of_document;
use graphql_kept_projects::frontend::{SchemaReading, document_source, read_schema};
use graphql_report_formats::named_texts::NamedText;
use graphql_report_formats::schema_texts::{schema_subject, sources_of};
use graphql_schema_handles::handle::SchemaHandle;
use graphql_schema_handles::sessions::Session;
use std::alloc::Global;
use std::mem::replace;
use std::sync::Arc;

/// Reads the schema of these files, to which the definitions are added that every schema has, and keeps it and the answer. The
/// memory of what the handle kept before is given back. After an error the handle keeps nothing.
///
/// The answer is an object, `{"errors":[..]}`. If something is reported, no schema is kept.
///
/// Specification: 2.2 Document; 3 Type System.
pub fn read(
    alloc: Global,
    files: &[SchemaFile<'_>],
    limits: Limits,
    handle: &mut SchemaHandle,
) -> Result<Found, Refusal>
    ensures found { IfOk result (λ found. FindsInFiles limits files.now (schema_in handle.new.kept) found (answer_in handle.new.kept)) }
    ensures usable { IsUsableIfKept (schema_in handle.new.kept) }
    ensures refused { IfErr result (IsRefusalOfFiles files.now) }
    ensures closed { IfErr result (λ _. handle.new.kept ≡ None) }
{
    handle.put(SchemaHandle::closed(), alloc);
    let session = session_of(alloc, files, limits)?;
    let found = found_in(&session);
    let kept = Box::new(alloc, session)?;
    handle.put(SchemaHandle::keep(kept), alloc);
    Ok(found)
}

/// Whether something is reported of the schema.
fn found_in(session: &Session) -> Found
    ensures { result ≡ found_in_schema (schema_of session.now) }
{
    match &session.schema {
        Some(_schema) => Found::Nothing,
        None => Found::InSchema,
    }
}

/// The session of these files.
fn session_of(alloc: Global, files: &[SchemaFile<'_>], limits: Limits) -> Result<Session, Refusal>
    ensures read { IfOk result (λ session. IsReadFrom limits files.now (schema_of session) session.answer.items) }
    ensures usable { IfOk result (λ session. IsUsableIfKept (schema_of session)) }
    ensures refused { IfErr result (IsRefusalOfFiles files.now) }
{
    let texts = named_texts(alloc, files)?;
    session_of_texts(alloc, &texts, limits)
}

/// The session of these texts.
fn session_of_texts(
    alloc: Global,
    texts: &[NamedText<'_>],
    limits: Limits,
) -> Result<Session, Refusal>
    ensures read { IfOk result (λ session. IsReadFromTexts limits texts.now (schema_of session) session.answer.items) }
    ensures usable { IfOk result (λ session. IsUsableIfKept (schema_of session)) }
    ensures refused { IsOkUnless result Refusal.OutOfMemory }
{
    let sources = sources_of(alloc, texts)?;
    match read_schema(alloc, &sources, limits.bounds)? {
        SchemaReading::Accepted(schema) => {
            let answer = nothing(alloc)?;
            let shared = Arc::new(alloc, schema)?;
            Ok(Session {
                schema: Some(shared),
                answer: answer.json,
            })
        }
        SchemaReading::Rejected(reports) => {
            let subject = schema_subject(texts, &sources);
            let answer = reports_of_subject(alloc, reports, subject, limits)?;
            Ok(reported(answer))
        }
        SchemaReading::LacksIntrospection => {
            let answer = lack_of_introspection(alloc)?;
            Ok(reported(answer))
        }
    }
}

/// The session of a schema of which this is reported.
fn reported(answer: Answer) -> Session
    ensures schema { schema_of result ≡ None }
    ensures answer { result.answer.items ≡ answer.json.items }
{
    Session {
        schema: None,
        answer: answer.json,
    }
}

/// Validates the document of these bytes against the schema that is kept. The answer takes the place of the one before.
///
/// The answer is an object, `{"errors":[..]}`. If no schema is kept, the error is `NoSchema`. After an error no answer is kept.
///
/// Specification: 2.2 Document; 5 Validation.
pub fn validate_kept(
    alloc: Global,
    handle: &mut SchemaHandle,
    document: &[u8],
    limits: Limits,
) -> Result<Found, Refusal>
    requires { IsUsableIfKept (schema_in handle.old.kept) }
    ensures found { IfOk result (λ found. FindsAgainstKept limits (schema_in handle.old.kept) document.now found (answer_in handle.new.kept)) }
    ensures refused { IfErr result (IsRefusalOfKept (schema_in handle.old.kept) document.now) }
    ensures schema { schema_in handle.new.kept ≡ schema_in handle.old.kept }
    ensures nothing { IfErr result (λ _. answer_in handle.new.kept ≡ []) }
{
    match replace(handle, SchemaHandle::closed()).open(alloc) {
        Some(mut session) => {
            let answered = validate_in(alloc, &mut session, document, limits);
            handle.put(SchemaHandle::keep(session), alloc);
            answered
        }
        None => Err(Refusal::NoSchema),
    }
}

/// Validates a document against the schema of a session.
fn validate_in(
    alloc: Global,
    session: &mut Session,
    document: &[u8],
    limits: Limits,
) -> Result<Found, Refusal>
    requires { IsUsableIfKept (schema_of session.old) }
    ensures found { IfOk result (λ found. FindsAgainstKept limits (schema_of session.old) document.now found session.new.answer.items) }
    ensures refused { IfErr result (IsRefusalOfKept (schema_of session.old) document.now) }
    ensures schema { session.new.schema ≡ session.old.schema }
    ensures nothing { IfErr result (λ _. session.new.answer.items ≡ []) }
{
    session.answer = Vec::new(alloc);
    let answer = answer_against(alloc, session, document, limits)?;
    session.answer = answer.json;
    Ok(answer.found)
}

/// The answer on a document, against the schema of a session.
fn answer_against(
    alloc: Global,
    session: &Session,
    document: &[u8],
    limits: Limits,
) -> Result<Answer, Refusal>
    requires { IsUsableIfKept (schema_of session.now) }
    ensures found { IfOk result (λ answer. FindsAgainstKept limits (schema_of session.now) document.now answer.found answer.json.items) }
    ensures refused { IfErr result (IsRefusalOfKept (schema_of session.now) document.now) }
{
    match &session.schema {
        Some(schema) => validate_against(alloc, schema, document, limits),
        None => Err(Refusal::NoSchema),
    }
}

/// The answer on the document of these bytes, against this schema.
fn validate_against(
    alloc: Global,
    schema: &Schema,
    document: &[u8],
    limits: Limits,
) -> Result<Answer, Refusal>
    requires { IsUsable schema.now }
    ensures found { IfOk result (λ answer. FindsAgainst limits schema.now document.now answer.found answer.json.items) }
    ensures refused { IfErr result (IsRefusalOf (document.now ∷ [])) }
{
    let text = text_of(document)?;
    answer(alloc, schema, text, limits)
}

/// The answer on a document with this text, against this schema.
pub(crate) fn answer(
    alloc: Global,
    schema: &Schema,
    text: &str,
    limits: Limits,
) -> Result<Answer, Refusal>
    requires { IsUsable schema.now }
    ensures found { IfOk result (λ answer. FindsAgainst limits schema.now text.now answer.found answer.json.items) }
    ensures refused { IsOkUnless result Refusal.OutOfMemory }
{
    let document = document_source(text);
    let lists = all_reports_of_document(alloc, schema, document, limits.bounds)?;
    if lists.is_empty() {
        return nothing(alloc);
    }
    reports_of_document(alloc, schema, &lists, document, limits)
}

/// Gives another handle the schema that this one keeps, without an answer. The schema is then in memory once, until both are
/// closed. The memory of what the other kept before is given back. After an error the other keeps nothing.
pub fn share(
    alloc: Global,
    handle: &mut SchemaHandle,
    other: &mut SchemaHandle,
) -> Result<(), Refusal>
    ensures shared { IfOk result (λ _. IsSharedWith (schema_in handle.old.kept) other.new.kept) }
    ensures refused { IfErr result (λ refusal. refusal ≡ refusal_of_sharing (schema_in handle.old.kept)) }
    ensures closed { IfErr result (λ _. other.new.kept ≡ None) }
    ensures usable { IsUsableIfKept (schema_in handle.old.kept) → IsUsableIfKept (schema_in other.new.kept) }
    ensures kept { handle.new.kept ≡ handle.old.kept }
{
    close(alloc, other);
    match replace(handle, SchemaHandle::closed()).open(alloc) {
        Some(session) => {
            let shared = shared_session(alloc, &session);
            handle.put(SchemaHandle::keep(session), alloc);
            other.put(SchemaHandle::keep(shared?), alloc);
            Ok(())
        }
        None => Err(Refusal::NoSchema),
    }
}

/// A session that shares the schema of this one, without an answer.
fn shared_session(alloc: Global, session: &Session) -> Result<Box<Session>, Refusal>
    ensures shared { IfOk result (λ shared. IsSharedWith (schema_of session.now) (Some shared.value)) }
    ensures refused { IfErr result (λ refusal. refusal ≡ refusal_of_sharing (schema_of session.now)) }
{
    match &session.schema {
        Some(schema) => Ok(Box::new(
            alloc,
            Session {
                schema: Some(schema.clone()?),
                answer: Vec::new(alloc),
            },
        )?),
        None => Err(Refusal::NoSchema),
    }
}

/// Writes the answer of the last call from this byte on, as much as there is room for. Answers how long the whole answer is.
pub fn write_answer(alloc: Global, handle: &mut SchemaHandle, from: usize, out: &mut [u8]) -> usize
    ensures length { result ≡ length (answer_in handle.old.kept) }
    ensures written { out.new ≡ written (drop from (answer_in handle.old.kept)) out.old }
    ensures kept { handle.new.kept ≡ handle.old.kept }
{
    match replace(handle, SchemaHandle::closed()).open(alloc) {
        Some(session) => {
            let length = write_from(&session.answer, from, out);
            handle.put(SchemaHandle::keep(session), alloc);
            length
        }
        None => write_from(&[], from, out),
    }
}

/// Writes an answer from this byte on, as much as there is room for. Answers how long the whole answer is.
fn write_from(answer: &[u8], from: usize, out: &mut [u8]) -> usize
    ensures length { result ≡ length answer.now }
    ensures written { out.new ≡ written (drop from answer.now) out.old }
{
    if from < answer.len() {
        write(&answer[from..], out);
    }
    answer.len()
}

/// Writes as much of an answer as there is room for.
fn write(answer: &[u8], out: &mut [u8])
    ensures { out.new ≡ written answer.now out.old }
{
    let room = out.len().min(answer.len());
    out[..room].copy_from_slice(&answer[..room]);
}

/// Closes a handle, and gives back the memory of what it kept.
pub fn close(alloc: Global, handle: &mut SchemaHandle)
    ensures { handle.new.kept ≡ None }
{
    handle.put(SchemaHandle::closed(), alloc);
}
