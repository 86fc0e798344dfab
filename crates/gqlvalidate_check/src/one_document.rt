//! Documents that are one document together, as clients write fragments in files of their own.

ghost use Rattle.std.specs.Prelude.{IfOk, Some};
ghost use Rattle.graphql_frontend.specs.Documents.{ValidatesDocuments};
ghost use Rattle.graphql_frontend.specs.Schemas.{IsUsable};
ghost use Rattle.graphql_kept_projects.specs.Documents.{AreAllReports, AreFurtherOf};

use crate::project_files::project_of;
use gqlvalidate_sources::Paths;
use gqlvalidate_sources::inputs::faults::Fault;
use gqlvalidate_sources::inputs::printable::Printable;
use gqlvalidate_sources::inputs::sources::shown_path;
use gqlvalidate_sources::inputs::statuses::Status;
use gqlvalidate_sources::runs::accounts::Account;
use gqlvalidate_sources::runs::named_texts::{NamedText, Subject};
use gqlvalidate_sources::runs::schema_files::{FileKind, ReadFiles, named_text, read_files};
use gqlvalidate_sources::runs::schema_texts::sources_of;
use graphql_documents::documents::Schema;
use graphql_frontend::{Reports, SourceText};
use graphql_kept_projects::all_reports_of_documents;
use graphql_parser::Bounds;
use std::alloc::{AllocError, Global};
use std::io::{Read, Write};
use std::rt::Files;

/// Validates the one document that these files are together, if each of them has a text.
pub fn check_together<R: Files + AllocGlobal, I: Read, O: Write, F: Write>(
    rt: &R,
    schema: &Schema,
    paths: Paths<'_>,
    account: &mut Account<'_>,
    input: &mut I,
    output: &mut O,
    faults: &mut F,
) -> Result<Status, Fault>
    requires { IsUsable schema.now }
{
    if let Some(program) = paths.program() {
        explain_program(program, faults);
        return Ok(Status::BadArguments);
    }
    let ReadFiles { texts, unreadable } = read_files(
        rt,
        paths.documents,
        FileKind::Document,
        input,
        faults,
    )?;
    let Some(texts) = texts else {
        account.add_all_unreadable(unreadable)?;
        return Ok(Status::Unreadable);
    };
    drop(unreadable);
    let status = check_one(rt.alloc(), schema, paths, &texts, account, output);
    drop(texts);
    status
}

/// Says on standard error that the literals of a program are documents of their own. That this fails changes nothing.
fn explain_program<F: Write>(path: &str, faults: &mut F) {
    let path = Printable(shown_path(path));
    let _ = writeln!(
        faults,
        "{path}: error: the literals of a program are documents of their own, and no parts of one document"
    );
}

/// Validates the one document that these texts are together.
fn check_one<O: Write>(
    alloc: Global,
    schema: &Schema,
    paths: Paths<'_>,
    texts: &[String],
    account: &mut Account<'_>,
    output: &mut O,
) -> Result<Status, Fault>
    requires { IsUsable schema.now }
{
    let named = named_documents(alloc, paths, texts)?;
    let sources = sources_of(alloc, &named)?;
    let subject = subject_of(&named, &sources);
    let lists = reports_of(alloc, schema, &sources, paths.bounds)?;
    match lists.first() {
        None => {
            account.reject(alloc, &[], None, subject, paths.bounds, output)?;
            Ok(Status::Accepted)
        }
        Some(first) => {
            let project = project_of(alloc, schema, &sources, first, paths.bounds)?;
            account.reject(
                alloc,
                &lists,
                project.as_ref(),
                subject,
                paths.bounds,
                output,
            )?;
            Ok(Status::Reported)
        }
    }
}

/// What is reported of the document of these texts.
fn reports_of(
    alloc: Global,
    schema: &Schema,
    sources: &[SourceText<'_>],
    bounds: Bounds,
) -> Result<Vec<Reports>, Fault>
    requires { IsUsable schema.now }
    ensures { IfOk result (λ lists. AreAllReports (ValidatesDocuments bounds (Some schema.now) sources.now)
        (AreFurtherOf bounds schema.now sources.now) lists.items) }
{
    Ok(all_reports_of_documents(alloc, schema, sources, bounds)?)
}

/// The texts with their paths, numbered behind those of the schema.
fn named_documents<'a>(
    alloc: Global,
    paths: Paths<'a>,
    texts: &'a [String],
) -> Result<Vec<NamedText<'a>>, AllocError> {
    let mut named = Vec::new(alloc);
    for (position, (path, text)) in paths.documents.iter().zip(texts.iter()).enumerate() {
        let position = position.saturating_add(paths.schema.len());
        named.push(named_text(position, path, text.as_str()))?;
    }
    Ok(named)
}

/// A report without a place is about the first file.
fn subject_of<'a>(texts: &'a [NamedText<'a>], sources: &'a [SourceText<'a>]) -> Subject<'a> {
    let path = texts.first().and_then(|named| named.path);
    Subject {
        path,
        texts,
        sources,
    }
}
