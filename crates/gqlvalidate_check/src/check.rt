//! Documents, each validated against one schema.

ghost use Rattle.std.specs.Prelude.{◌≡◌, IfOk, None, Some, Ok};
ghost use Rattle.graphql_frontend.specs.Documents.{ValidatesDocument};
ghost use Rattle.graphql_frontend.specs.Schemas.{AcceptsOnlyUsableSchemas, IsUsable};

use crate::one_document::check_together;
use crate::project_files::{check_files, cuts_beside, project_of, report_cut};
use gqlvalidate_sources::inputs::faults::Fault;
use gqlvalidate_sources::inputs::sources::{shown_path, text_or_said};
use gqlvalidate_sources::inputs::statuses::Status;
use gqlvalidate_sources::runs::accounts::{Account, Extent, Whole};
use gqlvalidate_sources::runs::bounds::OF_SCHEMA;
use gqlvalidate_sources::runs::dialects::{SchemaTexts, dialect_texts, read_schema_in};
use gqlvalidate_sources::runs::named_texts::{NamedText, Subject};
use gqlvalidate_sources::runs::presentations::Presentation;
use gqlvalidate_sources::runs::schema_files::{
    FileKind, ReadFiles, named_schema, named_text, read_files,
};
use gqlvalidate_sources::runs::schema_reports::{end_unread, reject};
use gqlvalidate_sources::runs::schema_texts::schema_subject;
use gqlvalidate_sources::{Paths, is_program};
use gqlvalidate_watching::Kept;
use gqlvalidate_words::{Dialect, Grouping};
use graphql_documents::documents::Schema;
use graphql_frontend::{ProjectReports, Reports, SchemaReading, validate_document};
use graphql_kept_projects::all_reports_of_schema;
use graphql_parser::Bounds;
use std::alloc::Global;
use std::io::{Read, Write};
use std::rt::Files;

/// Validates the schema, and the documents against it, if it holds.
pub fn check<R: Files + AllocGlobal, I: Read, O: Write, F: Write>(
    rt: &R,
    paths: Paths<'_>,
    presentation: Presentation,
    kept: &mut Kept,
    input: &mut I,
    output: &mut O,
    faults: &mut F,
) -> Result<Status, Fault> {
    let ReadFiles { texts, unreadable } = read_files(
        rt,
        paths.schema,
        FileKind::Schema,
        input,
        faults,
    )?;
    let Some(texts) = texts else {
        return end_unread(rt.alloc(), unreadable, presentation, output, faults);
    };
    drop(unreadable);
    let named = named_schema(rt.alloc(), paths.schema, &texts)?;
    let status = check_in_dialect(rt, &named, paths, presentation, kept, input, output, faults);
    drop(named);
    drop(texts);
    status
}

/// Validates the schema of these texts, as the dialect of the run reads them, and the documents against it, if it holds.
fn check_in_dialect<R: Files + AllocGlobal, I: Read, O: Write, F: Write>(
    rt: &R,
    named: &[NamedText<'_>],
    paths: Paths<'_>,
    presentation: Presentation,
    kept: &mut Kept,
    input: &mut I,
    output: &mut O,
    faults: &mut F,
) -> Result<Status, Fault> {
    let read = dialect_texts(rt.alloc(), named, paths.dialect)?;
    let texts = SchemaTexts::new(rt.alloc(), named, &read)?;
    let status = check_against(rt, &texts, paths, presentation, kept, input, output, faults);
    drop(texts);
    drop(read);
    status
}

/// Validates the schema of these texts, and the documents against it, if it holds.
fn check_against<R: Files + AllocGlobal, I: Read, O: Write, F: Write>(
    rt: &R,
    schema_texts: &SchemaTexts<'_>,
    paths: Paths<'_>,
    presentation: Presentation,
    kept: &mut Kept,
    input: &mut I,
    output: &mut O,
    faults: &mut F,
) -> Result<Status, Fault> {
    match schema_of(rt.alloc(), schema_texts, paths.dialect, kept)? {
        SchemaReading::Accepted(schema) => {
            let texts = schema_subject(&schema_texts.shown, &schema_texts.read);
            let status = check_documents(
                rt,
                &schema,
                texts,
                paths,
                presentation,
                kept,
                input,
                output,
                faults,
            );
            kept.keep_schema(
                rt.alloc(),
                &schema_texts.read,
                paths.dialect.federation,
                schema,
            )?;
            status
        }
        SchemaReading::Rejected(reports) => {
            let subject = schema_subject(&schema_texts.shown, &schema_texts.read);
            let lists = all_reports_of_schema(
                rt.alloc(),
                subject.sources,
                reports,
                OF_SCHEMA,
                paths.dialect.federation,
            )?;
            reject(rt.alloc(), &lists, subject, presentation, output, faults)
        }
        SchemaReading::LacksIntrospection => Err(Fault::LacksIntrospection),
    }
}

/// Reads the schema of these texts, unless the last run did.
fn schema_of(
    alloc: Global,
    texts: &SchemaTexts<'_>,
    dialect: Dialect,
    kept: &mut Kept,
) -> Result<SchemaReading, Fault>
    ensures { IfOk result AcceptsOnlyUsableSchemas }
{
    match kept.take_schema(&texts.read, dialect.federation) {
        Some(schema) => Ok(SchemaReading::Accepted(schema)),
        None => Ok(read_schema_in(alloc, texts, dialect)?),
    }
}

/// Validates the documents against the schema of these texts, and says how many reports there are. The levels of their rules decide about the
/// status.
fn check_documents<'a, R: Files + AllocGlobal, I: Read, O: Write, F: Write>(
    rt: &R,
    schema: &'a Schema,
    texts: Subject<'a>,
    paths: Paths<'_>,
    presentation: Presentation,
    kept: &mut Kept,
    input: &mut I,
    output: &mut O,
    faults: &mut F,
) -> Result<Status, Fault>
    requires { IsUsable schema.now }
{
    let mut account = Account::new(rt.alloc(), presentation)?;
    account.heed(rt.alloc(), paths.policy)?;
    account.add_schema(schema, texts);
    let found = check_grouped(rt, schema, paths, kept, &mut account, input, output, faults)?;
    let status = account.status(found);
    let extent = Extent {
        whole: Whole::Documents(paths.count()),
        schema_files: paths.schema.len(),
    };
    account.end(rt.alloc(), extent, output, faults)?;
    Ok(status)
}

/// Validates the documents, those together that are to be.
fn check_grouped<R: Files + AllocGlobal, I: Read, O: Write, F: Write>(
    rt: &R,
    schema: &Schema,
    paths: Paths<'_>,
    kept: &mut Kept,
    account: &mut Account<'_>,
    input: &mut I,
    output: &mut O,
    faults: &mut F,
) -> Result<Status, Fault>
    requires { IsUsable schema.now }
{
    match paths.grouping {
        Grouping::OneDocument => check_together(rt, schema, paths, account, input, output, faults),
        Grouping::Project if !paths.is_of_one() => {
            check_files(rt, schema, paths, kept, account, input, output, faults)
        }
        Grouping::Project | Grouping::Each => {
            check_each(rt, schema, paths, account, input, output, faults)
        }
    }
}

/// Validates the documents one after another: one that cannot be read does not end the run.
fn check_each<R: Files + AllocGlobal, I: Read, O: Write, F: Write>(
    rt: &R,
    schema: &Schema,
    paths: Paths<'_>,
    account: &mut Account<'_>,
    input: &mut I,
    output: &mut O,
    faults: &mut F,
) -> Result<Status, Fault>
    requires { IsUsable schema.now }
{
    let mut status = Status::Accepted;
    for (position, path) in paths.documents.iter().enumerate() {
        let position = position.saturating_add(paths.schema.len());
        let checked = check_path(
            rt, schema, position, path, paths, account, input, output, faults,
        )?;
        status = status.with(checked);
    }
    Ok(status)
}

/// Validates the document of a file, which has this position in the run, or the documents of a program.
fn check_path<R: Files + AllocGlobal, I: Read, O: Write, F: Write>(
    rt: &R,
    schema: &Schema,
    position: usize,
    path: &str,
    paths: Paths<'_>,
    account: &mut Account<'_>,
    input: &mut I,
    output: &mut O,
    faults: &mut F,
) -> Result<Status, Fault>
    requires { IsUsable schema.now }
{
    if is_program(path) || paths.dialect.client.is_some() {
        let program = [path];
        check_alone(
            rt,
            schema,
            program.as_slice(),
            paths,
            account,
            input,
            output,
            faults,
        )
    } else {
        check_file(
            rt, schema, position, path, paths, account, input, output, faults,
        )
    }
}

/// Validates these documents together, and none besides.
fn check_alone<'a, R: Files + AllocGlobal, I: Read, O: Write, F: Write>(
    rt: &R,
    schema: &Schema,
    documents: &'a [&'a str],
    paths: Paths<'a>,
    account: &mut Account<'_>,
    input: &mut I,
    output: &mut O,
    faults: &mut F,
) -> Result<Status, Fault>
    requires { IsUsable schema.now }
{
    let paths = Paths { documents, ..paths };
    let mut nothing = Kept::new(false);
    check_files(
        rt,
        schema,
        paths,
        &mut nothing,
        account,
        input,
        output,
        faults,
    )
}

/// Validates the document of a file, which has this position in the run.
fn check_file<R: Files + AllocGlobal, I: Read, O: Write, F: Write>(
    rt: &R,
    schema: &Schema,
    position: usize,
    path: &str,
    paths: Paths<'_>,
    account: &mut Account<'_>,
    input: &mut I,
    output: &mut O,
    faults: &mut F,
) -> Result<Status, Fault>
    requires { IsUsable schema.now }
{
    match text_or_said(rt, paths.source(path), input, faults)? {
        Some(text) => {
            let document = named_text(position, path, text.as_str());
            check_text(rt.alloc(), schema, document, paths.bounds, account, output)
        }
        None => {
            account.add_unreadable(rt.alloc(), shown_path(path))?;
            Ok(Status::Unreadable)
        }
    }
}

/// Validates one document, and reports what is wrong with it.
fn check_text<O: Write>(
    alloc: Global,
    schema: &Schema,
    document: NamedText<'_>,
    bounds: Bounds,
    account: &mut Account<'_>,
    output: &mut O,
) -> Result<Status, Fault>
    requires { IsUsable schema.now }
    ensures accepted { result ≡ Ok Status.Accepted → ValidatesDocument bounds (Some schema.now) document.entry.source None }
    ensures reported { result ≡ Ok Status.Reported → (reports : Reports) × ValidatesDocument bounds (Some schema.now) document.entry.source (Some reports) }
{
    match validate_document(alloc, schema, document.source, bounds)? {
        None => {
            accept_document(alloc, document, bounds, account, output)?;
            Ok(Status::Accepted)
        }
        Some(reports) => {
            if let Some(cuts) = cuts_beside(alloc, document, &reports, bounds)? {
                // The project reports these again: both would take twice the memory.
                drop(reports);
                let count = report_cut(alloc, schema, document, &cuts, bounds, account, output);
                drop(cuts);
                count?;
                return Ok(Status::Reported);
            }
            let sources = [document.source];
            let project = project_of(alloc, schema, sources.as_slice(), &reports, bounds)?;
            report_document(
                alloc,
                reports,
                project.as_ref(),
                document,
                bounds,
                account,
                output,
            )?;
            Ok(Status::Reported)
        }
    }
}

/// Nothing is wrong with a document. Its comments are to ignore nothing.
fn accept_document<O: Write>(
    alloc: Global,
    document: NamedText<'_>,
    bounds: Bounds,
    account: &mut Account<'_>,
    output: &mut O,
) -> Result<(), Fault> {
    let texts = [document];
    let sources = [document.source];
    let subject = Subject {
        path: document.path,
        texts: texts.as_slice(),
        sources: sources.as_slice(),
    };
    account.reject(alloc, &[], None, subject, bounds, output)
}

/// Reports what is wrong with a document. The operations on which reports depend are taken from what is reported of it as a project.
pub fn report_document<O: Write>(
    alloc: Global,
    reports: Reports,
    project: Option<&ProjectReports>,
    document: NamedText<'_>,
    bounds: Bounds,
    account: &mut Account<'_>,
    output: &mut O,
) -> Result<(), Fault> {
    let texts = [document];
    let sources = [document.source];
    let subject = Subject {
        path: document.path,
        texts: texts.as_slice(),
        sources: sources.as_slice(),
    };
    account.reject(
        alloc,
        [reports].as_slice(),
        project,
        subject,
        bounds,
        output,
    )
}
