//! A schema that is validated for itself.

use gqlvalidate_check::accounts::Account;
use gqlvalidate_check::all_reports_of_schema;
use gqlvalidate_check::bounds::OF_SCHEMA;
use gqlvalidate_check::dialects::{SchemaTexts, dialect_texts, read_schema_in};
use gqlvalidate_check::named_texts::NamedText;
use gqlvalidate_check::presentations::Presentation;
use gqlvalidate_check::schema_files::{FileKind, ReadFiles, named_schema, read_files};
use gqlvalidate_check::schema_reports::{end_unread, extent_of, reject};
use gqlvalidate_check::schema_texts::schema_subject;
use gqlvalidate_inputs::faults::Fault;
use gqlvalidate_inputs::statuses::Status;
use gqlvalidate_inputs::word_paths::{schema_paths, views};
use gqlvalidate_words::Dialect;
use graphql_frontend::{SchemaReading, abandon};
use std::alloc::{AllocError, Global};
use std::io::{Read, Write};
use std::rt::Files;

/// Validates the schema of the files that these words name.
pub fn check_schema<R: Files + AllocGlobal + Clone + Drop, I: Read, O: Write, F: Write>(
    rt: &R,
    words: &[&str],
    dialect: Dialect,
    presentation: Presentation,
    input: &mut I,
    output: &mut O,
    faults: &mut F,
) -> Result<Status, Fault> {
    let Some(files) = schema_paths(rt, words, faults)? else {
        return Ok(Status::Unreadable);
    };
    let paths = views(rt.alloc(), &files)?;
    check_files(rt, &paths, dialect, presentation, input, output, faults)
}

/// Validates the schema of these files.
fn check_files<'a, R: Files + AllocGlobal, I: Read, O: Write, F: Write>(
    rt: &R,
    paths: &'a [&'a str],
    dialect: Dialect,
    presentation: Presentation,
    input: &mut I,
    output: &mut O,
    faults: &mut F,
) -> Result<Status, Fault> {
    let ReadFiles { texts, unreadable } = read_files(rt, paths, FileKind::Schema, input, faults)?;
    let Some(texts) = texts else {
        return end_unread(rt.alloc(), unreadable, presentation, output, faults);
    };
    let named = named_schema(rt.alloc(), paths, &texts)?;
    check_texts(rt.alloc(), &named, dialect, presentation, output, faults)
}

/// Validates the schema of these texts.
fn check_texts<O: Write, F: Write>(
    alloc: Global,
    named: &[NamedText<'_>],
    dialect: Dialect,
    presentation: Presentation,
    output: &mut O,
    faults: &mut F,
) -> Result<Status, Fault> {
    let read = dialect_texts(alloc, named, dialect)?;
    let texts = SchemaTexts::new(alloc, named, &read)?;
    match read_schema_in(alloc, &texts, dialect)? {
        SchemaReading::Accepted(schema) => {
            abandon(schema);
            accept(alloc, named, presentation, output, faults)
        }
        SchemaReading::Rejected(reports) => {
            let subject = schema_subject(&texts.shown, &texts.read);
            let lists = all_reports_of_schema(
                alloc,
                subject.sources,
                reports,
                OF_SCHEMA,
                dialect.federation,
            )?;
            reject(alloc, &lists, subject, presentation, output, faults)
        }
        SchemaReading::LacksIntrospection => Err(Fault::LacksIntrospection),
    }
}

/// Ends a run that has nothing to report of a schema.
fn accept<O: Write, F: Write>(
    alloc: Global,
    named: &[NamedText<'_>],
    presentation: Presentation,
    output: &mut O,
    faults: &mut F,
) -> Result<Status, Fault> {
    let mut account = Account::new(alloc, presentation)?;
    pass_own(&mut account, named)?;
    account.end(alloc, extent_of(named), output, faults)?;
    Ok(Status::Accepted)
}

/// Nothing is reported of the files of a user, which come behind the definitions that every schema has.
fn pass_own(account: &mut Account<'_>, named: &[NamedText<'_>]) -> Result<(), AllocError> {
    for text in named.iter().skip(1) {
        account.pass(text.path)?;
    }
    Ok(())
}
