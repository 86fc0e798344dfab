//! Whether texts are GraphQL documents.

use crate::check::report_document;
use gqlvalidate_sources::inputs::faults::Fault;
use gqlvalidate_sources::inputs::sources::{shown_path, text_or_said};
use gqlvalidate_sources::inputs::statuses::Status;
use gqlvalidate_sources::runs::accounts::{Account, Extent, Whole};
use gqlvalidate_sources::runs::named_texts::NamedText;
use gqlvalidate_sources::runs::presentations::Presentation;
use gqlvalidate_sources::runs::schema_files::named_text;
use graphql_frontend::{Reports, SyntaxReport, syntax_error_of};
use graphql_parser::Bounds;
use std::alloc::Global;
use std::io::{Read, Write};
use std::rt::Files;

/// Reports which of these files are no documents. One that cannot be read does not end the run.
pub fn check_syntax<R: Files + AllocGlobal, I: Read, O: Write, F: Write>(
    rt: &R,
    paths: &[&str],
    presentation: Presentation,
    input: &mut I,
    output: &mut O,
    faults: &mut F,
) -> Result<Status, Fault> {
    let mut account = Account::new(rt.alloc(), presentation)?;
    let mut status = Status::Accepted;
    for (position, path) in paths.iter().enumerate() {
        let checked = check_file(rt, position, path, &mut account, input, output, faults)?;
        status = status.with(checked);
    }
    let extent = Extent {
        whole: Whole::Documents(paths.len()),
        schema_files: 0,
    };
    account.end(rt.alloc(), extent, output, faults)?;
    Ok(status)
}

/// Checks a file: one that cannot be read does not end the run.
fn check_file<R: Files + AllocGlobal, I: Read, O: Write, F: Write>(
    rt: &R,
    position: usize,
    path: &str,
    account: &mut Account<'_>,
    input: &mut I,
    output: &mut O,
    faults: &mut F,
) -> Result<Status, Fault> {
    let Some(text) = text_or_said(rt, path, input, faults)? else {
        account.add_unreadable(rt.alloc(), shown_path(path))?;
        return Ok(Status::Unreadable);
    };
    let named = named_text(position, path, text.as_str());
    check_text(rt.alloc(), named, account, output)
}

/// Reports a text that is no document.
fn check_text<O: Write>(
    alloc: Global,
    named: NamedText<'_>,
    account: &mut Account<'_>,
    output: &mut O,
) -> Result<Status, Fault> {
    match syntax_error_of(alloc, named.source, Bounds::DEFAULT)? {
        None => {
            account.accept(named.path)?;
            Ok(Status::Accepted)
        }
        Some(error) => {
            let file_id = named.source.file_id;
            let mut errors = Vec::new(alloc);
            errors.push(SyntaxReport { file_id, error })?;
            let reports = Reports::Syntax(errors);
            report_document(
                alloc,
                reports,
                None,
                named,
                Bounds::DEFAULT,
                account,
                output,
            )?;
            Ok(Status::Reported)
        }
    }
}
