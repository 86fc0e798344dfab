//! Documents that are validated against two schemas.

ghost use Rattle.std.specs.Prelude.{◌≡◌, None, Some, Ok};
ghost use Rattle.graphql_frontend.specs.Documents.{ValidatesDocument};
ghost use Rattle.graphql_frontend.specs.Schemas.{IsUsable};

use crate::changes::Compared;
use gqlvalidate_inputs::faults::Fault;
use gqlvalidate_inputs::printable::Printable;
use gqlvalidate_inputs::sources::{shown_path, text_or_said};
use gqlvalidate_inputs::statuses::Status;
use gqlvalidate_runs::accounts::Account;
use gqlvalidate_runs::named_texts::{NamedText, Subject};
use gqlvalidate_runs::schema_files::named_text;
use gqlvalidate_uses::mark_used;
use graphql_change_kinds::SchemaChange;
use graphql_documents::documents::Schema;
use graphql_frontend::{Reports, SourceText, ValidationError, validate_document};
use graphql_parser::Bounds;
use std::alloc::{AllocError, Global};
use std::io::{Read, Write};
use std::rt::Files;

/// What became of the documents.
#[derive(Drop)]
pub struct Operations<'a> {
    /// How many there are.
    pub count: usize,
    /// So many were not valid before.
    pub invalid_before: usize,
    /// The paths of those that were valid before and no longer are.
    pub broken: Vec<&'a str>,
    /// Whether all of them could be read.
    pub status: Status,
    /// For each change, whether one of those that were valid before uses what changes.
    pub used: Vec<bool>,
}

/// Two schemas, and what changes from one to the other.
#[derive(Clone, Copy)]
pub struct ComparedSchemas<'a> {
    pub old: &'a Schema,
    pub new: &'a Schema,
    pub changes: &'a [SchemaChange],
}

impl Operations<'_> {
    /// Whether a document uses what the change at this position is about, if there are any documents.
    pub fn use_of(&self, position: usize) -> Option<bool> {
        if self.count == 0 {
            return None;
        }
        self.used.get(position).copied()
    }

    /// Adds how many documents broke, if there are any documents.
    pub fn push_summary(&self, out: &mut String) -> Result<(), AllocError> {
        if self.count == 0 {
            return Ok(());
        }
        self.push_broken(out)?;
        let broken = self.broken.len();
        let count = self.count;
        let invalid = self.invalid_before;
        let used = self.used.iter().filter(|used| **used).count();
        let changes = self.used.len();
        let documents = if count == 1 { "document" } else { "documents" };
        writeln!(
            out,
            "{count} {documents}: {broken} broken, {invalid} not valid before; changes that they use: {used} of {changes}"
        )
    }

    fn push_broken(&self, out: &mut String) -> Result<(), AllocError> {
        for path in &self.broken {
            let path = Printable(shown_path(path));
            writeln!(out, "breaks: {path}")?;
        }
        Ok(())
    }
}

/// What a document is against two schemas.
#[derive(Drop)]
enum Outcome {
    /// It is valid against both.
    StaysValid,
    /// It is reported against the old one.
    WasInvalid,
    /// It is valid against the old one, and this is reported against the new one.
    Breaks(Reports),
}

/// Validates the documents against both schemas, one after another, and reports what is wrong against the new one with those that
/// were valid. One that cannot be read does not end the run.
pub fn check_operations<'a, R: Files + AllocGlobal, I: Read, O: Write, F: Write>(
    rt: &R,
    schemas: ComparedSchemas<'_>,
    compared: Compared<'a>,
    account: &mut Account<'_>,
    input: &mut I,
    output: &mut O,
    faults: &mut F,
) -> Result<Operations<'a>, Fault>
    requires old { IsUsable schemas.old.now }
    requires new { IsUsable schemas.new.now }
{
    let mut operations = Operations {
        count: compared.operations.len(),
        invalid_before: 0,
        broken: Vec::new(rt.alloc()),
        status: Status::Accepted,
        used: none_used(rt.alloc(), schemas.changes)?,
    };
    for path in compared.operations {
        check_operation(
            rt,
            &mut operations,
            path,
            schemas,
            account,
            input,
            output,
            faults,
        )?;
    }
    Ok(operations)
}

/// Validates a document against both schemas.
fn check_operation<'a, R: Files + AllocGlobal, I: Read, O: Write, F: Write>(
    rt: &R,
    operations: &mut Operations<'a>,
    path: &'a str,
    schemas: ComparedSchemas<'_>,
    account: &mut Account<'_>,
    input: &mut I,
    output: &mut O,
    faults: &mut F,
) -> Result<(), Fault>
    requires old { IsUsable schemas.old.now }
    requires new { IsUsable schemas.new.now }
{
    let Some(text) = text_or_said(rt, path, input, faults)? else {
        operations.status = Status::Unreadable;
        return Ok(());
    };
    let document = named_text(0, path, text.as_str());
    let outcome = outcome_of(rt.alloc(), schemas.old, schemas.new, document.source)?;
    mark_changes(rt.alloc(), operations, schemas, text.as_str(), &outcome)?;
    add_outcome(
        rt.alloc(),
        operations,
        path,
        document,
        outcome,
        account,
        output,
    )
}

/// No document uses anything yet.
fn none_used(alloc: Global, changes: &[SchemaChange]) -> Result<Vec<bool>, AllocError> {
    let mut used = Vec::new(alloc);
    for _ in changes {
        used.push(false)?;
    }
    Ok(used)
}

/// Marks the changes of what a document uses, if it was valid before.
fn mark_changes(
    alloc: Global,
    operations: &mut Operations<'_>,
    schemas: ComparedSchemas<'_>,
    text: &str,
    outcome: &Outcome,
) -> Result<(), ValidationError> {
    match outcome {
        Outcome::WasInvalid => Ok(()),
        Outcome::StaysValid | Outcome::Breaks(_) => {
            let used = operations.used.as_mut_slice();
            mark_used(
                alloc,
                schemas.old,
                text,
                Bounds::DEFAULT,
                schemas.changes,
                used,
            )
        }
    }
}

fn outcome_of(
    alloc: Global,
    old: &Schema,
    new: &Schema,
    source: SourceText<'_>,
) -> Result<Outcome, Fault>
    requires old { IsUsable old.now }
    requires new { IsUsable new.now }
    ensures stays { result ≡ Ok Outcome.StaysValid → ValidatesDocument Bounds.DEFAULT (Some old.now) source.entry None × ValidatesDocument Bounds.DEFAULT (Some new.now) source.entry None }
    ensures breaks { (reports : Reports) → result ≡ Ok (Outcome.Breaks reports) →
        ValidatesDocument Bounds.DEFAULT (Some old.now) source.entry None × ValidatesDocument Bounds.DEFAULT (Some new.now) source.entry (Some reports) }
{
    match validate_document(alloc, old, source, Bounds::DEFAULT)? {
        Some(_) => Ok(Outcome::WasInvalid),
        None => match validate_document(alloc, new, source, Bounds::DEFAULT)? {
            None => Ok(Outcome::StaysValid),
            Some(reports) => Ok(Outcome::Breaks(reports)),
        },
    }
}

fn add_outcome<'a, O: Write>(
    alloc: Global,
    operations: &mut Operations<'a>,
    path: &'a str,
    document: NamedText<'_>,
    outcome: Outcome,
    account: &mut Account<'_>,
    output: &mut O,
) -> Result<(), Fault> {
    match outcome {
        Outcome::StaysValid => Ok(()),
        Outcome::WasInvalid => {
            operations.invalid_before = operations.invalid_before.saturating_add(1);
            Ok(())
        }
        Outcome::Breaks(reports) => {
            operations.broken.push(path)?;
            let texts = [document];
            let sources = [document.source];
            let subject = Subject {
                path: document.path,
                texts: texts.as_slice(),
                sources: sources.as_slice(),
            };
            account.report(
                alloc,
                [reports].as_slice(),
                None,
                subject,
                Bounds::DEFAULT,
                output,
            )
        }
    }
}
