//! Validates worked examples into a list that holds a diagnostic already, and collects what their operations answer. What is
//! left must be right, also where an allocation failed: `scripts/refuse-each-request` runs this with each request for memory
//! refused once.

mod collections;

use crate::examples::{build, validate};
use crate::faults::Fault;
use collections::judge_collections;
use graphql_diagnostics::{Details, DiagnosticData, DiagnosticEntry, DiagnosticList};
use graphql_documents::documents::Schema;
use graphql_examples::{BuiltExample, Example, Validated, find, find_example, many_faults, tables};
use graphql_nodes::{FileId, SourceSpan, ValidationError};
use std::alloc::Global;
use std::io::Write;

/// The location of the diagnostic that the list holds before a run.
const EARLIER: SourceSpan = SourceSpan {
    file_id: FileId(9),
    start: 1,
    end: 2,
};

/// Judges the example of that name.
pub fn judge_named(alloc: Global, id: &str) -> Result<(), Fault> {
    let example = find(id).or_else(|| find_example(many_faults::examples(), id));
    judge(alloc, example.ok_or(Fault::UnknownExample)?)
}

/// Judges one example after another, and prints how many there were.
pub fn judge_all<O: Write>(alloc: Global, output: &mut O) -> Result<(), Fault> {
    let mut judged: u32 = 0;
    for examples in tables() {
        judged = judged.saturating_add(judge_each(alloc, examples)?);
    }
    judged = judged.saturating_add(judge_each(alloc, many_faults::examples())?);
    writeln!(output, "{judged} examples")?;
    Ok(())
}

/// Judges the examples of a table, and counts them.
fn judge_each(alloc: Global, examples: &[Example]) -> Result<u32, Fault> {
    let mut judged: u32 = 0;
    for example in examples {
        judge(alloc, example)?;
        judged = judged.saturating_add(1);
    }
    Ok(judged)
}

/// Validates the example twice, first alone, so that all that it reports is known, and then into a list that
/// holds a report; and looks at what is there afterwards. Where memory was refused in the second run, it answers
/// so, once that is as it must be: the earlier report, behind it only reports of the first run, and the types
/// as they were. Last, what its operations answer is collected, twice too.
fn judge(alloc: Global, example: &Example) -> Result<(), Fault> {
    let mut first = build(alloc, example)?;
    let mut expected = DiagnosticList::new(alloc);
    let judged = validate(&mut expected, &mut first)
        .map_err(Fault::from)
        .and_then(|()| judge_second(alloc, example, &expected, &first.schema.0))
        .and_then(|()| judge_fields(alloc, example.id, &first));
    drop(expected);
    drop(first);
    judged
}

/// Collects what the operations of a document answer.
fn judge_fields(
    alloc: Global,
    id: &'static str,
    built_example: &BuiltExample,
) -> Result<(), Fault> {
    match &built_example.validated {
        Validated::Document(document) | Validated::Standalone(document) => {
            judge_collections(alloc, id, &built_example.schema.0, document)
        }
        Validated::FieldSet(_) | Validated::Schema => Ok(()),
    }
}

/// Validates the example into a list that holds a diagnostic, and compares with the first run.
fn judge_second(
    alloc: Global,
    example: &Example,
    expected: &DiagnosticList,
    retained: &Schema,
) -> Result<(), Fault> {
    let before = build(alloc, example)?;
    let judged = judge_example(alloc, example, expected, retained, &before.schema.0);
    drop(before);
    judged
}

fn judge_example(
    alloc: Global,
    example: &Example,
    expected: &DiagnosticList,
    retained: &Schema,
    before: &Schema,
) -> Result<(), Fault> {
    let mut built_example = build(alloc, example)?;
    let mut found = DiagnosticList::new(alloc);
    let judged = match push_earlier(&mut found) {
        Ok(()) => {
            let validated = validate(&mut found, &mut built_example);
            let schema = match validated {
                Ok(()) => retained,
                Err(ValidationError::OutOfMemory) => before,
            };
            judge_found(example.id, &found, expected, validated)
                .and_then(|()| judge_schema(example.id, &built_example.schema.0, schema))
                .and(validated.map_err(Fault::from))
        }
        Err(error) => Err(Fault::from(error)),
    };
    drop(found);
    drop(built_example);
    judged
}

fn push_earlier(found: &mut DiagnosticList) -> Result<(), ValidationError> {
    found.push(
        Some(EARLIER),
        Details::Diagnostic(DiagnosticData::RecursionError),
    )
}

/// The earlier report is first, and behind it those that were expected: all of them, or, after a refusal, the
/// first.
fn judge_found(
    id: &'static str,
    found: &DiagnosticList,
    expected: &DiagnosticList,
    validated: Result<(), ValidationError>,
) -> Result<(), Fault> {
    let mut entries = found.iter();
    if !entries.next().is_some_and(is_earlier) {
        return Err(Fault::Broken(id, "the earlier report is gone"));
    }
    let mut left = expected.iter();
    for entry in entries {
        if left.next() != Some(entry) {
            return Err(Fault::Broken(id, "another report stands there"));
        }
    }
    if validated.is_ok() && left.next().is_some() {
        return Err(Fault::Broken(id, "a report is missing"));
    }
    Ok(())
}

fn is_earlier(entry: &DiagnosticEntry) -> bool {
    entry.location == Some(EARLIER)
        && matches!(
            entry.details,
            Details::Diagnostic(DiagnosticData::RecursionError)
        )
}

/// The schema is that one, with its types in that order.
fn judge_schema(id: &'static str, schema: &Schema, expected: &Schema) -> Result<(), Fault> {
    if schema == expected && schema.types.keys().eq(expected.types.keys()) {
        Ok(())
    } else {
        Err(Fault::Broken(id, "the schema has changed"))
    }
}
