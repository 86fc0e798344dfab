//! Schemas that are answers to introspection queries.

use crate::faults::{Fault, fault_of_output};
use crate::printable::Printable;
use crate::sources::{shown_path, text_or_said};
use crate::statuses::Status;
use graphql_introspection::{IntrospectionError, schema_text};
use graphql_places::Place;
use std::alloc::Global;
use std::io::{Read, Write};
use std::rt::Files;

/// How the name of a file ends that has an answer to an introspection query.
const ANSWER_SUFFIX: &str = ".json";

/// The text of a file of a schema, if it has one. A file whose name ends in `.json` has an answer to an introspection query, and its text is
/// the schema that the answer describes, in the schema definition language. If there is no text, standard error says why.
pub fn schema_text_or_said<R: Files + AllocGlobal, I: Read, F: Write>(
    rt: &R,
    path: &str,
    input: &mut I,
    faults: &mut F,
) -> Result<Option<String>, Fault> {
    let Some(text) = text_or_said(rt, path, input, faults)? else {
        return Ok(None);
    };
    if path.ends_with(ANSWER_SUFFIX) {
        printed_or_said(rt.alloc(), path, text.as_str(), faults)
    } else {
        Ok(Some(text))
    }
}

/// Prints the schema that an answer to an introspection query describes.
pub fn print_schema<R: Files + AllocGlobal, I: Read, O: Write, F: Write>(
    rt: &R,
    path: &str,
    input: &mut I,
    output: &mut O,
    faults: &mut F,
) -> Result<Status, Fault> {
    let Some(answer) = text_or_said(rt, path, input, faults)? else {
        return Ok(Status::Unreadable);
    };
    match printed_or_said(rt.alloc(), path, answer.as_str(), faults)? {
        Some(schema) => {
            output
                .write_all(schema.as_bytes())
                .map_err(fault_of_output)?;
            Ok(Status::Accepted)
        }
        None => Ok(Status::Unreadable),
    }
}

/// The schema that an answer describes. If it describes none, standard error says why.
fn printed_or_said<F: Write>(
    alloc: Global,
    path: &str,
    answer: &str,
    faults: &mut F,
) -> Result<Option<String>, Fault> {
    match schema_text(alloc, answer) {
        Ok(schema) => Ok(Some(schema)),
        Err(IntrospectionError::OutOfMemory) => Err(Fault::OutOfMemory),
        Err(error) => {
            explain(&error, path, answer, faults);
            Ok(None)
        }
    }
}

/// Says on standard error what is wrong with an answer. That this fails changes nothing.
fn explain<F: Write>(error: &IntrospectionError, path: &str, answer: &str, faults: &mut F) {
    let path = Printable(shown_path(path));
    let _ = match error {
        IntrospectionError::OutOfMemory => Ok(()),
        IntrospectionError::InvalidJson { byte } => {
            let place = Place::of_byte(answer, (*byte).min(answer.len()));
            let line = place.line;
            let column = place.column;
            writeln!(
                faults,
                "{path}:{line}:{column}: error: this is not JSON, or is nested too deep"
            )
        }
        IntrospectionError::InvalidMember {
            path: member,
            problem,
        } => {
            let member = Printable(member.as_str());
            writeln!(
                faults,
                "{path}: error: not an answer to an introspection query: {member} {problem}"
            )
        }
    };
}
