//! The texts of files.

use crate::faults::Fault;
use crate::printable::Printable;
use gqlvalidate_words::requests::STANDARD_INPUT;
use graphql_places::Place;
use std::alloc::Global;
use std::io::{Read, Write};
use std::rt::Files;
use std::{fs, io};

/// What a line calls a file.
pub fn shown_path(path: &str) -> &str {
    if path == STANDARD_INPUT {
        "<stdin>"
    } else {
        path
    }
}

/// Why a file has no text.
#[derive(Drop)]
enum SourceError {
    OutOfMemory,
    /// It could not be read.
    NotRead(io::Error),
    /// From this place on it is no UTF-8.
    NotUtf8(Place),
}

impl SourceError {
    /// Says on standard error what is wrong with the file. That this fails changes nothing.
    fn explain<F: Write>(&self, path: &str, faults: &mut F) {
        let path = Printable(shown_path(path));
        let _ = match self {
            SourceError::OutOfMemory => Ok(()),
            SourceError::NotRead(error) => writeln!(faults, "{path}: error: {error}"),
            SourceError::NotUtf8(place) => {
                let line = place.line;
                let column = place.column;
                writeln!(faults, "{path}:{line}:{column}: error: not UTF-8")
            }
        };
    }
}

/// Says on standard error that standard input could not be read.
pub fn explain_input<F: Write>(error: &io::Error, faults: &mut F) {
    let path = shown_path(STANDARD_INPUT);
    let _ = writeln!(faults, "{path}: error: {error}");
}

/// The text of a file, if it has one. If not, it is said on standard error why.
pub fn text_or_said<R: Files + AllocGlobal, I: Read, F: Write>(
    rt: &R,
    path: &str,
    input: &mut I,
    faults: &mut F,
) -> Result<Option<String>, Fault> {
    match source(rt, path, input) {
        Ok(text) => Ok(Some(text)),
        Err(SourceError::OutOfMemory) => Err(Fault::OutOfMemory),
        Err(error) => {
            error.explain(path, faults);
            Ok(None)
        }
    }
}

/// The text of a file, or of standard input where the path is `-`.
fn source<R: Files + AllocGlobal, I: Read>(
    rt: &R,
    path: &str,
    input: &mut I,
) -> Result<String, SourceError> {
    let read = if path == STANDARD_INPUT {
        read_all(rt.alloc(), input)
    } else {
        fs::read(rt, path)
    };
    match read {
        Ok(bytes) => text_of(bytes),
        Err(error) => Err(error_of_read(error)),
    }
}

fn read_all<I: Read>(alloc: Global, input: &mut I) -> io::Result<Vec<u8>> {
    let mut bytes = Vec::new(alloc);
    input.read_to_end(&mut bytes)?;
    Ok(bytes)
}

fn error_of_read(error: io::Error) -> SourceError {
    match error.kind() {
        io::ErrorKind::OutOfMemory => SourceError::OutOfMemory,
        _ => SourceError::NotRead(error),
    }
}

fn text_of(bytes: Vec<u8>) -> Result<String, SourceError> {
    match String::from_utf8(bytes) {
        Ok(text) => Ok(text),
        Err(error) => Err(SourceError::NotUtf8(end_of_text(error.as_bytes()))),
    }
}

/// The place behind the bytes that are UTF-8 from the first on.
fn end_of_text(bytes: &[u8]) -> Place {
    let text = match std::str::from_utf8(bytes) {
        Ok(text) => text,
        Err(error) => valid_part(bytes, error.valid_up_to()),
    };
    Place::of_byte(text, text.len())
}

fn valid_part(bytes: &[u8], end: usize) -> &str {
    let valid = bytes.get(..end).unwrap_or(&[]);
    std::str::from_utf8(valid).unwrap_or("")
}
