//! The files of a schema.

use gqlvalidate_formats::SourceText;
use gqlvalidate_formats::named_texts::NamedText;
use gqlvalidate_formats::schema_texts::BUILT_IN_TEXT;
use gqlvalidate_inputs::faults::Fault;
use gqlvalidate_inputs::introspections::schema_text_or_said;
use gqlvalidate_inputs::sources::{shown_path, text_or_said};
use graphql_nodes::FileId;
use std::alloc::{AllocError, Global};
use std::io::{Read, Write};
use std::rt::Files;

/// What files are read as.
#[derive(Clone, Copy)]
pub enum FileKind {
    /// Files of a schema. Some may have answers to introspection queries.
    Schema,
    /// Executable documents.
    Document,
}

/// What was read of files.
#[derive(Drop)]
pub struct ReadFiles {
    /// Their texts, if each of them has one.
    pub texts: Option<Vec<String>>,
    /// Those that have none, as lines call them.
    pub unreadable: Vec<String>,
}

/// The texts of these files, if all of them have one. What is wrong with the others is said.
pub fn read_files<R: Files + AllocGlobal, I: Read, F: Write>(
    rt: &R,
    paths: &[&str],
    kind: FileKind,
    input: &mut I,
    faults: &mut F,
) -> Result<ReadFiles, Fault> {
    let mut texts = Vec::new(rt.alloc());
    let mut unreadable = Vec::new(rt.alloc());
    for path in paths {
        read_file(rt, path, kind, &mut texts, &mut unreadable, input, faults)?;
    }
    let texts = if unreadable.is_empty() {
        Some(texts)
    } else {
        None
    };
    Ok(ReadFiles { texts, unreadable })
}

/// Adds the text of a file, or the file to those that cannot be read.
fn read_file<R: Files + AllocGlobal, I: Read, F: Write>(
    rt: &R,
    path: &str,
    kind: FileKind,
    texts: &mut Vec<String>,
    unreadable: &mut Vec<String>,
    input: &mut I,
    faults: &mut F,
) -> Result<(), Fault> {
    let read = match kind {
        FileKind::Schema => schema_text_or_said(rt, path, input, faults)?,
        FileKind::Document => text_or_said(rt, path, input, faults)?,
    };
    match read {
        Some(text) => texts.push(text)?,
        None => unreadable.push(String::from_str(rt.alloc(), shown_path(path))?)?,
    }
    Ok(())
}

/// The texts with their paths, behind the definitions that every schema has.
pub fn named_schema<'a>(
    alloc: Global,
    paths: &'a [&'a str],
    texts: &'a [String],
) -> Result<Vec<NamedText<'a>>, AllocError> {
    let mut named = Vec::new(alloc);
    named.push(BUILT_IN_TEXT)?;
    for (position, (path, text)) in paths.iter().zip(texts.iter()).enumerate() {
        named.push(named_text(position, path, text.as_str()))?;
    }
    Ok(named)
}

/// The text of the file at this position of the command line.
pub fn named_text<'a>(position: usize, path: &'a str, text: &'a str) -> NamedText<'a> {
    NamedText {
        path: Some(shown_path(path)),
        source: SourceText {
            file_id: file_id(position),
            text,
        },
    }
}

/// Files are numbered by their positions on the command line, from 1.
fn file_id(position: usize) -> FileId {
    FileId(
        u32::try_from(position)
            .unwrap_or(u32::MAX)
            .saturating_add(1),
    )
}
