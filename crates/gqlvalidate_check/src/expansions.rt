//! The files of a run, and which of them are shown.

use crate::check::check;
use gqlvalidate_paths::plain::plain;
use gqlvalidate_paths::{Expansion, without};
use gqlvalidate_sources::Paths;
use gqlvalidate_sources::inputs::faults::Fault;
use gqlvalidate_sources::inputs::sources::text_or_said;
use gqlvalidate_sources::inputs::statuses::Status;
use gqlvalidate_sources::inputs::word_paths::{expanded, schema_paths, views};
use gqlvalidate_sources::runs::policies::Policy;
use gqlvalidate_sources::runs::presentations::Presentation;
use gqlvalidate_watching::Kept;
use gqlvalidate_words::{Dialect, Grouping, PathEnds, PathList};
use graphql_parser::Bounds;
use std::alloc::{AllocError, Global};
use std::io::{Read, Write};
use std::rt::Files;

/// The words of a run, and what its documents may take.
#[derive(Clone, Copy)]
pub struct Words<'a> {
    pub schema: &'a [&'a str],
    pub documents: &'a [&'a str],
    /// The list of further words for documents.
    pub files_from: Option<PathList<'a>>,
    pub fragments: &'a [&'a str],
    /// The files whose reports are shown; all, if there are none.
    pub only: &'a [&'a str],
    /// The document whose text is that of standard input.
    pub stdin_name: Option<&'a str>,
    pub grouping: Grouping,
    pub bounds: Bounds,
    /// Which reports are errors, and which are not shown.
    pub policy: Policy<'a>,
    pub dialect: Dialect,
}

impl Words<'_> {
    /// Whether a word, or a list, names documents.
    pub fn names_documents(&self) -> bool {
        !self.documents.is_empty() || self.files_from.is_some()
    }

    /// Whether words name a schema and documents.
    pub fn is_complete(&self) -> bool {
        !self.schema.is_empty() && (self.names_documents() || self.stdin_name.is_some())
    }
}

/// The files of a run.
#[derive(Drop)]
struct FilesOfRun {
    schema: Vec<String>,
    documents: Vec<String>,
    fragments: Vec<String>,
    /// The documents and the files of fragments whose reports are not shown.
    hidden: Vec<String>,
    /// The document whose text is that of standard input.
    from_stdin: Option<String>,
    /// Each folder of documents and of fragments was read.
    is_all: bool,
}

/// Files that words name.
#[derive(Drop)]
struct FoundFiles {
    files: Vec<String>,
    /// Each folder was read.
    is_all: bool,
}

/// Validates the schema and the documents that these words name, with what the last run kept.
pub fn check_words<R: Files + AllocGlobal + Clone + Drop, I: Read, O: Write, F: Write>(
    rt: &R,
    words: Words<'_>,
    presentation: Presentation,
    kept: &mut Kept,
    input: &mut I,
    output: &mut O,
    faults: &mut F,
) -> Result<Status, Fault> {
    let Some(further) = further_words(rt, words.files_from, input, faults)? else {
        return Ok(Status::Unreadable);
    };
    let files = files_of(rt, words, &further, faults);
    drop(further);
    let Some(files) = files? else {
        return Ok(Status::Unreadable);
    };
    let status = check_run(rt, &files, words, presentation, kept, input, output, faults);
    drop(files);
    status
}

/// Validates the schema and the documents of these files.
fn check_run<R: Files + AllocGlobal, I: Read, O: Write, F: Write>(
    rt: &R,
    files: &FilesOfRun,
    words: Words<'_>,
    presentation: Presentation,
    kept: &mut Kept,
    input: &mut I,
    output: &mut O,
    faults: &mut F,
) -> Result<Status, Fault> {
    let schema = views(rt.alloc(), &files.schema)?;
    let documents = views(rt.alloc(), &files.documents)?;
    let paths = Paths {
        schema: &schema,
        documents: &documents,
        fragments: &[],
        hidden: &[],
        is_all: files.is_all,
        from_stdin: files.from_stdin.as_ref().map(|file| file.as_str()),
        grouping: words.grouping,
        bounds: words.bounds,
        policy: words.policy,
        dialect: words.dialect,
    };
    let status = check_with_lent(rt, files, paths, presentation, kept, input, output, faults)?;
    if files.is_all {
        Ok(status)
    } else {
        Ok(status.with(Status::Unreadable))
    }
}

/// Validates the schema and the documents of these paths, with the fragments that files of the run lend.
fn check_with_lent<R: Files + AllocGlobal, I: Read, O: Write, F: Write>(
    rt: &R,
    files: &FilesOfRun,
    paths: Paths<'_>,
    presentation: Presentation,
    kept: &mut Kept,
    input: &mut I,
    output: &mut O,
    faults: &mut F,
) -> Result<Status, Fault> {
    let fragments = views(rt.alloc(), &files.fragments)?;
    let hidden = views(rt.alloc(), &files.hidden)?;
    let paths = Paths {
        fragments: &fragments,
        hidden: &hidden,
        ..paths
    };
    check(rt, paths, presentation, kept, input, output, faults)
}

/// The text with further words, which is empty if there are none, if it can be read.
fn further_words<R: Files + AllocGlobal, I: Read, F: Write>(
    rt: &R,
    list: Option<PathList<'_>>,
    input: &mut I,
    faults: &mut F,
) -> Result<Option<String>, Fault> {
    match list {
        Some(list) => text_or_said(rt, list.file, input, faults),
        None => Ok(Some(String::new(rt.alloc()))),
    }
}

/// The files that the words and the lines of this text name. None, if a folder of the schema cannot be read. A file of the schema is no
/// document too, and a document lends nothing besides.
fn files_of<R: Files + AllocGlobal + Clone + Drop, F: Write>(
    rt: &R,
    words: Words<'_>,
    further: &str,
    faults: &mut F,
) -> Result<Option<FilesOfRun>, Fault> {
    let Some(schema) = schema_paths(rt, words.schema, faults)? else {
        return Ok(None);
    };
    let ends = words.files_from.map(|list| list.ends);
    let all_words = with_further(rt.alloc(), words.documents, further, ends)?;
    let documents = found_files(rt, &all_words, &schema, faults);
    drop(all_words);
    let mut documents = documents?;
    let from_stdin = match words.stdin_name {
        Some(name) => Some(listed(rt.alloc(), name, &mut documents.files)?),
        None => None,
    };
    let lent = found_files(rt, words.fragments, &schema, faults)?;
    let is_all = documents.is_all && lent.is_all;
    if documents.files.is_empty() && is_all {
        return Err(Fault::NoDocument);
    }
    let fragments = without(rt.alloc(), lent.files, &documents.files)?;
    let hidden = hidden(rt, words.only, &documents.files, &fragments, faults)?;
    Ok(Some(FilesOfRun {
        schema,
        documents: documents.files,
        fragments,
        hidden,
        from_stdin,
        is_all,
    }))
}

/// The file among these that has this path. If there is none, the path is added.
fn listed(alloc: Global, path: &str, files: &mut Vec<String>) -> Result<String, AllocError> {
    let plain_path = plain(alloc, path)?;
    for file in files.iter() {
        if plain(alloc, file.as_str())? == plain_path {
            return String::from_str(alloc, file.as_str());
        }
    }
    files.push(String::from_str(alloc, path)?)?;
    String::from_str(alloc, path)
}

/// The files that words name, without those of the schema.
fn found_files<R: Files + AllocGlobal + Clone + Drop, F: Write>(
    rt: &R,
    words: &[&str],
    schema: &[String],
    faults: &mut F,
) -> Result<FoundFiles, Fault> {
    let Expansion { files, unread } = expanded(rt, words, faults)?;
    let is_all = unread.is_empty();
    drop(unread);
    Ok(FoundFiles {
        files: without(rt.alloc(), files, schema)?,
        is_all,
    })
}

/// The words, and then the paths of the text that are not empty. They end with line ends, unless they end with null bytes.
fn with_further<'a>(
    alloc: Global,
    words: &[&'a str],
    text: &'a str,
    ends: Option<PathEnds>,
) -> Result<Vec<&'a str>, AllocError> {
    let mut all = Vec::from_slice(alloc, words)?;
    match ends {
        Some(PathEnds::Null) => add_ended(text, &mut all)?,
        _ => add_lines(text, &mut all)?,
    }
    Ok(all)
}

/// Adds the lines of the text that are not empty.
fn add_lines<'a>(text: &'a str, all: &mut Vec<&'a str>) -> Result<(), AllocError> {
    for line in text.lines() {
        if !line.is_empty() {
            all.push(line)?;
        }
    }
    Ok(())
}

/// Adds the parts of the text that end with null bytes and are not empty.
fn add_ended<'a>(text: &'a str, all: &mut Vec<&'a str>) -> Result<(), AllocError> {
    for path in text.split('\0') {
        if !path.is_empty() {
            all.push(path)?;
        }
    }
    Ok(())
}

/// Those of these files that no word names. None, if there are no words.
fn hidden<R: Files + AllocGlobal + Clone + Drop, F: Write>(
    rt: &R,
    only: &[&str],
    documents: &[String],
    fragments: &[String],
    faults: &mut F,
) -> Result<Vec<String>, Fault> {
    let alloc = rt.alloc();
    let mut all = Vec::new(alloc);
    if only.is_empty() {
        return Ok(all);
    }
    let shown = expanded(rt, only, faults)?;
    for file in documents.iter().chain(fragments.iter()) {
        all.push(String::from_str(alloc, file.as_str())?)?;
    }
    Ok(without(alloc, all, &shown.files)?)
}
