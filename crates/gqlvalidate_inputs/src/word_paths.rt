//! The files that words of a command line name.

use crate::faults::Fault;
use crate::printable::Printable;
use gqlvalidate_paths::{Expansion, PathError, expand};
use std::alloc::{AllocError, Global};
use std::io::Write;
use std::rt::Files;

/// The files of a schema that these words name. None if a folder cannot be read, which standard error says.
pub fn schema_paths<R: Files + AllocGlobal + Clone + Drop, F: Write>(
    rt: &R,
    words: &[&str],
    faults: &mut F,
) -> Result<Option<Vec<String>>, Fault> {
    let expansion = expanded(rt, words, faults)?;
    if expansion.unread.is_empty() {
        Ok(Some(expansion.files))
    } else {
        Ok(None)
    }
}

/// The files that the words name. Standard error says which folders cannot be read, and what is wrong with a word.
pub fn expanded<R: Files + AllocGlobal + Clone + Drop, F: Write>(
    rt: &R,
    words: &[&str],
    faults: &mut F,
) -> Result<Expansion, Fault> {
    match expand(rt, words) {
        Ok(expansion) => {
            say_unread(&expansion, faults);
            Ok(expansion)
        }
        Err(error) => Err(fault_of(&error, faults)),
    }
}

fn say_unread<F: Write>(expansion: &Expansion, faults: &mut F) {
    for folder in &expansion.unread {
        let path = Printable(folder.path.as_str());
        let error = &folder.error;
        let _ = writeln!(faults, "{path}: error: {error}");
    }
}

/// Says what is wrong with a word.
fn fault_of<F: Write>(error: &PathError, faults: &mut F) -> Fault {
    match error {
        PathError::OutOfMemory => Fault::OutOfMemory,
        PathError::BadPattern(word, why) => {
            let word = Printable(word.as_str());
            let _ = writeln!(faults, "{word}: error: {why}");
            Fault::WordRefused
        }
        PathError::NoFile(word) => {
            let word = Printable(word.as_str());
            let _ = writeln!(faults, "{word}: error: no file has such a path");
            Fault::WordRefused
        }
    }
}

/// Lists the paths as string slices, in the same order. The only error is a failed allocation.
pub fn views(alloc: Global, paths: &[String]) -> Result<Vec<&str>, AllocError> {
    let mut views = Vec::new(alloc);
    for path in paths {
        views.push(path.as_str())?;
    }
    Ok(views)
}
