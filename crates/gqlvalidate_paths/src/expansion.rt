//! The files that words name.

use crate::folders::{UnreadFolder, files_below};
use crate::plain::{folder_of, is_pattern, is_within, plain};
use gqlvalidate_patterns::{Pattern, PatternError};
use std::alloc::{AllocError, AllocFailed, Global};
use std::collections::BTreeSet;
use std::fs;
use std::rt::Files;

/// The word that names standard input.
const STANDARD_INPUT: &str = "-";

/// The files that words name.
#[derive(Drop)]
pub struct Expansion {
    /// The paths of files, each file once: in the order of the words, and those of one word in the order of their bytes.
    pub files: Vec<String>,
    /// The folders that could not be read.
    pub unread: Vec<UnreadFolder>,
}

/// Why words name no files.
#[derive(Debug, Drop)]
pub enum PathError {
    OutOfMemory,
    /// The word is not well written as a pattern.
    BadPattern(String, PatternError),
    /// The pattern matches no file.
    NoFile(String),
}

impl From<AllocError> for PathError {
    fn from(_refusal: AllocError) -> PathError {
        PathError::OutOfMemory
    }
}

impl<T: Drop> From<AllocFailed<T>> for PathError {
    fn from(_refusal: AllocFailed<T>) -> PathError {
        PathError::OutOfMemory
    }
}

/// The files that these words name. A word is the path of a file, or `-`; or the path of a folder, and names the files below it
/// whose names end in `.graphql` or `.gql`; or a pattern, and names the files whose paths it matches. A word that begins with `!` takes
/// out files that the words before it name, if the rest names them or a folder around them. Links in folders are not followed.
///
/// The error says which pattern is not well written or matches no file, or that an allocation failed.
pub fn expand<R: Files + AllocGlobal + Clone + Drop>(
    rt: &R,
    words: &[&str],
) -> Result<Expansion, PathError> {
    let mut selection = Selection::new(rt.alloc());
    for word in words {
        selection.add(rt, word)?;
    }
    Ok(Expansion {
        files: selection.files,
        unread: selection.unread,
    })
}

/// The files that are none of the others, in their order.
pub fn without(
    alloc: Global,
    files: Vec<String>,
    others: &[String],
) -> Result<Vec<String>, AllocError> {
    let others = plain_paths(alloc, others)?;
    let mut kept = Vec::new(alloc);
    for file in files {
        if !others.contains(&plain(alloc, file.as_str())?) {
            kept.push(file)?;
        }
    }
    Ok(kept)
}

fn plain_paths(alloc: Global, files: &[String]) -> Result<BTreeSet<String>, AllocError> {
    let mut paths = BTreeSet::new(alloc);
    for file in files {
        paths.insert(plain(alloc, file.as_str())?)?;
    }
    Ok(paths)
}

/// The files that the words until now name.
#[derive(Drop)]
struct Selection {
    files: Vec<String>,
    /// Their paths, plain.
    paths: BTreeSet<String>,
    unread: Vec<UnreadFolder>,
}

impl Selection {
    fn new(alloc: Global) -> Selection {
        Selection {
            files: Vec::new(alloc),
            paths: BTreeSet::new(alloc),
            unread: Vec::new(alloc),
        }
    }

    /// Adds the files that a word names, or takes them out.
    fn add<R: Files + AllocGlobal + Clone + Drop>(
        &mut self,
        rt: &R,
        word: &str,
    ) -> Result<(), PathError> {
        let alloc = rt.alloc();
        if let Some(rest) = word.strip_prefix('!') {
            return self.take_out(alloc, word, rest);
        }
        if word == STANDARD_INPUT {
            return Ok(self.add_file(alloc, word)?);
        }
        match fs::metadata(rt, word) {
            Ok(metadata) if metadata.is_dir() => Ok(self.add_folder(rt, word)?),
            Ok(_) => Ok(self.add_file(alloc, word)?),
            Err(_) if is_pattern(word) => self.add_pattern(rt, word),
            Err(_) => Ok(self.add_file(alloc, word)?),
        }
    }

    /// Adds a file, if it is not there yet.
    fn add_file(&mut self, alloc: Global, path: &str) -> Result<(), AllocError> {
        if self.paths.insert(plain(alloc, path)?)? {
            self.files.push(String::from_str(alloc, path)?)?;
        }
        Ok(())
    }

    /// Adds the documents below a folder.
    fn add_folder<R: Files + AllocGlobal + Clone + Drop>(
        &mut self,
        rt: &R,
        word: &str,
    ) -> Result<(), AllocError> {
        let folder = plain(rt.alloc(), word)?;
        let files = files_below(rt, folder.as_str(), &mut self.unread)?;
        for file in &files {
            if is_document(file.as_str()) {
                self.add_file(rt.alloc(), file.as_str())?;
            }
        }
        Ok(())
    }

    /// Adds the files whose paths the pattern matches.
    fn add_pattern<R: Files + AllocGlobal + Clone + Drop>(
        &mut self,
        rt: &R,
        word: &str,
    ) -> Result<(), PathError> {
        let alloc = rt.alloc();
        let text = plain(alloc, word)?;
        let pattern = parsed(alloc, word, text.as_str())?;
        let folder = folder_of(alloc, text.as_str())?;
        if fs::metadata(rt, folder.as_str()).is_err() {
            return Err(PathError::NoFile(String::from_str(alloc, word)?));
        }
        let unread = self.unread.len();
        let files = files_below(rt, folder.as_str(), &mut self.unread)?;
        let stands_for_one = self.add_matching(alloc, &pattern, &files)?;
        if stands_for_one || self.unread.len() > unread {
            Ok(())
        } else {
            Err(PathError::NoFile(String::from_str(alloc, word)?))
        }
    }

    /// Adds those of the files that the pattern matches, and answers whether there is one.
    fn add_matching(
        &mut self,
        alloc: Global,
        pattern: &Pattern,
        files: &[String],
    ) -> Result<bool, AllocError> {
        let mut stands_for_one = false;
        for file in files {
            if pattern.matches(alloc, file.as_str())? {
                stands_for_one = true;
                self.add_file(alloc, file.as_str())?;
            }
        }
        Ok(stands_for_one)
    }

    /// Takes out the files that the rest of the word names.
    fn take_out(&mut self, alloc: Global, word: &str, rest: &str) -> Result<(), PathError> {
        let text = plain(alloc, rest)?;
        let pattern = parsed(alloc, word, text.as_str())?;
        let mut files = Vec::new(alloc);
        let mut paths = BTreeSet::new(alloc);
        for file in &self.files {
            let path = plain(alloc, file.as_str())?;
            if is_within(path.as_str(), text.as_str()) || pattern.matches(alloc, path.as_str())? {
                continue;
            }
            files.push(String::from_str(alloc, file.as_str())?)?;
            paths.insert(path)?;
        }
        self.files = files;
        self.paths = paths;
        Ok(())
    }
}

/// The pattern that the text writes, which is the word in its plain form.
fn parsed(alloc: Global, word: &str, text: &str) -> Result<Pattern, PathError> {
    match Pattern::parse(alloc, text) {
        Ok(pattern) => Ok(pattern),
        Err(PatternError::OutOfMemory) => Err(PathError::OutOfMemory),
        Err(error) => Err(PathError::BadPattern(String::from_str(alloc, word)?, error)),
    }
}

/// Whether a folder that is named names the file: its name is that of a document.
fn is_document(path: &str) -> bool {
    path.ends_with(".graphql") || path.ends_with(".gql")
}
