//! The texts of a run: of files, and of the literals in programs.

use crate::client_texts::{answers_fields, say_arguments, texts_as_sent};
use crate::programs::{ProgramTexts, texts_of_program};
use crate::run_paths::Paths;
use gqlvalidate_inputs::faults::Fault;
use gqlvalidate_inputs::sources::{shown_path, text_or_said};
use gqlvalidate_runs::named_texts::NamedText;
use gqlvalidate_words::Dialect;
use graphql_documents::documents::Schema;
use graphql_frontend::{FileId, SourceText};
use graphql_literals::is_program;
use graphql_parser::Bounds;
use graphql_tokens::has_no_token;
use std::alloc::{AllocError, Global};
use std::io::{Read, Write};
use std::rt::Files;

/// A file of the run, with its text.
#[derive(Drop)]
pub struct ReadFile {
    path: String,
    text: String,
    /// What is read of a program: texts in which all but some of its literals is blank; or of a document, without fields that its client answers.
    literals: Option<Vec<String>>,
}

impl ReadFile {
    /// Reads the file as its client sends it, if that is in another way.
    pub fn read_as_sent<F: Write>(
        &mut self,
        alloc: Global,
        schema: &Schema,
        bounds: Bounds,
        dialect: Dialect,
        faults: &mut F,
    ) -> Result<(), Fault> {
        say_arguments(self.path.as_str(), self.text.as_str(), dialect, faults);
        if !answers_fields(dialect) {
            return Ok(());
        }
        let texts = self.texts(alloc)?;
        let sent = texts_as_sent(alloc, schema, &texts, bounds)?;
        drop(texts);
        if sent.is_some() {
            self.literals = sent;
        }
        Ok(())
    }

    /// What is read of it.
    fn texts(&self, alloc: Global) -> Result<Vec<&str>, AllocError> {
        let mut texts = Vec::new(alloc);
        match &self.literals {
            Some(literals) => add_views(&mut texts, literals)?,
            None => texts.push(self.text.as_str())?,
        }
        Ok(texts)
    }

    /// Whether what is read of it has no token.
    pub fn has_no_token(&self) -> bool {
        match &self.literals {
            Some(literals) => literals
                .iter()
                .all(|literal| has_no_token(literal.as_str())),
            None => has_no_token(self.text.as_str()),
        }
    }
}

fn add_views<'a>(texts: &mut Vec<&'a str>, strings: &'a [String]) -> Result<(), AllocError> {
    for string in strings {
        texts.push(string.as_str())?;
    }
    Ok(())
}

/// The files that could be read.
#[derive(Drop)]
pub struct ReadFiles {
    pub files: Vec<ReadFile>,
    /// Those that could not, as lines call them.
    pub unreadable: Vec<String>,
    /// Each literal of a program is read.
    pub has_all_literals: bool,
}

impl ReadFiles {
    /// Adds a file with this text.
    fn add<F: Write>(
        &mut self,
        alloc: Global,
        path: &str,
        text: String,
        faults: &mut F,
    ) -> Result<(), Fault> {
        if !is_program(path) {
            return self.push(alloc, path, text, None);
        }
        match texts_of_program(alloc, path, text.as_str(), faults)? {
            Some(ProgramTexts { texts, is_all }) => {
                self.has_all_literals = self.has_all_literals && is_all;
                self.push(alloc, path, text, Some(texts))
            }
            None => self.push_unreadable(alloc, path),
        }
    }

    fn push(
        &mut self,
        alloc: Global,
        path: &str,
        text: String,
        literals: Option<Vec<String>>,
    ) -> Result<(), Fault> {
        let path = String::from_str(alloc, shown_path(path))?;
        self.files.push(ReadFile {
            path,
            text,
            literals,
        })?;
        Ok(())
    }

    fn push_unreadable(&mut self, alloc: Global, path: &str) -> Result<(), Fault> {
        self.unreadable
            .push(String::from_str(alloc, shown_path(path))?)?;
        Ok(())
    }
}

/// The texts of these files of a run. What is wrong with those that have none is said.
pub fn read_files<R: Files + AllocGlobal, I: Read, F: Write>(
    rt: &R,
    run: Paths<'_>,
    paths: &[&str],
    input: &mut I,
    faults: &mut F,
) -> Result<ReadFiles, Fault> {
    let mut read = ReadFiles {
        files: Vec::new(rt.alloc()),
        unreadable: Vec::new(rt.alloc()),
        has_all_literals: true,
    };
    for path in paths {
        match text_or_said(rt, run.source(path), input, faults)? {
            Some(text) => read.add(rt.alloc(), path, text, faults)?,
            None => read.push_unreadable(rt.alloc(), path)?,
        }
    }
    Ok(read)
}

/// Texts of a run, each as it is shown and as it is read: under the same number, and with each byte at the same place.
#[derive(Drop)]
pub struct RunTexts<'a> {
    /// The number of the first text.
    first: u32,
    pub shown: Vec<NamedText<'a>>,
    pub read: Vec<SourceText<'a>>,
}

impl<'a> RunTexts<'a> {
    /// No texts yet. Files of so many texts come before them, which are numbered from 1.
    pub fn new(alloc: Global, before: usize) -> RunTexts<'a> {
        let before = u32::try_from(before).unwrap_or(u32::MAX);
        RunTexts::from_number(alloc, before.saturating_add(1))
    }

    /// No texts yet. The first one will have this number.
    pub fn from_number(alloc: Global, first: u32) -> RunTexts<'a> {
        RunTexts {
            first,
            shown: Vec::new(alloc),
            read: Vec::new(alloc),
        }
    }

    /// Adds the texts of the files.
    pub fn add_files(&mut self, files: &'a [ReadFile]) -> Result<(), AllocError> {
        for file in files {
            let path = Some(file.path.as_str());
            let text = file.text.as_str();
            match &file.literals {
                Some(literals) => self.add_parts(path, text, literals)?,
                None => self.push(path, text, text)?,
            }
        }
        Ok(())
    }

    /// Adds texts that are read of this one.
    pub fn add_parts(
        &mut self,
        path: Option<&'a str>,
        shown: &'a str,
        parts: &'a [String],
    ) -> Result<(), AllocError> {
        for part in parts {
            self.push(path, shown, part.as_str())?;
        }
        Ok(())
    }

    /// Adds a text, as it is shown and as it is read.
    pub fn push(
        &mut self,
        path: Option<&'a str>,
        shown: &'a str,
        read: &'a str,
    ) -> Result<(), AllocError> {
        let position = u32::try_from(self.shown.len()).unwrap_or(u32::MAX);
        let file_id = FileId(self.first.saturating_add(position));
        let source = SourceText {
            file_id,
            text: shown,
        };
        self.shown.push(NamedText { path, source })?;
        self.read.push(SourceText {
            file_id,
            text: read,
        })?;
        Ok(())
    }
}
