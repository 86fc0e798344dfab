//! The literals of programs, each a text of its own.

use gqlvalidate_inputs::faults::Fault;
use gqlvalidate_inputs::printable::Printable;
use gqlvalidate_inputs::sources::shown_path;
use graphql_literals::{Plucked, SkipReason, Skipped, literals_in, text_of_literal};
use graphql_places::Place;
use std::alloc::Global;
use std::io::Write;

/// As many bytes the texts of a program's literals have at most, with their blanks, for each byte of the program.
const MOST_BYTES: usize = 64;

/// As many bytes they may have besides.
const FURTHER_BYTES: usize = 1_048_576;

/// What is read of a program.
#[derive(Drop)]
pub struct ProgramTexts {
    /// In each of them, all but one literal is blank.
    pub texts: Vec<String>,
    /// Each literal is read.
    pub is_all: bool,
}

/// The texts of a program's literals, in order. A literal that is skipped is said on standard error. None, if they would take too many bytes,
/// which is said as well.
pub fn texts_of_program<F: Write>(
    alloc: Global,
    path: &str,
    program: &str,
    faults: &mut F,
) -> Result<Option<ProgramTexts>, Fault> {
    let literals = literals_in(alloc, program)?;
    if bytes_of(&literals) > most_bytes(program) {
        explain_size(path, faults);
        return Ok(None);
    }
    let mut read = ProgramTexts {
        texts: Vec::new(alloc),
        is_all: true,
    };
    for literal in &literals {
        read.add(alloc, path, program, literal, faults)?;
    }
    Ok(Some(read))
}

/// How many bytes the texts of a program's literals may have.
fn most_bytes(program: &str) -> usize {
    program
        .len()
        .saturating_mul(MOST_BYTES)
        .saturating_add(FURTHER_BYTES)
}

/// How many bytes the texts of literals have: each begins with the program.
fn bytes_of(literals: &[Plucked]) -> usize {
    let mut bytes = 0_usize;
    for literal in literals {
        if let Plucked::Literal(literal) = literal {
            bytes = bytes.saturating_add(literal.end);
        }
    }
    bytes
}

impl ProgramTexts {
    /// Adds the text of a literal, unless it is skipped.
    fn add<F: Write>(
        &mut self,
        alloc: Global,
        path: &str,
        program: &str,
        literal: &Plucked,
        faults: &mut F,
    ) -> Result<(), Fault> {
        match literal {
            Plucked::Literal(literal) => {
                if let Some(text) = text_of_literal(alloc, program, literal)? {
                    self.texts.push(text)?;
                }
            }
            Plucked::Skipped(skipped) => {
                self.is_all = false;
                explain_skipped(path, program, *skipped, faults);
            }
        }
        Ok(())
    }
}

/// Says on standard error why a literal is skipped. That this fails changes nothing.
fn explain_skipped<F: Write>(path: &str, program: &str, skipped: Skipped, faults: &mut F) {
    let path = Printable(shown_path(path));
    let Place { line, column } = Place::of_byte(program, skipped.part.start.min(program.len()));
    let why = match skipped.reason {
        SkipReason::Interpolation => {
            "the literal is not checked, as this is inserted into a definition"
        }
        SkipReason::Unclosed => "the literal is not checked, as it does not end",
    };
    let _ = writeln!(faults, "{path}:{line}:{column}: warning: {why}");
}

/// Says on standard error that a program has too many literals. That this fails changes nothing.
fn explain_size<F: Write>(path: &str, faults: &mut F) {
    let path = Printable(shown_path(path));
    let _ = writeln!(
        faults,
        "{path}: error: too many literals: leave the program out, or write its documents in files of their own"
    );
}
