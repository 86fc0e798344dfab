use crate::statuses::Status;
use graphql_nodes::ValidationError;
use std::alloc::{AllocError, AllocFailed};
use std::io;
use std::io::Write;
use thiserror::Error;

/// Why a run ended early.
#[derive(Clone, Copy, Debug, PartialEq, Eq, Error)]
pub enum Fault {
    #[error("error: a word of the command line is not UTF-8")]
    WordsNotUtf8,
    /// What is wrong with the word was said.
    #[error("error: a path is not well written")]
    WordRefused,
    #[error("error: no file is a document")]
    NoDocument,
    #[error("out of memory")]
    OutOfMemory,
    /// This can not be, since they are among the texts of each schema.
    #[error("error: the definitions that every schema has are missing")]
    LacksIntrospection,
    #[error("a write to standard output failed")]
    OutputFailed,
}

impl Fault {
    /// The status of a run that this ended.
    pub fn status(self) -> Status {
        match self {
            Fault::WordsNotUtf8 | Fault::WordRefused | Fault::NoDocument => Status::BadArguments,
            Fault::LacksIntrospection => Status::Reported,
            Fault::OutOfMemory => Status::OutOfMemory,
            Fault::OutputFailed => Status::OutputFailed,
        }
    }

    /// Says on standard error what is wrong, except where standard output failed, or it was said. That this fails
    /// too changes nothing.
    pub fn explain<F: Write>(self, faults: &mut F) {
        if self != Fault::OutputFailed && self != Fault::WordRefused {
            let _ = writeln!(faults, "{self}");
        }
    }
}

impl From<AllocError> for Fault {
    fn from(_refusal: AllocError) -> Fault {
        Fault::OutOfMemory
    }
}

impl<T: Drop> From<AllocFailed<T>> for Fault {
    fn from(_refusal: AllocFailed<T>) -> Fault {
        Fault::OutOfMemory
    }
}

impl From<ValidationError> for Fault {
    fn from(_refusal: ValidationError) -> Fault {
        Fault::OutOfMemory
    }
}

/// The fault of words that could not be read: one is no UTF-8, or there was no memory for them.
pub fn fault_of_words(error: io::Error) -> Fault {
    match error.kind() {
        io::ErrorKind::OutOfMemory => Fault::OutOfMemory,
        _ => Fault::WordsNotUtf8,
    }
}

/// The fault of a failed write.
pub fn fault_of_output(_error: io::Error) -> Fault {
    Fault::OutputFailed
}
