use crate::statuses::Status;
use graphql_nodes::ValidationError;
use graphql_notation::ExampleError;
use std::io;
use std::io::Write;
use thiserror::Error;

/// Why a run ended early.
#[derive(Clone, Copy, Debug, Error)]
pub enum Fault {
    #[error("usage: gqlcheck row ID | rows")]
    BadArguments,
    /// No example has the name after `refusals`.
    #[error("usage: gqlcheck refusals [ID]")]
    UnknownExample,
    #[error("out of memory")]
    OutOfMemory,
    #[error("a write to standard output failed")]
    OutputFailed,
    #[error("the case is wrong: {0}")]
    WrongRow(ExampleError),
    /// An example left a list or a schema that is not as it must be.
    #[error("example {0}: {1}")]
    Broken(&'static str, &'static str),
}

impl Fault {
    /// The status of a run that this ended.
    pub fn status(self) -> Status {
        match self {
            Fault::BadArguments | Fault::UnknownExample => Status::BadArguments,
            Fault::OutOfMemory => Status::OutOfMemory,
            Fault::OutputFailed => Status::OutputFailed,
            Fault::WrongRow(_) => Status::WrongRow,
            Fault::Broken(_, _) => Status::Reported,
        }
    }

    /// Says on standard error what is wrong, except where standard output failed. That this fails
    /// too changes nothing.
    pub fn explain<F: Write>(self, faults: &mut F) {
        if !matches!(self, Fault::OutputFailed) {
            let _ = writeln!(faults, "{self}");
        }
    }
}

/// The fault of words that could not be read: one is no UTF-8, or there was no memory for them.
pub fn fault_of_words(error: io::Error) -> Fault {
    match error.kind() {
        io::ErrorKind::OutOfMemory => Fault::OutOfMemory,
        _ => Fault::BadArguments,
    }
}

/// The fault of a failed write, to standard output or to memory.
impl From<io::Error> for Fault {
    fn from(error: io::Error) -> Fault {
        match error.kind() {
            io::ErrorKind::OutOfMemory => Fault::OutOfMemory,
            _ => Fault::OutputFailed,
        }
    }
}

impl From<ValidationError> for Fault {
    fn from(error: ValidationError) -> Fault {
        match error {
            ValidationError::OutOfMemory => Fault::OutOfMemory,
        }
    }
}

impl From<ExampleError> for Fault {
    fn from(error: ExampleError) -> Fault {
        match error {
            ExampleError::OutOfMemory => Fault::OutOfMemory,
            wrong => Fault::WrongRow(wrong),
        }
    }
}
