use graphql_documents::documents::FieldLookupError;
use graphql_nodes::ValidationError;
use std::alloc::{AllocError, AllocFailed};
use std::error::Error;
use std::fmt;

/// Why an example could not be built.
#[derive(Clone, Copy, Debug, PartialEq, Eq)]
pub enum ExampleError {
    OutOfMemory,
    NotAName,
    NotANumber,
    NotARepetition,
    NotALocation,
    NotInNotation,
    TooLong,
    TooDeep,
    RepeatedName,
    NoSuchRoot,
    NoSuchType,
    NoSuchField,
}

impl ExampleError {
    /// The message that says what is wrong.
    pub fn message(self) -> &'static str {
        match self {
            ExampleError::OutOfMemory => "out of memory",
            ExampleError::NotAName => "a text of the notation is no name",
            ExampleError::NotANumber => "a text of the notation is no number",
            ExampleError::NotARepetition => "a text of the notation is no repetition",
            ExampleError::NotALocation => "a text of the notation is no location of directives",
            ExampleError::NotInNotation => "a text of the notation lacks a sign or a word",
            ExampleError::TooLong => "a list of the notation is too long",
            ExampleError::TooDeep => "a text of the notation is nested too deep",
            ExampleError::RepeatedName => "two definitions of one list have the same name",
            ExampleError::NoSuchRoot => "the schema lacks the root of an operation",
            ExampleError::NoSuchType => "a field is selected from a type that the schema lacks",
            ExampleError::NoSuchField => "a field is selected that its type lacks",
        }
    }
}

impl fmt::Display for ExampleError {
    fn fmt<W: fmt::Write>(&self, f: &mut fmt::Formatter<W>) -> fmt::Result {
        f.write_str(self.message())
    }
}

impl Error for ExampleError {}

impl From<AllocError> for ExampleError {
    fn from(_refusal: AllocError) -> ExampleError {
        ExampleError::OutOfMemory
    }
}

impl<T: Drop> From<AllocFailed<T>> for ExampleError {
    fn from(_refusal: AllocFailed<T>) -> ExampleError {
        ExampleError::OutOfMemory
    }
}

impl From<ValidationError> for ExampleError {
    fn from(error: ValidationError) -> ExampleError {
        match error {
            ValidationError::OutOfMemory => ExampleError::OutOfMemory,
        }
    }
}

impl From<FieldLookupError> for ExampleError {
    fn from(error: FieldLookupError) -> ExampleError {
        match error {
            FieldLookupError::NoSuchType => ExampleError::NoSuchType,
            FieldLookupError::NoSuchField => ExampleError::NoSuchField,
        }
    }
}
