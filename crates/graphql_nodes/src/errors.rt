use std::alloc::{AllocError, AllocFailed};
use thiserror::Error;

/// Why a call gave no answer: a growth of memory was refused.
#[derive(Clone, Copy, Debug, PartialEq, Eq, Error)]
pub enum ValidationError {
    #[error("out of memory")]
    OutOfMemory,
}

/// A walk went deeper than it may.
#[derive(Clone, Copy, Debug, PartialEq, Eq, Error)]
#[error("too much recursion")]
pub struct RecursionLimitError;

impl From<AllocError> for ValidationError {
    fn from(_refusal: AllocError) -> ValidationError {
        ValidationError::OutOfMemory
    }
}

impl<T: Drop> From<AllocFailed<T>> for ValidationError {
    fn from(_refusal: AllocFailed<T>) -> ValidationError {
        ValidationError::OutOfMemory
    }
}
