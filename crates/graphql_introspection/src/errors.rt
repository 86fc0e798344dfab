//! Why an answer is not printed.

use super::references::MAX_WRAPPERS;
use std::alloc::{AllocError, AllocFailed};
use thiserror::Error;

/// Why an answer is not printed.
#[derive(Debug, Drop, Error)]
pub enum IntrospectionError {
    #[error("out of memory")]
    OutOfMemory,
    /// What begins at this byte may not be there; or the text ends there, and its value does not.
    #[error("the answer is not JSON, or is nested too deep, at byte {byte}")]
    InvalidJson { byte: usize },
    /// A member is not what an answer has there. The path leads to it, as `data.__schema.types[3].name`.
    #[error("{path} {problem}")]
    InvalidMember { path: String, problem: Problem },
}

/// What is wrong with a member.
#[derive(Clone, Copy, Debug, PartialEq, Eq, Error)]
pub enum Problem {
    #[error("is missing, or null")]
    Missing,
    #[error("is not an object")]
    NotAnObject,
    #[error("is not a list")]
    NotAList,
    #[error("is not a string")]
    NotAString,
    #[error("is neither `true` nor `false`")]
    NotABoolean,
    #[error("is not a GraphQL name")]
    NotAName,
    #[error("is not one constant GraphQL value on one line")]
    NotAConstant,
    #[error("is not a kind of type")]
    NotAKind,
    #[error("is not the kind of a type that is defined")]
    NotADefinition,
    #[error("is a non-null type inside a non-null type")]
    NonNullTwice,
    #[error("is inside {limit} lists and non-null types, and is one more", limit = MAX_WRAPPERS)]
    NestedTooDeep,
    #[error("lists nothing")]
    Empty,
}

/// Why printing stops. The path of the printer leads to the member.
#[derive(Clone, Copy)]
pub(crate) enum Refusal {
    OutOfMemory,
    Member(Problem),
}

impl From<AllocError> for IntrospectionError {
    fn from(_refusal: AllocError) -> IntrospectionError {
        IntrospectionError::OutOfMemory
    }
}

impl From<AllocError> for Refusal {
    fn from(_refusal: AllocError) -> Refusal {
        Refusal::OutOfMemory
    }
}

impl<T: Drop> From<AllocFailed<T>> for Refusal {
    fn from(_refusal: AllocFailed<T>) -> Refusal {
        Refusal::OutOfMemory
    }
}

impl From<Problem> for Refusal {
    fn from(problem: Problem) -> Refusal {
        Refusal::Member(problem)
    }
}
