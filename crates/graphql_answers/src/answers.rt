//! What calls answer.

ghost use Rattle.std.specs.Prelude.{◌≡◌};
ghost use Rattle.graphql_answers.specs.declared.answers.Refusal.TheVariants.{OutOfMemory};

use graphql_nodes::ValidationError;
use std::alloc::{AllocError, AllocFailed};

/// What a call answers.
#[derive(Drop)]
pub struct Answer {
    pub found: Found,
    /// The reports, as the errors of a GraphQL response.
    pub json: Vec<u8>,
}

/// Where something is reported.
#[derive(Clone, Copy, Debug, PartialEq, Eq)]
pub enum Found {
    Nothing,
    /// In the schema: no document was looked at.
    InSchema,
    InDocuments,
}

/// Why a call has no answer.
#[derive(Clone, Copy, Debug, PartialEq, Eq)]
pub enum Refusal {
    OutOfMemory,
    /// Bytes are no UTF-8.
    NotUtf8,
    /// A document ends before it begins, or behind the bytes that there are.
    BadEnds,
    /// Options are shorter than this version of them.
    ShortOptions,
    /// No schema is kept.
    NoSchema,
}

impl From<AllocError> for Refusal {
    ghost from_gives = { λ _ refusal. refusal ≡ OutOfMemory };

    fn from(_refusal: AllocError) -> Refusal {
        Refusal::OutOfMemory
    }
}

impl<T: Drop> From<AllocFailed<T>> for Refusal {
    ghost from_gives = { λ _ refusal. refusal ≡ OutOfMemory };

    fn from(_refusal: AllocFailed<T>) -> Refusal {
        Refusal::OutOfMemory
    }
}

impl From<ValidationError> for Refusal {
    ghost from_gives = { λ _ refusal. refusal ≡ OutOfMemory };

    fn from(_refusal: ValidationError) -> Refusal {
        Refusal::OutOfMemory
    }
}
