//! Why a value is no configuration.

ghost use Rattle.std.specs.Prelude.{◌≡◌};
ghost use Rattle.gqlvalidate_settings.specs.declared.refusals.Refusal.TheVariants.{OutOfMemory};

use crate::keys::Key;
use gqlvalidate_levels::LevelProblem;
use std::alloc::{AllocError, AllocFailed};
use thiserror::Error;

/// What is wrong with the value of a key.
#[derive(Clone, Copy, Debug, PartialEq, Eq, Error)]
pub enum Problem {
    #[error("is neither a text nor a list of texts")]
    NotTexts,
    #[error("names no file: schemas are read from files, which a text or a list of texts names")]
    NoFiles,
    #[error("is not an object (in TOML: a table)")]
    NotATable,
    #[error("must be a key of each project, if there are `projects`")]
    BesideProjects,
    #[error("is not a setting of this program, which has only `fragments`, `rules`, `client` and `federation`")]
    Unknown,
    #[error("is no client: use `apollo`, `relay` or `urql`")]
    NoClient,
    #[error("is no version of Federation: use `2`")]
    NoVersion,
    #[error("{0}")]
    Level(LevelProblem),
}

/// Why a value is no configuration.
#[derive(Debug, Drop)]
pub enum Refusal {
    OutOfMemory,
    /// The value of this key is wrong.
    Wrong(Key, Problem),
    /// The settings of this program have a key of this name, which they must not have.
    Unknown(String),
    /// The rule of this name, in the settings of this program, cannot have the level that it has there.
    WrongLevel(String, LevelProblem),
    /// The project of this name is no table.
    NotAProject,
}

impl From<AllocError> for Refusal {
    ghost from_gives = { λ _ refusal. refusal ≡ OutOfMemory };

    fn from(_refusal: AllocError) -> Refusal {
        Refusal::OutOfMemory
    }
}

impl<T: Drop> From<AllocFailed<T>> for Refusal {
    ghost from_gives = { λ _ refusal. refusal ≡ OutOfMemory };

    fn from(_refusal: AllocFailed<T>) -> Refusal {
        Refusal::OutOfMemory
    }
}
