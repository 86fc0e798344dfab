//! What keeps a configuration from being read.

use crate::refusals::Problem;
use graphql_places::Place;
use std::alloc::{AllocError, AllocFailed};
use std::{fmt, io};
use thiserror::Error;

/// What keeps a configuration from being read. It shows texts of the configuration as they are: a caller makes them printable.
#[derive(Drop)]
pub enum SettingsFault {
    OutOfMemory,
    /// The file cannot be read.
    Unread {
        file: String,
        error: io::Error,
    },
    /// The file has no configuration that can be read.
    Wrong {
        file: String,
        /// Where this is in the file, if that is known.
        place: Option<Place>,
        why: Why,
    },
}

/// What is wrong in a file.
#[derive(Debug, Drop, Error)]
pub enum Why {
    #[error("not UTF-8")]
    NotUtf8,
    #[error("this is not JSON, or is nested too deep")]
    NotJson,
    #[error("an object has a key twice")]
    KeyTwice,
    #[error("this is not TOML: {0}")]
    NotToml(String),
    /// The name of the file says nothing of its language.
    #[error("this is not JSON, which begins with a `{{`, and not TOML, the other language that is read, so write `schema` and `documents` as JSON in `.graphqlrc.json`: {0}")]
    NotJsonOrToml(String),
    #[error("configurations in YAML and programs are not read: write `schema` and `documents` as JSON in `.graphqlrc.json`")]
    OtherLanguage,
    #[error("the configuration is not an object")]
    NotAnObject,
    #[error("there is no `graphql` in this file")]
    NoConfiguration,
    /// The value that these keys lead to is wrong.
    #[error("`{keys}` {problem}")]
    Setting { keys: String, problem: Problem },
}

impl fmt::Display for SettingsFault {
    fn fmt<W: fmt::Write>(&self, f: &mut fmt::Formatter<W>) -> fmt::Result {
        match self {
            SettingsFault::OutOfMemory => f.write_str("out of memory"),
            SettingsFault::Unread { file, error } => write!(f, "{file}: error: {error}"),
            SettingsFault::Wrong { file, place, why } => {
                write!(f, "{file}:")?;
                if let Some(place) = place {
                    let line = place.line;
                    let column = place.column;
                    write!(f, "{line}:{column}:")?;
                }
                write!(f, " error: {why}")
            }
        }
    }
}

impl From<AllocError> for SettingsFault {
    fn from(_refusal: AllocError) -> SettingsFault {
        SettingsFault::OutOfMemory
    }
}

impl<T: Drop> From<AllocFailed<T>> for SettingsFault {
    fn from(_refusal: AllocFailed<T>) -> SettingsFault {
        SettingsFault::OutOfMemory
    }
}

/// The fault of what is wrong in a file, at this place, if it is known.
pub(crate) fn wrong(
    alloc: std::alloc::Global,
    file: &str,
    place: Option<Place>,
    why: Why,
) -> SettingsFault {
    match String::from_str(alloc, file) {
        Ok(file) => SettingsFault::Wrong { file, place, why },
        Err(AllocError) => SettingsFault::OutOfMemory,
    }
}
