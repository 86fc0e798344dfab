//! The files of configurations.

use crate::faults::{SettingsFault, Why, wrong};
use crate::texts::{Settings, settings_of_text};
use graphql_places::Place;
use std::alloc::{AllocError, Global};
use std::rt::Files;
use std::{fs, io};

/// How many folders are searched for a configuration at most: the working folder, and those above it.
pub const MAX_FOLDERS: usize = 32;

/// The names of the files of configurations that are read, in the order in which they are tried.
const FILES: [&str; 6] = [
    ".graphqlrc",
    ".graphqlrc.json",
    ".graphqlrc.toml",
    "graphql.config.json",
    "graphql.config.toml",
    "package.json",
];

/// The names of files of configurations that are not read.
const OTHER_FILES: [&str; 16] = [
    ".graphqlrc.yaml",
    ".graphqlrc.yml",
    ".graphqlrc.js",
    ".graphqlrc.cjs",
    ".graphqlrc.mjs",
    ".graphqlrc.ts",
    ".graphqlrc.cts",
    ".graphqlrc.mts",
    "graphql.config.yaml",
    "graphql.config.yml",
    "graphql.config.js",
    "graphql.config.cjs",
    "graphql.config.mjs",
    "graphql.config.ts",
    "graphql.config.cts",
    "graphql.config.mts",
];

/// The settings of the nearest configuration: in the working folder, or else in the folder above it, and so on, in at most 32 folders. None,
/// if there is no configuration.
///
/// The fault says which file cannot be read or has something wrong. A folder with a configuration in a language that is not read, and none
/// in another, is a fault too.
pub fn find_settings<R: Files + AllocGlobal>(rt: &R) -> Result<Option<Settings>, SettingsFault> {
    find_settings_from(rt, "")
}

/// The settings of the nearest configuration, searched from a folder on, whose path is empty or ends in `/`. Answers and faults are those of
/// `find_settings`.
pub fn find_settings_from<R: Files + AllocGlobal>(
    rt: &R,
    folder: &str,
) -> Result<Option<Settings>, SettingsFault> {
    let mut folder = String::from_str(rt.alloc(), folder)?;
    for _ in 0..MAX_FOLDERS {
        let found = settings_in(rt, folder.as_str())?;
        if found.is_some() {
            return Ok(found);
        }
        folder.push_str("../")?;
    }
    Ok(None)
}

/// The settings of a configuration in a file with any name. A file that is a `package.json` without the key `graphql` is a fault.
pub fn read_settings<R: Files + AllocGlobal>(
    rt: &R,
    path: &str,
) -> Result<Settings, SettingsFault> {
    match settings_of_file(rt, path, folder_of(path))? {
        Some(settings) => Ok(settings),
        None => Err(wrong(rt.alloc(), path, None, Why::NoConfiguration)),
    }
}

/// The folder of a file, with the `/` at its end; or the empty text, if the path is a name.
fn folder_of(path: &str) -> &str {
    match path.rfind('/') {
        Some(at) => path.get(..=at).unwrap_or(""),
        None => "",
    }
}

/// The settings of the configuration in a folder, whose path is empty or ends in `/`. None, if it has no configuration. Faults are those of
/// `find_settings`.
pub fn settings_in<R: Files + AllocGlobal>(
    rt: &R,
    folder: &str,
) -> Result<Option<Settings>, SettingsFault> {
    for name in FILES {
        let path = joined(rt.alloc(), folder, name)?;
        if is_file(rt, path.as_str())? {
            let found = settings_of_file(rt, path.as_str(), folder)?;
            if found.is_some() {
                return Ok(found);
            }
        }
    }
    refuse_others(rt, folder)?;
    Ok(None)
}

/// Refuses a folder with a configuration in a language that is not read.
fn refuse_others<R: Files + AllocGlobal>(rt: &R, folder: &str) -> Result<(), SettingsFault> {
    for name in OTHER_FILES {
        let path = joined(rt.alloc(), folder, name)?;
        if is_file(rt, path.as_str())? {
            return Err(wrong(rt.alloc(), path.as_str(), None, Why::OtherLanguage));
        }
    }
    Ok(())
}

/// The path of this name in a folder, whose path is empty or ends in `/`.
fn joined(alloc: Global, folder: &str, name: &str) -> Result<String, AllocError> {
    let mut path = String::from_str(alloc, folder)?;
    path.push_str(name)?;
    Ok(path)
}

/// Whether the path is that of a file.
fn is_file<R: Files + AllocGlobal>(rt: &R, path: &str) -> Result<bool, SettingsFault> {
    match fs::metadata(rt, path) {
        Ok(metadata) => Ok(metadata.is_file()),
        Err(error) if error.kind() == io::ErrorKind::NotFound => Ok(false),
        Err(error) => Err(unread(rt.alloc(), path, error)),
    }
}

/// The settings of a file in a folder.
fn settings_of_file<R: Files + AllocGlobal>(
    rt: &R,
    path: &str,
    folder: &str,
) -> Result<Option<Settings>, SettingsFault> {
    let bytes = match fs::read(rt, path) {
        Ok(bytes) => bytes,
        Err(error) => return Err(unread(rt.alloc(), path, error)),
    };
    settings_of_bytes(rt.alloc(), path, folder, &bytes)
}

/// The settings that the bytes of a file have.
fn settings_of_bytes(
    alloc: Global,
    path: &str,
    folder: &str,
    bytes: &[u8],
) -> Result<Option<Settings>, SettingsFault> {
    match std::str::from_utf8(bytes) {
        Ok(text) => settings_of_text(alloc, path, folder, text),
        Err(error) => {
            let place = end_of_text(bytes, error.valid_up_to());
            Err(wrong(alloc, path, Some(place), Why::NotUtf8))
        }
    }
}

/// The place of the first byte that is not UTF-8, whose index this is.
fn end_of_text(bytes: &[u8], end: usize) -> Place {
    let valid = bytes.get(..end).unwrap_or(&[]);
    let text = std::str::from_utf8(valid).unwrap_or("");
    Place::of_byte(text, text.len())
}

/// The fault of a file that cannot be read.
fn unread(alloc: Global, path: &str, error: io::Error) -> SettingsFault {
    if error.kind() == io::ErrorKind::OutOfMemory {
        return SettingsFault::OutOfMemory;
    }
    match String::from_str(alloc, path) {
        Ok(file) => SettingsFault::Unread { file, error },
        Err(AllocError) => SettingsFault::OutOfMemory,
    }
}
