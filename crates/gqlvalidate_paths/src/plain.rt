//! Paths in one form, so that those of one file are equal.

use std::alloc::{AllocError, Global};

/// The path without `.` between its names and without doubled slashes. That of the folder in which the program runs is `.`.
pub fn plain(alloc: Global, path: &str) -> Result<String, AllocError> {
    let mut plain = String::new(alloc);
    if path.starts_with('/') {
        plain.push_str("/")?;
    }
    for name in path.split('/') {
        push_name(&mut plain, name)?;
    }
    if plain.is_empty() {
        plain.push_str(".")?;
    }
    Ok(plain)
}

fn push_name(path: &mut String, name: &str) -> Result<(), AllocError> {
    if name.is_empty() || name == "." {
        return Ok(());
    }
    if !path.is_empty() && !path.as_str().ends_with('/') {
        path.push_str("/")?;
    }
    path.push_str(name)
}

/// The path of this name in a folder, whose own path is plain.
pub(crate) fn joined(alloc: Global, folder: &str, name: &str) -> Result<String, AllocError> {
    let mut path = String::new(alloc);
    if folder != "." {
        path.push_str(folder)?;
    }
    push_name(&mut path, name)?;
    Ok(path)
}

/// Whether the path is that of the folder, or of something in it. Both are plain.
pub(crate) fn is_within(path: &str, folder: &str) -> bool {
    if folder == "." {
        return is_below_working_folder(path);
    }
    match path.strip_prefix(folder) {
        Some(rest) => rest.is_empty() || rest.starts_with('/') || folder == "/",
        None => false,
    }
}

/// Whether a plain path leads to the folder in which the program runs, or to something in it.
fn is_below_working_folder(path: &str) -> bool {
    !path.starts_with('/') && path != ".." && !path.starts_with("../")
}

/// The characters that give a word of the command line a meaning as a pattern.
fn is_special(character: char) -> bool {
    matches!(character, '*' | '?' | '[' | '{' | '\\')
}

/// Whether the word is a pattern, if no file has it as its path.
pub(crate) fn is_pattern(word: &str) -> bool {
    word.contains(is_special)
}

/// The folder below which all paths are that a plain pattern matches: its names before the first with a special character.
pub(crate) fn folder_of(alloc: Global, pattern: &str) -> Result<String, AllocError> {
    let mut folder = String::new(alloc);
    if pattern.starts_with('/') {
        folder.push_str("/")?;
    }
    for name in pattern.split('/') {
        if is_pattern(name) {
            break;
        }
        push_name(&mut folder, name)?;
    }
    if folder.is_empty() {
        folder.push_str(".")?;
    }
    Ok(folder)
}
