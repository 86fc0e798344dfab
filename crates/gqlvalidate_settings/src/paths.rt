//! Paths and patterns of a configuration, which are relative to its folder.

ghost use Rattle.std.specs.Prelude.{◌≡◌, ◌++◌, IfOk, OnOk, map, string_bytes};
ghost use Rattle.gqlvalidate_settings.specs.Paths.{from_folder, is_absolute, left_out, placed};

use std::alloc::{AllocError, Global};

/// What begins a word that leaves files out.
const EXCEPTION: &str = "!";

/// Whether a path begins at the root.
fn is_absolute(path: &str) -> bool
    ensures { result ≡ is_absolute path.now }
{
    matches!(path.as_bytes(), [b'/', ..])
}

/// A text, and a path that leads to where this path leads from a folder. The folder is empty or ends in `/`.
fn joined(alloc: Global, before: &str, folder: &str, path: &str) -> Result<String, AllocError>
    ensures { IfOk result (λ text. string_bytes text ≡ before.now ++ from_folder folder.now path.now) }
{
    let mut text = String::from_str(alloc, before)?;
    if !is_absolute(path) {
        text.push_str(folder)?;
    }
    text.push_str(path)?;
    Ok(text)
}

/// The word of a configuration in a folder, as a word of a command line. A `!` at its begin stays there.
fn placed(alloc: Global, folder: &str, word: &str) -> Result<String, AllocError>
    ensures { IfOk result (λ text. string_bytes text ≡ placed folder.now word.now) }
{
    match word.strip_prefix('!') {
        Some(path) => joined(alloc, EXCEPTION, folder, path),
        None => joined(alloc, "", folder, word),
    }
}

/// Adds the words of a configuration in a folder, as words of a command line.
pub(crate) fn push_placed(
    words: &mut Vec<String>,
    alloc: Global,
    folder: &str,
    texts: &[String],
) -> Result<(), AllocError>
    ensures { OnOk result (map string_bytes words.new.items ≡ map string_bytes words.old.items ++ map (placed folder.now) (map string_bytes texts.now)) }
{
    for text in texts {
        let word = placed(alloc, folder, text.as_str())?;
        words.push(word)?;
    }
    Ok(())
}

/// Adds words that leave out what the patterns of a configuration in a folder match.
pub(crate) fn push_left_out(
    words: &mut Vec<String>,
    alloc: Global,
    folder: &str,
    patterns: &[String],
) -> Result<(), AllocError>
    ensures { OnOk result (map string_bytes words.new.items ≡ map string_bytes words.old.items ++ map (left_out folder.now) (map string_bytes patterns.now)) }
{
    for pattern in patterns {
        let word = joined(alloc, EXCEPTION, folder, pattern.as_str())?;
        words.push(word)?;
    }
    Ok(())
}
