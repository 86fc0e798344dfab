//! Texts of strangers, as the program prints them: they control neither a terminal nor a log.

use std::alloc::{AllocError, Global};
use std::fmt;

/// What stands for a character that would control a terminal or a log.
const REPLACEMENT: char = '\u{fffd}';

/// Whether a character, if it were printed, would control a terminal or a log: a control character, a separator of lines or
/// paragraphs, or a control of the direction of text.
pub fn is_control(character: char) -> bool {
    character.is_control()
        || matches!(
            character,
            '\u{061c}' | '\u{200e}' | '\u{200f}' | '\u{2028}'..='\u{202e}' | '\u{2066}'..='\u{2069}'
        )
}

/// A text with a replacement character for each character that controls.
#[derive(Clone, Copy)]
pub struct Printable<'a>(pub &'a str);

impl fmt::Display for Printable<'_> {
    fn fmt<W: fmt::Write>(&self, f: &mut fmt::Formatter<W>) -> fmt::Result {
        let mut parts = self.0.split(is_control);
        if let Some(first) = parts.next() {
            f.write_str(first)?;
        }
        for part in parts {
            f.write_char(REPLACEMENT)?;
            f.write_str(part)?;
        }
        Ok(())
    }
}

/// The character, or what stands for it.
pub fn printable_character(character: char) -> char {
    if is_control(character) {
        REPLACEMENT
    } else {
        character
    }
}

/// The words, each with a replacement character for each character that controls.
pub fn printable_words(alloc: Global, words: &[String]) -> Result<Vec<String>, AllocError> {
    let mut printed = Vec::new(alloc);
    for word in words {
        printed.push(Printable(word.as_str()).to_string(alloc)?)?;
    }
    Ok(printed)
}

/// JSON with an escape for each character that controls, which JSON has in strings alone.
#[derive(Clone, Copy)]
pub struct PrintableJson<'a>(pub &'a str);

impl fmt::Display for PrintableJson<'_> {
    fn fmt<W: fmt::Write>(&self, f: &mut fmt::Formatter<W>) -> fmt::Result {
        for character in self.0.chars() {
            if is_control(character) {
                let code = character as u32;
                write!(f, "\\u{code:04x}")?;
            } else {
                f.write_char(character)?;
            }
        }
        Ok(())
    }
}
