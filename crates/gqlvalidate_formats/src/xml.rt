//! Texts in XML.

use gqlvalidate_inputs::printable::printable_character;
use std::fmt;

/// A text as the value of an attribute or the content of an element, with escapes.
#[derive(Clone, Copy)]
pub struct Escaped<'a>(pub &'a str);

impl fmt::Display for Escaped<'_> {
    fn fmt<W: fmt::Write>(&self, f: &mut fmt::Formatter<W>) -> fmt::Result {
        for character in self.0.chars() {
            match character {
                '&' => f.write_str("&amp;")?,
                '<' => f.write_str("&lt;")?,
                '>' => f.write_str("&gt;")?,
                '"' => f.write_str("&quot;")?,
                '\'' => f.write_str("&apos;")?,
                _ => f.write_char(allowed(character))?,
            }
        }
        Ok(())
    }
}

/// The character, or what stands for one that a document of XML may not have, or that controls.
fn allowed(character: char) -> char {
    if matches!(character, '\u{fffe}' | '\u{ffff}') {
        '\u{fffd}'
    } else {
        printable_character(character)
    }
}
