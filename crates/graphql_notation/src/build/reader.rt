use super::parts::both;
use crate::errors::ExampleError;
use graphql_nodes::{FileId, Name, Node, SourceSpan};
use std::alloc::Global;

/// No list of the notation has as many items.
pub(super) const LONGEST: usize = 20_000;

/// No selection, no value and no type reference of the notation lies as deep.
pub(super) const DEEPEST: u32 = 520;

/// Where the data is that is read.
#[derive(Clone, Copy)]
pub(super) enum Place {
    Nowhere,
    /// In this file, whose text is read.
    In(FileId),
    At(SourceSpan),
}

/// What is left to read of a text.
#[derive(Clone, Copy)]
pub(super) struct Reader<'a> {
    pub(super) alloc: Global,
    pub(super) place: Place,
    rest: &'a str,
    length: usize,
    end: usize,
}

impl<'a> Reader<'a> {
    /// A reader of the whole text.
    pub(super) fn new(alloc: Global, text: &'a str, place: Place) -> Reader<'a> {
        Reader {
            alloc,
            place,
            rest: text.trim_start_matches(is_ignored),
            length: text.len(),
            end: 0,
        }
    }

    /// Whether nothing is left.
    pub(super) fn is_at_end(&self) -> bool {
        self.rest.is_empty()
    }

    /// Whether this sign comes next.
    pub(super) fn stands_before(&self, sign: &str) -> bool {
        self.rest.starts_with(sign)
    }

    /// The word that comes next, of letters, digits and `_`; empty where a sign does.
    pub(super) fn next_word(&self) -> &'a str {
        let rest = self.rest.trim_start_matches(continues_word);
        self.rest.strip_suffix(rest).unwrap_or("")
    }

    /// Takes this sign if it comes next, and tells whether it did.
    pub(super) fn takes(&mut self, sign: &str) -> bool {
        match self.rest.strip_prefix(sign) {
            Some(rest) => {
                self.go_on(rest);
                true
            }
            None => false,
        }
    }

    /// Takes this word if it comes next, and tells whether it did.
    pub(super) fn takes_word(&mut self, word: &str) -> bool {
        self.next_word() == word && self.takes(word)
    }

    /// Takes this sign, which has to come next.
    pub(super) fn expect(&mut self, sign: &str) -> Result<(), ExampleError> {
        if self.takes(sign) {
            Ok(())
        } else {
            Err(ExampleError::NotInNotation)
        }
    }

    /// Takes this word, which has to come next.
    pub(super) fn expect_word(&mut self, word: &str) -> Result<(), ExampleError> {
        if self.takes_word(word) {
            Ok(())
        } else {
            Err(ExampleError::NotInNotation)
        }
    }

    /// Takes the word that comes next.
    pub(super) fn word(&mut self) -> &'a str {
        let word = self.next_word();
        self.takes(word);
        word
    }

    /// Takes the string that comes next, if one does.
    pub(super) fn string(&mut self) -> Option<&'a str> {
        let (text, rest) = self.rest.strip_prefix('"')?.split_once('"')?;
        self.go_on(rest);
        Some(text)
    }

    /// Takes the number that comes next, if one does.
    pub(super) fn number(&mut self) -> Option<&'a str> {
        if !self.rest.starts_with(starts_number) {
            return None;
        }
        let rest = self.rest.trim_start_matches(continues_number);
        let number = self.rest.strip_suffix(rest)?;
        self.go_on(rest);
        Some(number)
    }

    /// Takes the name that has to come next.
    pub(super) fn name(&mut self) -> Result<Name, ExampleError> {
        let start = self.start();
        let text = String::from_str(self.alloc, self.word())?;
        Name::new(text, self.place_from(start)).ok_or(ExampleError::NotAName)
    }

    /// Takes the name and the colon that have to come next.
    pub(super) fn label(&mut self) -> Result<Name, ExampleError> {
        let (name, ()) = both(self.name(), self.expect(":"))?;
        Ok(name)
    }

    /// Takes `key Name` if it comes next, and gives the place of the name.
    pub(super) fn key(&mut self) -> Option<Reader<'a>> {
        if !self.takes_word("key") {
            return None;
        }
        let key = *self;
        self.word();
        Some(key)
    }

    /// A node of this value, which was read from there on.
    pub(super) fn node<T: Drop>(&self, value: T, start: usize) -> Result<Node<T>, ExampleError> {
        let node = Node::new(self.alloc, value)?;
        Ok(Node {
            location: self.place_from(start),
            ..node
        })
    }

    /// Where the next word or sign starts.
    pub(super) fn start(&self) -> usize {
        self.length.saturating_sub(self.rest.len())
    }

    /// The place of what was read from there on.
    pub(super) fn place_from(&self, start: usize) -> Option<SourceSpan> {
        match self.place {
            Place::Nowhere => None,
            Place::In(file_id) => Some(SourceSpan {
                file_id,
                start: narrow(start),
                end: narrow(self.end),
            }),
            Place::At(span) => Some(span),
        }
    }

    fn go_on(&mut self, rest: &'a str) {
        self.end = self.length.saturating_sub(rest.len());
        self.rest = rest.trim_start_matches(is_ignored);
    }
}

/// The byte as a place has it. No example is longer than places reach.
fn narrow(at: usize) -> u32 {
    u32::try_from(at).unwrap_or(u32::MAX)
}

fn is_ignored(c: char) -> bool {
    matches!(c, ' ' | '\n' | ',')
}

fn continues_word(c: char) -> bool {
    c.is_ascii_alphanumeric() || c == '_'
}

fn starts_number(c: char) -> bool {
    c.is_ascii_digit() || c == '-'
}

fn continues_number(c: char) -> bool {
    c.is_ascii_digit() || matches!(c, '-' | '+' | '.' | 'e' | 'E')
}
