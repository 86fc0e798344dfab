//! Keys in texts of JSON.

use json::{Reader, Scratch, Token};
use std::alloc::{AllocError, Global};

/// The byte where the last of these keys begins that is reached from the object that the text writes by the others, in order.
pub fn json_place(alloc: Global, text: &str, keys: &[&str]) -> Result<Option<usize>, AllocError> {
    let mut scratch = Scratch::new(alloc);
    let mut reader = Reader::new(text, &mut scratch)?;
    let mut search = KeySearch::new();
    let mut byte = reader.offset();
    while let Some(token) = reader.next() {
        search.read(token, byte, keys);
        byte = reader.offset();
    }
    Ok(search.found)
}

/// A search for keys, one inside the other.
#[derive(Clone, Copy)]
struct KeySearch {
    /// How many objects and arrays are open.
    depth: usize,
    /// How many of the keys, from the first on, have a value that is open.
    reached: usize,
    /// Where the last key begins.
    found: Option<usize>,
}

impl KeySearch {
    /// The search before the first token.
    fn new() -> KeySearch {
        KeySearch {
            depth: 0,
            reached: 0,
            found: None,
        }
    }

    /// Reads the token that begins at this byte.
    fn read(&mut self, token: Token<'_>, byte: usize, keys: &[&str]) {
        match token {
            Token::BeginObject | Token::BeginArray => self.depth = self.depth.saturating_add(1),
            Token::EndObject | Token::EndArray => {
                self.depth = self.depth.saturating_sub(1);
                self.reached = self.reached.min(self.depth);
            }
            Token::Key(key) => self.read_key(key, byte, keys),
            _ => {}
        }
    }

    /// Reads a key.
    fn read_key(&mut self, key: &str, byte: usize, keys: &[&str]) {
        let outer = self.depth.saturating_sub(1);
        self.reached = self.reached.min(outer);
        if self.reached < outer || !is_at(keys, outer, key) {
            return;
        }
        self.reached = self.depth;
        if self.depth == keys.len() {
            self.found = Some(byte);
        }
    }
}

/// Whether this key is at this index of the keys.
fn is_at(keys: &[&str], index: usize, key: &str) -> bool {
    match keys.get(index) {
        Some(wanted) => *wanted == key,
        None => false,
    }
}
