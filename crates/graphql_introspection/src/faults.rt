//! Where a text is not JSON.

use json::{MAX_DEPTH, Reader, Scratch, Token};
use std::alloc::{AllocError, Global};

/// What may come next.
#[derive(Clone, Copy)]
enum Waits {
    /// The value that the text is.
    Whole,
    /// An item of an array, or the end of the array.
    Item,
    /// A key of an object, or the end of the object.
    Key,
    /// The value of a key.
    Member,
}

impl Waits {
    /// What may come after a value. None, if nothing may.
    fn after_value(self) -> Option<Waits> {
        match self {
            Waits::Whole => None,
            Waits::Item => Some(Waits::Item),
            Waits::Key | Waits::Member => Some(Waits::Key),
        }
    }
}

/// Whether a value may be here. If it may, what may come after it is added to the open arrays and objects.
fn accepts_value(open: &mut Vec<Waits>, waits: Waits) -> Result<bool, AllocError> {
    if matches!(waits, Waits::Key) {
        return Ok(false);
    }
    if let Some(after) = waits.after_value() {
        open.push(after)?;
    }
    Ok(true)
}

/// Whether an array or object may begin here. If it may, it is added to the open ones.
fn accepts_opening(open: &mut Vec<Waits>, waits: Waits, inside: Waits) -> Result<bool, AllocError> {
    if !accepts_value(open, waits)? || open.len() >= MAX_DEPTH {
        return Ok(false);
    }
    open.push(inside)?;
    Ok(true)
}

/// Whether the token may be here. The open arrays and objects are listed by what may come next in them, the outermost first.
fn accepts(open: &mut Vec<Waits>, token: Token<'_>) -> Result<bool, AllocError> {
    let Some(waits) = open.pop() else {
        return Ok(false);
    };
    match token {
        Token::String(_) | Token::Number(_) | Token::Bool(_) | Token::Null => {
            accepts_value(open, waits)
        }
        Token::BeginArray => accepts_opening(open, waits, Waits::Item),
        Token::BeginObject => accepts_opening(open, waits, Waits::Key),
        Token::EndArray => Ok(matches!(waits, Waits::Item)),
        Token::EndObject => Ok(matches!(waits, Waits::Key)),
        Token::Key(_) => {
            open.push(Waits::Member)?;
            Ok(matches!(waits, Waits::Key))
        }
        Token::Bad => Ok(false),
    }
}

/// The byte where the first token begins that may not be there; if there is none, the end of the text.
pub(crate) fn fault_of(alloc: Global, text: &str) -> Result<usize, AllocError> {
    let mut scratch = Scratch::new(alloc);
    let mut reader = Reader::new(text, &mut scratch)?;
    let mut open = vec![in alloc; Waits::Whole]?;
    let mut byte = reader.offset();
    while let Some(token) = reader.next() {
        if !accepts(&mut open, token)? {
            return Ok(byte);
        }
        byte = reader.offset();
    }
    Ok(byte)
}
