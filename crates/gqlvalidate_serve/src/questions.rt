//! What a line of standard input asks for: `{"document": TEXT}`, with an `"id"` that the answer repeats, and the path of its `"file"`, if
//! these are there.

use json::{Error, Scratch, Value, Writer};
use std::alloc::{AllocError, Global};

/// A document to be validated.
#[derive(Drop)]
pub struct Question<'a> {
    id: Option<Id<'a>>,
    pub document: &'a str,
    /// The path of its file.
    pub file: Option<&'a str>,
}

/// What a caller knows a question by.
#[derive(Clone, Copy)]
enum Id<'a> {
    Text(&'a str),
    /// An integer.
    Number(u64),
}

/// Why a line is no question.
#[derive(Clone, Copy)]
pub enum QuestionError {
    OutOfMemory,
    /// For this reason.
    Unclear(&'static str),
}

impl<'a> Question<'a> {
    /// The question that a line is.
    pub fn read(
        alloc: Global,
        line: &'a [u8],
        scratch: &'a mut Scratch,
    ) -> Result<Question<'a>, QuestionError> {
        let object = object_of(alloc, line, scratch)?;
        match object.get("document").and_then(Value::as_str) {
            Some(document) => Ok(Question {
                id: id_of(&object)?,
                document,
                file: file_of(&object)?,
            }),
            None => Err(QuestionError::Unclear(
                "the line is no object with a string as its `document`",
            )),
        }
    }

    /// Adds the id, if there is one.
    pub fn add_id(&self, json: &mut Writer) -> Result<(), AllocError> {
        match self.id {
            None => Ok(()),
            Some(Id::Text(text)) => {
                json.key("id")?;
                json.string(text)
            }
            Some(Id::Number(number)) => {
                json.key("id")?;
                json.u64(number)
            }
        }
    }
}

/// The JSON of a line, in which no object has a key twice.
fn object_of<'a>(
    alloc: Global,
    line: &'a [u8],
    scratch: &'a mut Scratch,
) -> Result<Value<'a>, QuestionError> {
    let Ok(text) = std::str::from_utf8(line) else {
        return Err(QuestionError::Unclear("the line is not JSON in UTF-8"));
    };
    match Value::parse_strict(alloc, text, scratch) {
        Ok(object) => Ok(object),
        Err(Error::OutOfMemory) => Err(QuestionError::OutOfMemory),
        Err(Error::DuplicateKey) => Err(QuestionError::Unclear(
            "an object of the line has a key twice",
        )),
        Err(_) => Err(QuestionError::Unclear("the line is not JSON in UTF-8")),
    }
}

/// The id of a question: a string, or an integer from 0 up to 2^64 - 1.
fn id_of<'a>(object: &Value<'a>) -> Result<Option<Id<'a>>, QuestionError> {
    let Some(id) = object.get("id") else {
        return Ok(None);
    };
    if let Some(text) = id.as_str() {
        Ok(Some(Id::Text(text)))
    } else if let Some(number) = id.as_u64() {
        Ok(Some(Id::Number(number)))
    } else {
        Err(QuestionError::Unclear(
            "the `id` is neither a string nor an integer from 0 up to 2^64 - 1",
        ))
    }
}

/// The path of the document's file, if the question has one.
fn file_of<'a>(object: &Value<'a>) -> Result<Option<&'a str>, QuestionError> {
    let Some(file) = object.get("file") else {
        return Ok(None);
    };
    match file.as_str() {
        Some(file) => Ok(Some(file)),
        None => Err(QuestionError::Unclear("the `file` is not a string")),
    }
}
