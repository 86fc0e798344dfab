//! Configurations in JSON.

use crate::setting::Setting;
use json::{Error, MAX_DEPTH, Reader, Scratch, Value};
use std::alloc::{AllocError, AllocFailed, Global};

/// Why a text has no value in JSON.
#[derive(Clone, Copy, Debug)]
pub(crate) enum JsonFault {
    OutOfMemory,
    /// The text is not JSON, or is nested too deep. What is wrong begins at this byte, or ends before it.
    Invalid(usize),
    /// An object has a key twice.
    KeyTwice,
}

impl From<AllocError> for JsonFault {
    fn from(_refusal: AllocError) -> JsonFault {
        JsonFault::OutOfMemory
    }
}

impl<T: Drop> From<AllocFailed<T>> for JsonFault {
    fn from(_refusal: AllocFailed<T>) -> JsonFault {
        JsonFault::OutOfMemory
    }
}

/// The value that the text writes. No object may have a key twice.
pub(crate) fn json_setting(alloc: Global, text: &str) -> Result<Setting, JsonFault> {
    let mut scratch = Scratch::new(alloc);
    match Value::parse_strict(alloc, text, &mut scratch) {
        Ok(value) => Ok(setting_of(alloc, &value)?),
        Err(error) => Err(fault_of(alloc, text, error)),
    }
}

/// The value of a key of the object that the text writes, if it has the key. Where an object inside the value has a key twice, the first counts.
pub(crate) fn json_setting_at(
    alloc: Global,
    text: &str,
    key: &str,
) -> Result<Option<Setting>, JsonFault> {
    let mut scratch = Scratch::new(alloc);
    match Value::parse(alloc, text, &mut scratch) {
        Ok(whole) => match whole.get(key) {
            Some(value) => Ok(Some(setting_of(alloc, value)?)),
            None => Ok(None),
        },
        Err(error) => Err(fault_of(alloc, text, error)),
    }
}

/// What is wrong with a text that was not read.
fn fault_of(alloc: Global, text: &str, error: Error) -> JsonFault {
    match error {
        Error::OutOfMemory => JsonFault::OutOfMemory,
        Error::DuplicateKey => JsonFault::KeyTwice,
        Error::Invalid | Error::TooLong => match end_of_reading(alloc, text) {
            Ok(byte) => JsonFault::Invalid(byte),
            Err(AllocError) => JsonFault::OutOfMemory,
        },
    }
}

/// The byte where reading the value of the text ends.
fn end_of_reading(alloc: Global, text: &str) -> Result<usize, AllocError> {
    let mut scratch = Scratch::new(alloc);
    let mut reader = Reader::new(text, &mut scratch)?;
    let _value = Value::read(alloc, &mut reader, MAX_DEPTH);
    Ok(reader.offset())
}

/// The value, as that of a configuration.
#[cycle(json)]
fn setting_of(alloc: Global, value: &Value<'_>) -> Result<Setting, AllocError> {
    match value {
        Value::String(text) => Ok(Setting::Text(String::from_str(alloc, text)?)),
        Value::Array(items) => list_of(alloc, items),
        Value::Object(members) => table_of(alloc, members),
        Value::Number(number) => Ok(Setting::Number(String::from_str(alloc, number)?)),
        Value::Null | Value::Bool(_) => Ok(Setting::Other),
    }
}

/// The items, as a list of a configuration.
#[cycle(json)]
fn list_of(alloc: Global, items: &[Value<'_>]) -> Result<Setting, AllocError> {
    let mut list = Vec::new(alloc);
    for item in items {
        list.push(setting_of(alloc, item)?)?;
    }
    Ok(Setting::List(list))
}

/// The members, as a table of a configuration.
#[cycle(json)]
fn table_of(alloc: Global, members: &[(&str, Value<'_>)]) -> Result<Setting, AllocError> {
    let mut table = Vec::new(alloc);
    for (key, value) in members {
        let value = setting_of(alloc, value)?;
        table.push((String::from_str(alloc, key)?, value))?;
    }
    Ok(Setting::Table(table))
}
