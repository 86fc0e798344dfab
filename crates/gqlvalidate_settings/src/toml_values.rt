//! Configurations in TOML.

use crate::setting::Setting;
use std::alloc::{AllocError, Global};
use toml::{Table, Value};

/// Why a text has no table in TOML.
#[derive(Debug, Drop)]
pub(crate) enum TomlFault {
    OutOfMemory,
    /// The text is not TOML from this byte on.
    Invalid(usize, String),
}

impl From<AllocError> for TomlFault {
    fn from(_refusal: AllocError) -> TomlFault {
        TomlFault::OutOfMemory
    }
}

/// The table that the text writes.
pub(crate) fn toml_setting(alloc: Global, text: &str) -> Result<Setting, TomlFault> {
    match toml::table_from_str(alloc, text) {
        Ok(table) => Ok(table_of(alloc, &table)?),
        Err(error) => match error.span() {
            Some(span) => Err(TomlFault::Invalid(
                span.start,
                String::from_str(alloc, error.message())?,
            )),
            None => Err(TomlFault::OutOfMemory),
        },
    }
}

/// The value, as that of a configuration.
#[cycle(toml)]
fn setting_of(alloc: Global, value: &Value) -> Result<Setting, AllocError> {
    match value {
        Value::String(text) => Ok(Setting::Text(String::from_str(alloc, text.as_str())?)),
        Value::Array(items) => list_of(alloc, items),
        Value::Table(table) => table_of(alloc, table),
        Value::Integer(number) => Ok(Setting::Number(format!(in alloc; "{number}")?)),
        Value::Float(_) | Value::Boolean(_) | Value::Datetime(_) => Ok(Setting::Other),
    }
}

/// The items, as a list of a configuration.
#[cycle(toml)]
fn list_of(alloc: Global, items: &[Value]) -> Result<Setting, AllocError> {
    let mut list = Vec::new(alloc);
    for item in items {
        list.push(setting_of(alloc, item)?)?;
    }
    Ok(Setting::List(list))
}

/// The table, as that of a configuration: in the order of the bytes of its keys.
#[cycle(toml)]
fn table_of(alloc: Global, table: &Table) -> Result<Setting, AllocError> {
    let mut members = Vec::new(alloc);
    for (key, value) in table {
        let value = setting_of(alloc, value)?;
        members.push((String::from_str(alloc, key.as_str())?, value))?;
    }
    Ok(Setting::Table(members))
}
