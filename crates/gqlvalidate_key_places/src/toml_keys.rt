//! Keys in texts of TOML.

use std::alloc::Global;
use toml::{Table, Value};

/// In a longer text, the places of keys are not searched.
const MAX_SEARCHED: usize = 65_536;

/// The byte where the expression begins, a pair of a key and a value or the header of a table, that makes the last of these keys, which is
/// reached by the others, in order. The text up to the end of an expression is TOML itself. So the expression is the one after which the
/// text has the key, and before which it has not. None, if the text is longer than 65,536 bytes, or memory is lacking.
pub fn toml_place(alloc: Global, text: &str, keys: &[&str]) -> Option<usize> {
    if text.len() > MAX_SEARCHED {
        return None;
    }
    let mut begin: usize = 0;
    let mut end: usize = 0;
    for line in text.split_inclusive('\n') {
        end = end.saturating_add(line.len());
        match toml::table_from_str(alloc, text.get(..end)?) {
            Ok(table) if has_key(&table, keys) => return expression_from(text, begin),
            Ok(_) => begin = end,
            Err(error) if error.is_memory() => return None,
            Err(_) => {}
        }
    }
    None
}

/// Whether the last of these keys is reached from a table by the others, in order.
fn has_key(table: &Table, keys: &[&str]) -> bool {
    let [key, inner @ ..] = keys else {
        return true;
    };
    match table.get(*key) {
        Some(Value::Table(table)) => has_key(table, inner),
        Some(_) => inner.is_empty(),
        None => false,
    }
}

/// The byte where the first expression begins from this byte on, where a line begins: after blanks, empty lines and comments.
fn expression_from(text: &str, begin: usize) -> Option<usize> {
    let mut byte = begin;
    for line in text.get(begin..)?.split_inclusive('\n') {
        let expression = line.trim_start();
        if !expression.is_empty() && !expression.starts_with('#') {
            return Some(byte.saturating_add(line.len().saturating_sub(expression.len())));
        }
        byte = byte.saturating_add(line.len());
    }
    None
}
