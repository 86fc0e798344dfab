//! Definitions that the texts of a schema may lack.

ghost use Rattle.std.specs.Prelude.{◌≡◌, ◌++◌, IfOk, OnOk, string_bytes};
ghost use Rattle.graphql_repetitions.specs.References.{nows};
ghost use Rattle.std.specs.List.{list_any};
ghost use Rattle.std.specs.Str.{bytes_eq};
ghost use Rattle.graphql_dialects.specs.Rows.{definitions_of, words_of};

use graphql_nodes::Name;
use std::alloc::{AllocError, Global};

/// A definition of a directive or a type: its name, with the words before and after it.
#[derive(Clone, Copy)]
pub struct Row<'a> {
    pub head: &'a str,
    pub name: &'a str,
    pub tail: &'a str,
}

/// The definitions of these rows whose names are not among those that are taken, in order, one after another.
/// The only error is a failed allocation.
pub fn lacking_definitions(
    alloc: Global,
    rows: &[Row<'_>],
    taken: &[&Name],
) -> Result<String, AllocError>
    ensures { IfOk result (λ text. string_bytes text ≡ definitions_of (nows taken.now) rows.now) }
{
    let mut text = String::new(alloc);
    for row in rows {
        if !is_taken(taken, row.name) {
            push_words(&mut text, row)?;
        }
    }
    Ok(text)
}

/// Whether one of the names is this text.
fn is_taken(taken: &[&Name], name: &str) -> bool
    ensures { result ≡ list_any (λ it. bytes_eq it.now.text name.now) taken.now }
{
    taken.iter().any(|it| has_text(it, name))
}

fn has_text(name: &Name, text: &str) -> bool
    ensures { result ≡ bytes_eq name.now.text text.now }
{
    name.as_str() == text
}

fn push_words(text: &mut String, row: &Row<'_>) -> Result<(), AllocError>
    ensures { OnOk result (string_bytes text.new ≡ string_bytes text.old ++ words_of row.now) }
{
    text.push_str(row.head)?;
    text.push_str(row.name)?;
    text.push_str(row.tail)
}
