//! Whether two values are the same, in about the time that it takes to read the second, and the first as far
//! as the two agree.

ghost use Rattle.std.specs.Option.{option_copied};
ghost use Rattle.std.specs.Prelude.{◌≡◌, ◌↔◌, IfOk, IsTrue};
ghost use Rattle.graphql_documents.specs.Values.{SameValue, entry_named};
ghost use Rattle.graphql_field_conflicts.specs.Comparisons.{HasEntry, HasKeysOf, SameEntries, SameItems};

use super::values::same_value;
use graphql_documents::documents::Value;
use graphql_hash_seeds::HashSeed;
use graphql_name_tables::ByName;
use graphql_nodes::{Name, Node};
use std::alloc::{AllocError, Global};

/// Whether two values are the same, as `same_value` says. The entries of large objects are found by tables, so
/// the time is about linear in the size of the second value and in what the first has as far as the two agree;
/// objects of few entries take no memory. The tables have this seed. The only error is a failed allocation.
///
/// Specification: 5.3.2 Field Selection Merging.
#[cycle(equal)]
pub fn is_same_value(
    alloc: Global,
    hash_seed: HashSeed,
    a: &Value,
    b: &Value,
) -> Result<bool, AllocError>
    ensures { IfOk result (λ same. IsTrue same ↔ SameValue a.now b.now) }
{
    match (a, b) {
        (Value::List(a), Value::List(b)) => have_same_items(alloc, hash_seed, a, b),
        (Value::Object(a), Value::Object(b)) => have_same_entries(alloc, hash_seed, a, b),
        _ => Ok(same_value(a, b)),
    }
}

/// Whether two lists are as long, and the same item by item.
#[cycle(equal)]
fn have_same_items(
    alloc: Global,
    hash_seed: HashSeed,
    a: &[Node<Value>],
    b: &[Node<Value>],
) -> Result<bool, AllocError>
    ensures { IfOk result (λ same. IsTrue same ↔ SameItems a.now b.now) }
{
    if a.len() != b.len() {
        return Ok(false);
    }
    for (x, y) in a.iter().zip(b) {
        if !is_same_value(alloc, hash_seed, &x.value, &y.value)? {
            return Ok(false);
        }
    }
    Ok(true)
}

/// Whether two objects have the same keys, and under each key first entries of one value.
#[cycle(equal)]
fn have_same_entries(
    alloc: Global,
    hash_seed: HashSeed,
    a: &[(Name, Node<Value>)],
    b: &[(Name, Node<Value>)],
) -> Result<bool, AllocError>
    ensures { IfOk result (λ same. IsTrue same ↔ SameEntries a.now b.now) }
{
    let others = ByName::new(alloc, hash_seed, b, usize::MAX)?;
    // grows up to the first entry on which the two differ
    let mut seen = ByName::new(alloc, hash_seed, &a[..0], usize::MAX)?;
    for (i, entry) in a.iter().enumerate() {
        if seen.grow(alloc, hash_seed, &a[..i + 1], entry)?
            && !stands_in(alloc, hash_seed, entry, &others)?
        {
            return Ok(false);
        }
    }
    Ok(has_keys_of(&seen, b))
}

/// Whether the first of these entries under the key of this one has the same value.
#[cycle(equal)]
fn stands_in(
    alloc: Global,
    hash_seed: HashSeed,
    entry: &(Name, Node<Value>),
    entries: &ByName<(Name, Node<Value>)>,
) -> Result<bool, AllocError>
    ensures { IfOk result (λ stands. IsTrue stands ↔ HasEntry entries.now entry.now.0 entry.now.1) }
{
    match value_of(entries, &entry.0) {
        Some(other) => is_same_value(alloc, hash_seed, &entry.1.value, &other.value),
        None => Ok(false),
    }
}

/// Whether each key of the other entries is among these.
fn has_keys_of(entries: &ByName<(Name, Node<Value>)>, others: &[(Name, Node<Value>)]) -> bool
    ensures { IsTrue result ↔ HasKeysOf entries.now others.now }
{
    others
        .iter()
        .all(|(key, _)| value_of(entries, key).is_some())
}

/// The value of the first entry under the key.
fn value_of<'a>(entries: &ByName<'a, (Name, Node<Value>)>, key: &Name) -> Option<&'a Node<Value>>
    ensures { option_copied result ≡ entry_named key.now entries.now }
{
    entries.find(key).map(|(_, value)| value)
}
