ghost use Rattle.std.specs.Option.{option_copied};
ghost use Rattle.std.specs.Prelude.{◌≡◌, ◌↔◌, ◌⊎◌, IsSome, IsTrue};
ghost use Rattle.graphql_documents.specs.Values.{SameValue, entry_named};
ghost use Rattle.graphql_field_conflicts.specs.Comparisons.{HasEntry, HasKeysOf, SameEntries, SameItems, StandIn};

use graphql_documents::documents::Value;
use graphql_nodes::{Name, Node};

/// Whether two values are the same: of one kind, and of one text or truth value; lists as long, item by
/// item; objects with the same keys, by the first entry under each.
///
/// Specification: 5.3.2 Field Selection Merging.
#[cycle(value)]
pub fn same_value(a: &Value, b: &Value) -> bool
    ensures { IsTrue result ↔ SameValue a.now b.now }
{
    match (a, b) {
        (Value::Null, Value::Null) => true,
        (Value::Enum(a), Value::Enum(b)) => a == b,
        (Value::Variable(a), Value::Variable(b)) => a == b,
        (Value::String(a), Value::String(b)) => a == b,
        (Value::Float(a), Value::Float(b)) => a == b,
        (Value::Int(a), Value::Int(b)) => a == b,
        (Value::Boolean(a), Value::Boolean(b)) => a == b,
        (Value::List(a), Value::List(b)) => same_items(a, b),
        (Value::Object(a), Value::Object(b)) => same_entries(a, b),
        _ => false,
    }
}

/// Whether two lists are as long, and the same item by item.
#[cycle(value)]
fn same_items(a: &[Node<Value>], b: &[Node<Value>]) -> bool
    ensures { IsTrue result ↔ SameItems a.now b.now }
{
    if a.len() != b.len() {
        return false;
    }
    for (x, y) in a.iter().zip(b) {
        if !same_value(&x.value, &y.value) {
            return false;
        }
    }
    true
}

/// Whether two objects have the same keys, and under each key first entries of one value.
#[cycle(value)]
fn same_entries(a: &[(Name, Node<Value>)], b: &[(Name, Node<Value>)]) -> bool
    ensures { IsTrue result ↔ SameEntries a.now b.now }
{
    has_keys_of(a, b) && stand_in(a, b)
}

/// Whether each key of the other entries is among these.
fn has_keys_of(entries: &[(Name, Node<Value>)], others: &[(Name, Node<Value>)]) -> bool
    ensures { IsTrue result ↔ HasKeysOf entries.now others.now }
{
    others
        .iter()
        .all(|(key, _)| value_of(entries, key).is_some())
}

/// Whether under each of the keys the others have a first entry of the same value.
#[cycle(value)]
fn stand_in(entries: &[(Name, Node<Value>)], others: &[(Name, Node<Value>)]) -> bool
    ensures { IsTrue result ↔ StandIn entries.now others.now }
{
    for (i, (key, value)) in entries.iter().enumerate() {
        if !is_repeated(&entries[..i], key) && !stands_in(key, value, others) {
            return false;
        }
    }
    true
}

/// Whether the first of these entries under the key has the same value.
#[cycle(value)]
fn stands_in(key: &Name, value: &Node<Value>, entries: &[(Name, Node<Value>)]) -> bool
    ensures { IsTrue result ↔ HasEntry entries.now key.now value.now }
{
    match value_of(entries, key) {
        Some(other) => same_value(&value.value, &other.value),
        None => false,
    }
}

/// Whether an entry before has this key.
fn is_repeated(before: &[(Name, Node<Value>)], key: &Name) -> bool
    ensures { IsTrue result ↔ IsSome (entry_named key.now before.now) }
{
    value_of(before, key).is_some()
}

/// The value of the first entry with this key.
fn value_of<'a>(entries: &'a [(Name, Node<Value>)], key: &Name) -> Option<&'a Node<Value>>
    ensures { option_copied result ≡ entry_named key.now entries.now }
{
    entries
        .iter()
        .find(|(name, _)| name == key)
        .map(|(_, value)| value)
}
