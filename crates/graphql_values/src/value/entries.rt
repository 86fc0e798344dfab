//! The entries of an object value, found by their names.

ghost use Rattle.std.specs.Option.{option_copied};
ghost use Rattle.std.specs.Prelude.{◌≡◌, ◌↔◌, IfOk, IsFalse, find};
ghost use Rattle.graphql_nodes.specs.Names.{same_name};
ghost use Rattle.graphql_specification.specs.Values.{HasNoNullEntry};
ghost use Rattle.graphql_values.specs.EntriesByName.{HasNullNames};

use graphql_documents::documents::Value;
use graphql_hash_seeds::HashSeed;
use graphql_name_tables::ByName;
use graphql_name_tables::places::{FEW, Places, add_if_new, place_of};
use graphql_nodes::{Name, Node, ValidationError};
use std::alloc::Global;
use std::marker::Model;

/// The entries of an object value, found by the names of the fields of its input object.
#[derive(Drop)]
pub(super) struct EntriesByName<'a> {
    entries: &'a [(Name, Node<Value>)],
    first: ByName<'a, (Name, Node<Value>)>,
    // the names of the entries that are null; none where the entries are few
    null_names: Option<Places<'a>>,
}

impl<'a> Model for EntriesByName<'a> {
    ghost use Rattle.std.specs.Option.{ForSome};
    ghost use Rattle.std.specs.Prelude.{◌≡◌, List};
    ghost use Rattle.std.specs.Coded.{codes};
    ghost use Rattle.graphql_documents.specs.contracts.documents.values.Value as values;
    ghost use Rattle.graphql_documents.specs.declared.documents.values.Value.{Value as Literal};
    ghost use Rattle.graphql_nodes.specs.Names.{NameText};
    ghost use Rattle.graphql_nodes.specs.declared.nodes.Node.{Node};
    ghost use Rattle.graphql_values.specs.EntriesByName.{HasNullNames};

    ghost Value = { List (NameText × Node Literal) };

    ghost coded = { Prim.hlevel (codes, values.the_row.coded) };

    ghost view = { λ named. named.entries.now };

    ghost invariant = { λ named. (named.first ≡ named.entries.now) × ForSome named.null_names (λ names. HasNullNames names named.entries.now) };
}

impl<'a> EntriesByName<'a> {
    /// These entries, of which about so many will be looked up, their names hashed by this seed. The only error is a failed
    /// allocation; few entries take no memory.
    pub(super) fn new(
        alloc: Global,
        hash_seed: HashSeed,
        entries: &'a [(Name, Node<Value>)],
        look_ups: usize,
    ) -> Result<EntriesByName<'a>, ValidationError>
        ensures { IfOk result (λ named. named ≡ entries.now) }
    {
        let first = ByName::new(alloc, hash_seed, entries, look_ups)?;
        if entries.len() <= FEW {
            return Ok(EntriesByName {
                entries,
                first,
                null_names: None,
            });
        }
        let null_names = null_names_of(alloc, hash_seed, entries)?;
        Ok(EntriesByName {
            entries,
            first,
            null_names: Some(null_names),
        })
    }

    /// The first entry with this name.
    pub(super) fn find(&self, name: &Name) -> Option<&'a (Name, Node<Value>)>
        ensures { option_copied result ≡ find (λ entry. same_name entry.0 name.now) self.now }
    {
        self.first.find(name)
    }

    /// Whether an entry with this name is null.
    pub(super) fn has_null(&self, name: &Name) -> bool
        ensures { IsFalse result ↔ HasNoNullEntry self.now name.now }
    {
        match &self.null_names {
            None => has_null_entry(self.entries, name),
            Some(names) => place_of(names, name).is_some(),
        }
    }
}

/// Whether an entry with this name is null.
fn has_null_entry(entries: &[(Name, Node<Value>)], name: &Name) -> bool
    ensures { IsFalse result ↔ HasNoNullEntry entries.now name.now }
{
    entries.iter().any(|(key, value)| key == name && matches!(&*value.value, Value::Null))
}

/// The names of the entries that are null, each with a place of one.
fn null_names_of<'a>(
    alloc: Global,
    hash_seed: HashSeed,
    entries: &'a [(Name, Node<Value>)],
) -> Result<Places<'a>, ValidationError>
    ensures { IfOk result (λ names. HasNullNames names entries.now) }
{
    let mut names = Places::with_hasher(alloc, hash_seed);
    for (place, (name, value)) in entries.iter().enumerate() {
        if matches!(&*value.value, Value::Null) {
            add_if_new(&mut names, name, place)?;
        }
    }
    Ok(names)
}
