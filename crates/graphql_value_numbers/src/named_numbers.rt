//! Numbers under names.

ghost use Rattle.std.specs.Prelude.{◌≡◌, None, OnErr, OnOk, Some, cond};
ghost use Rattle.graphql_nodes.specs.Names.{NameText, same_name};
ghost use Rattle.graphql_value_numbers.specs.NamedNumbers.{AreOrdered, number_under};

use graphql_nodes::Name;
use std::alloc::{AllocError, Global};
use std::collections::BTreeMap;

/// Numbers under names, in order of the names. Two are equal where they have the same numbers under the same names.
#[derive(Drop, PartialEq, Eq, Hash)]
pub(crate) struct NamedNumbers<'doc> {
    numbers: BTreeMap<&'doc str, usize>,
}

impl<'doc> NamedNumbers<'doc> {
    /// A value without numbers and names.
    pub(crate) fn new(alloc: Global) -> NamedNumbers<'doc>
        ensures none { (name : NameText) → number_under result name ≡ None }
        ensures ordered { AreOrdered result }
    {
        NamedNumbers {
            numbers: BTreeMap::new(alloc),
        }
    }

    /// The number under the name.
    pub(crate) fn number_of(&self, name: &Name) -> Option<usize>
        ensures { result ≡ number_under self.now name.now }
    {
        self.numbers.get(name.as_str()).copied()
    }

    /// Has the number under the name from now on. The only error is a failed allocation.
    pub(crate) fn insert(&mut self, name: &'doc Name, number: usize) -> Result<(), AllocError>
        ensures inserted { OnOk result ((other : NameText) → number_under self.new other ≡ cond (same_name name.now other) (Some number) (number_under self.old other)) }
        ensures unchanged { OnErr result ((name : NameText) → number_under self.new name ≡ number_under self.old name) }
        ensures ordered { AreOrdered self.new }
    {
        self.numbers.insert(name.as_str(), number)?;
        Ok(())
    }
}
