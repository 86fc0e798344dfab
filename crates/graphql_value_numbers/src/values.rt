//! Values and their numbers.

ghost use Rattle.std.proofs.Props.{props};
ghost use Rattle.graphql_value_numbers.specs.Numbers.{IsTable};

use super::named_numbers::NamedNumbers;
use super::shapes::Shape;
use graphql_documents::documents::Value;
use graphql_hash_seeds::HashSeed;
use graphql_nodes::{Name, Node};
use indexmap::IndexSet;
use std::alloc::{AllocError, Global};

/// The numbers of values. The same values have one number, and different ones different numbers.
///
/// Specification: 5.3.2 Field Selection Merging.
#[derive(Drop)]
pub struct ValueNumbers<'doc> {
    shapes: IndexSet<Shape<'doc>, HashSeed>,
    ghost table: { IsTable shapes.keys } by { Prim.hlevel props },
}

impl<'doc> ValueNumbers<'doc> {
    ghost use Rattle.std.specs.Prelude.{◌≡◌, [], IfOk};
    ghost use Rattle.graphql_value_numbers.specs.Numbers.{AreEntriesNumbered, AreItemsNumbered, Grows, HasNumber, IsAt};
    ghost use Rattle.graphql_value_numbers.specs.Tables.{hash_seed_of, shapes_of};

    /// No value has a number yet. Shapes of values are hashed by this seed. It takes no memory.
    pub fn new(alloc: Global, hash_seed: HashSeed) -> ValueNumbers<'doc>
        ensures shapes { shapes_of result ≡ [] }
        ensures seed { hash_seed_of result ≡ hash_seed }
    {
        ValueNumbers {
            shapes: IndexSet::with_hasher(alloc, hash_seed),
        }
    }

    /// The number of a value, which takes time by its size. The only error is a failed allocation. Numbers that were
    /// given stay.
    #[cycle(numbering)]
    pub fn number_value(&mut self, alloc: Global, value: &'doc Value) -> Result<usize, AllocError>
        ensures grows { Grows (shapes_of self.old) (shapes_of self.new) }
        ensures number { IfOk result (HasNumber (shapes_of self.new) value.now) }
    {
        let shape = match value {
            Value::List(items) => Shape::List(self.number_items(alloc, items)?),
            Value::Object(entries) => Shape::Object(self.number_entries(alloc, entries)?),
            _ => Shape::Leaf(value),
        };
        self.add(shape)
    }

    /// The numbers of the items of a list, in order.
    #[cycle(numbering)]
    fn number_items(
        &mut self,
        alloc: Global,
        items: &'doc [Node<Value>],
    ) -> Result<Vec<usize>, AllocError>
        ensures grows { Grows (shapes_of self.old) (shapes_of self.new) }
        ensures numbers { IfOk result (λ numbers. AreItemsNumbered (shapes_of self.new) items.now numbers.items) }
    {
        let mut numbers = Vec::new(alloc);
        for item in items {
            let number = self.number_value(alloc, &item.value)?;
            numbers.push(number)?;
        }
        Ok(numbers)
    }

    /// Under each name the number of the value of the first of the entries of this name.
    #[cycle(numbering)]
    fn number_entries(
        &mut self,
        alloc: Global,
        entries: &'doc [(Name, Node<Value>)],
    ) -> Result<NamedNumbers<'doc>, AllocError>
        ensures grows { Grows (shapes_of self.old) (shapes_of self.new) }
        ensures numbers { IfOk result (AreEntriesNumbered (shapes_of self.new) entries.now) }
    {
        let mut numbers = NamedNumbers::new(alloc);
        for (name, value) in entries {
            if numbers.number_of(name).is_none() {
                let number = self.number_value(alloc, &value.value)?;
                numbers.insert(name, number)?;
            }
        }
        Ok(numbers)
    }

    /// The number of a shape, which gets the next one if it is new.
    pub(crate) fn add(&mut self, shape: Shape<'doc>) -> Result<usize, AllocError>
        ensures grows { Grows (shapes_of self.old) (shapes_of self.new) }
        ensures number { IfOk result (IsAt (shapes_of self.new) shape.entry) }
    {
        let (number, _) = self.shapes.insert_full(shape)?;
        Ok(number)
    }
}
