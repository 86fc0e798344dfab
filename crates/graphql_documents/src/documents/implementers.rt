ghost use Rattle.std.specs.Prelude.{◌≡◌, IfOk, OnOk, fold};
ghost use Rattle.graphql_documents.specs.Implementers.{implementer_entries, implementer_names, listings_of, with_implementer, with_own_name};
ghost use Rattle.graphql_documents.specs.Schemas.{implementers_map};

use super::schemas::{ExtendedType, Schema};
use graphql_hash_seeds::HashSeed;
use graphql_nodes::{Name, ValidationError};
use indexmap::{IndexMap, IndexSet};
use std::alloc::Global;

/// The own names of what implements an interface: of objects, and of other interfaces.
///
/// Specification: 3.7 Interfaces.
#[derive(Debug, Drop)]
pub struct Implementers<'a> {
    pub objects: IndexSet<&'a Name, HashSeed>,
    pub interfaces: IndexSet<&'a Name, HashSeed>,
}

impl<'a> Implementers<'a> {
    /// Adds the type to those of its kind, by its own name.
    fn add(&mut self, definition: &'a ExtendedType) -> Result<(), ValidationError>
        ensures { OnOk result (implementer_names self.new ≡ with_own_name (implementer_names self.old) definition.now) }
    {
        match definition {
            ExtendedType::Object(object) => {
                self.objects.insert(&object.value.name)?;
            }
            ExtendedType::Interface(interface) => {
                self.interfaces.insert(&interface.value.name)?;
            }
            _ => {}
        }
        Ok(())
    }
}

impl Schema {
    /// Each interface that some object or interface lists, in order of first listing, with the own names of
    /// those that list it, in order. The only error is a failed allocation.
    ///
    /// Specification: 3.7 Interfaces.
    pub fn implementers_map(
        &self,
        alloc: Global,
    ) -> Result<IndexMap<&Name, Implementers<'_>, HashSeed>, ValidationError>
        ensures { IfOk result (λ implementers. implementer_entries implementers.entries ≡ implementers_map self.now) }
    {
        let mut implementers = IndexMap::with_hasher(alloc, self.hash_seed());
        for (_, definition) in &self.types {
            add_type(&mut implementers, alloc, definition)?;
        }
        Ok(implementers)
    }
}

/// Adds the type to the implementers of each interface that it lists.
fn add_type<'a>(
    implementers: &mut IndexMap<&'a Name, Implementers<'a>, HashSeed>,
    alloc: Global,
    definition: &'a ExtendedType,
) -> Result<(), ValidationError>
    ensures { OnOk result (implementer_entries implementers.new.entries ≡
        fold with_implementer (implementer_entries implementers.old.entries) (listings_of definition.now)) }
{
    for interface in definition.implements_interfaces() {
        add_implementer(implementers, alloc, &interface.name, definition)?;
    }
    Ok(())
}

/// Adds the type to the implementers of an interface that it lists.
fn add_implementer<'a>(
    implementers: &mut IndexMap<&'a Name, Implementers<'a>, HashSeed>,
    alloc: Global,
    interface: &'a Name,
    definition: &'a ExtendedType,
) -> Result<(), ValidationError>
    ensures { OnOk result (implementer_entries implementers.new.entries ≡
        with_implementer (implementer_entries implementers.old.entries) (interface.now, definition.now)) }
{
    match implementers.get_mut(&interface) {
        Some(known) => known.add(definition)?,
        None => {
            let mut first = Implementers {
                objects: IndexSet::with_hasher(alloc, *implementers.hasher()),
                interfaces: IndexSet::with_hasher(alloc, *implementers.hasher()),
            };
            first.add(definition)?;
            implementers.insert(interface, first)?;
        }
    }
    Ok(())
}
