//! The changes that are found.

ghost use Rattle.std.specs.Prelude.{IsFalse, OnOk};
ghost use Rattle.graphql_change_kinds.specs.Breaks.{breaks};
ghost use Rattle.graphql_change_kinds.specs.Changes.{IsChange};
ghost use Rattle.graphql_change_kinds.specs.Found.{Finds};

use crate::changes::{Change, SchemaChange};
use graphql_documents::documents::Schema;
use graphql_hash_seeds::HashSeed;
use graphql_nodes::{SourceSpan, ValidationError};
use std::alloc::Global;

/// Two schemas: the old one and the new one.
#[derive(Clone, Copy)]
pub struct SchemaPair<'a> {
    pub old: &'a Schema,
    pub new: &'a Schema,
}

/// The places of a change in the old schema and in the new one.
#[derive(Clone, Copy)]
pub struct Places {
    pub old: Option<SourceSpan>,
    pub new: Option<SourceSpan>,
}

/// Changes in the order in which they were found, and the seed by which names are hashed.
#[derive(Drop)]
pub struct ChangeList {
    pub changes: Vec<SchemaChange>,
    pub hash_seed: HashSeed,
}

impl ChangeList {
    /// The allocator of the list.
    pub fn allocator(&self) -> Global {
        *self.changes.allocator()
    }

    /// Adds a change of the two schemas at the end.
    pub fn push(
        &mut self,
        pair: SchemaPair<'_>,
        change: Change,
        places: Places,
    ) -> Result<(), ValidationError>
        requires { IsChange pair.old.now pair.new.now change }
        ensures { OnOk result (Finds pair.entry.old.now pair.entry.new.now self.old self.new (λ merging. IsFalse (breaks merging change))) }
    {
        let Places { old, new } = places;
        self.changes.push(SchemaChange { change, old, new })?;
        Ok(())
    }
}
