ghost use Rattle.std.specs.Prelude.{◌<◌, ◌^◌};

use super::numbered_fields::FieldList;
use graphql_hash_seeds::HashSeed;
use graphql_nodes::ValidationError;
use indexmap::IndexSet;
use std::alloc::Global;

/// The lists of fields that a pass has examined, and how often it has compared two shapes.
#[derive(Drop)]
pub(crate) struct Examined<'doc> {
    lists: IndexSet<FieldList<'doc>, HashSeed>,
    pub(crate) comparisons: u64,
    ghost small: { comparisons < 2 ^ 64 },
}

impl<'doc> Examined<'doc> {
    ghost use Rattle.std.specs.Prelude.{◌≡◌, ◌↔◌, ◌++◌, ◌∷◌, [], IsTrue, List, OnOk};
    ghost use Rattle.std.specs.List.{Any};
    ghost use Rattle.graphql_contents.specs.declared.contents.Content.{Content};
    ghost use Rattle.graphql_specification.specs.Merging.{SameFields};
    ghost use Rattle.graphql_merging.specs.NumberedFields.{AreNumberedIn, listed};
    ghost use Rattle.graphql_merging.specs.Passes.{IsNew};
    ghost use Rattle.graphql_merging.specs.Stages.{examined_lists};
    ghost use Rattle.graphql_merging.specs.Tables.{AreInOneTable, IsExaminedIn};

    /// Nothing was examined. Lists are hashed by this seed.
    pub(crate) fn new(alloc: Global, hash_seed: HashSeed) -> Examined<'doc>
        ensures lists { examined_lists result ≡ [] }
        ensures comparisons { result.comparisons ≡ 0 }
        ensures numbered { (contents : List Content) → IsExaminedIn contents result }
    {
        Examined {
            lists: IndexSet::with_hasher(alloc, hash_seed),
            comparisons: 0,
        }
    }

    /// The seed by which lists are hashed.
    pub(crate) fn hash_seed(&self) -> HashSeed {
        *self.lists.hasher()
    }

    /// Whether the same fields were examined, in the same order.
    pub(crate) fn knows(&self, list: &FieldList<'doc>) -> bool
        requires { AreInOneTable self.now list.now.fields.items }
        ensures { IsTrue result ↔ Any (SameFields (listed list.now.fields.items)) (examined_lists self.now) }
    {
        self.lists.contains(list)
    }

    /// Adds a list to those that were examined.
    pub(crate) fn add(&mut self, list: FieldList<'doc>) -> Result<(), ValidationError>
        requires numbered { AreInOneTable self.old list.fields.items }
        requires is_new { IsNew (examined_lists self.old) (listed list.fields.items) }
        ensures lists { OnOk result (examined_lists self.new ≡ examined_lists self.old ++ listed list.entry.fields.items ∷ []) }
        ensures comparisons { self.new.comparisons ≡ self.old.comparisons }
        ensures numbered { (contents : List Content) → IsExaminedIn contents self.old → AreNumberedIn contents list.entry.fields.items → IsExaminedIn contents self.new }
    {
        self.lists.insert(list)?;
        Ok(())
    }
}
