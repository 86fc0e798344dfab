//! The contents of selections, and their numbers.

ghost use Rattle.graphql_contents.specs.Contents.{IsTable};

use super::written::Written;
use graphql_documents::documents::{Selection, SelectionSet};
use graphql_hash_seeds::HashSeed;
use graphql_nodes::ValidationError;
use indexmap::IndexSet;
use std::alloc::Global;

/// What a selection holds: what is written in it, and the numbers of the contents of the selections in its set.
#[derive(Drop)]
#[derive_where(PartialEq, Eq, Hash)]
struct Content<'doc> {
    written: Written<'doc>,
    nested: Vec<usize>,
    // The first selection with these contents.
    #[derive_where(skip)]
    selection: &'doc Selection,
}

/// The contents of selections. Equal ones have one number, and different ones different numbers.
#[derive(Drop)]
pub(crate) struct Contents<'doc> {
    contents: IndexSet<Content<'doc>, HashSeed>,
    ghost table: { ∥ IsTable contents.keys ∥₁ },
}

impl<'doc> Contents<'doc> {
    ghost use Rattle.std.specs.Prelude.{◌≡◌, [], IfOk};
    ghost use Rattle.graphql_documents.specs.Selections.{selections_of};
    ghost use Rattle.graphql_contents.specs.Contents.{AreNumbered, Grows, HasNumber, IsContentOf, nested_selections};
    ghost use Rattle.graphql_documents.specs.declared.documents.executables.Selection.{Selection};
    ghost use Rattle.graphql_contents.specs.Tables.{contents_of};

    /// No contents are known yet. They are hashed by this seed. It takes no memory.
    pub(crate) fn new(alloc: Global, hash_seed: HashSeed) -> Contents<'doc>
        ensures { contents_of result ≡ [] }
    {
        Contents {
            contents: IndexSet::with_hasher(alloc, hash_seed),
        }
    }

    /// The numbers of the contents of the selections of a set, in order. The only error is a failed allocation.
    #[cycle(numbering)]
    pub(crate) fn number_set(
        &mut self,
        alloc: Global,
        set: &'doc SelectionSet,
    ) -> Result<Vec<usize>, ValidationError>
        ensures grows { Grows (contents_of self.old) (contents_of self.new) }
        ensures numbers { IfOk result (λ numbers. AreNumbered (contents_of self.new) (selections_of set.now) numbers.items) }
    {
        let mut numbers = Vec::new(alloc);
        for selection in &set.selections {
            let number = self.number_selection(alloc, selection)?;
            numbers.push(number)?;
        }
        Ok(numbers)
    }

    /// The numbers of the contents of the selections in the set of a selection with this number; none, if no contents have it.
    pub(crate) fn nested(&self, number: usize) -> &[usize]
        ensures { (s : Selection) → HasNumber (contents_of self.now) s number → AreNumbered (contents_of self.now) (nested_selections s) result.now }
    {
        match self.contents.get_index(number) {
            Some(content) => &content.nested,
            None => &[],
        }
    }

    /// The number of the contents of a selection.
    #[cycle(numbering)]
    fn number_selection(
        &mut self,
        alloc: Global,
        selection: &'doc Selection,
    ) -> Result<usize, ValidationError>
        ensures grows { Grows (contents_of self.old) (contents_of self.new) }
        ensures number { IfOk result (HasNumber (contents_of self.new) selection.now) }
    {
        let nested = match selection {
            Selection::Field(field) => self.number_set(alloc, &field.value.selection_set)?,
            Selection::InlineFragment(inline) => {
                self.number_set(alloc, &inline.value.selection_set)?
            }
            Selection::FragmentSpread(_) => Vec::new(alloc),
        };
        let written = Written::of(selection);
        self.add(Content {
            written,
            nested,
            selection,
        })
    }

    /// The number of these contents, which get the next one if they are new.
    fn add(&mut self, content: Content<'doc>) -> Result<usize, ValidationError>
        requires { IsContentOf (contents_of self.old) content.selection.now content }
        ensures grows { Grows (contents_of self.old) (contents_of self.new) }
        ensures number { IfOk result (HasNumber (contents_of self.new) content.entry.selection.now) }
    {
        let (number, _) = self.contents.insert_full(content)?;
        Ok(number)
    }
}
