//! Documents whose selections have the numbers of their contents.

ghost use Rattle.std.specs.Prelude.{◌≡◌, IfOk, length};
ghost use Rattle.graphql_contents.specs.Contents.{Grows};
ghost use Rattle.graphql_contents.specs.Fragments.{AreSetsNumbered, sets_among};
ghost use Rattle.graphql_contents.specs.Tables.{contents_of};

use super::contents::Contents;
use graphql_documents::documents::{ExecutableDocument, SelectionSet};
use graphql_hash_seeds::HashSeed;
use graphql_nodes::{Name, ValidationError};
use std::alloc::Global;

/// A selection set, with the numbers of the contents of its selections.
#[derive(Clone, Copy, Debug)]
pub struct NumberedSet<'n, 'doc> {
    pub set: &'doc SelectionSet,
    pub contents: &'n [usize],
}

/// A document, with the numbers of the contents of what is in its fragments once an operation was numbered, and of what is in the
/// operations that were. Selections of the same contents have one number.
#[derive(Drop)]
pub struct NumberedDocument<'doc> {
    document: &'doc ExecutableDocument,
    contents: Contents<'doc>,
    fragments: Vec<Vec<usize>>,
    ghost numbered: { ∥ (length fragments.items ≡ length (sets_among document.now.fragments) →
        AreSetsNumbered (contents_of contents) (sets_among document.now.fragments) fragments.items) ∥₁ },
}

impl<'doc> NumberedDocument<'doc> {
    ghost use Rattle.std.specs.Prelude.{[], IfSome, OnOk};
    ghost use Rattle.std.specs.Option.{option_map};
    ghost use Rattle.indexmap.specs.IndexMap.{hasher_of};
    ghost use Rattle.graphql_documents.specs.Selections.{fragments_of, selections_of};
    ghost use Rattle.graphql_documents.specs.declared.documents.executables.Selection.{Selection};
    ghost use Rattle.graphql_contents.specs.Contents.{AreNumbered, HasNumber, nested_selections};
    ghost use Rattle.graphql_contents.specs.Documents.{HasFragments, IsNumberedSet, contents_in, document_in};

    /// Nothing of the document is numbered yet. It takes no memory.
    pub fn new(alloc: Global, document: &'doc ExecutableDocument) -> NumberedDocument<'doc>
        ensures document { document_in result ≡ document.now }
        ensures contents { contents_in result ≡ [] }
    {
        NumberedDocument {
            document,
            contents: Contents::new(alloc, document.hash_seed()),
            fragments: Vec::new(alloc),
        }
    }

    /// The seed by which the names of the document are hashed.
    pub fn hash_seed(&self) -> HashSeed
        ensures { result ≡ hasher_of (document_in self.now).fragments }
    {
        self.document.hash_seed()
    }

    /// Numbers what is in the set of an operation, and in the fragments, if they have no numbers. The only error is a failed
    /// allocation. Numbers that were given stay.
    pub fn number_operation(
        &mut self,
        alloc: Global,
        set: &'doc SelectionSet,
    ) -> Result<Vec<usize>, ValidationError>
        ensures document { document_in self.new ≡ document_in self.old }
        ensures grows { Grows (contents_in self.old) (contents_in self.new) }
        ensures fragments { OnOk result (HasFragments self.new) }
        ensures numbers { IfOk result (λ numbers. AreNumbered (contents_in self.new) (selections_of set.now) numbers.items) }
    {
        self.number_fragments(alloc)?;
        self.contents.number_set(alloc, set)
    }

    /// Numbers what is in the fragments, if it has no numbers.
    fn number_fragments(&mut self, alloc: Global) -> Result<(), ValidationError>
        ensures document { document_in self.new ≡ document_in self.old }
        ensures grows { Grows (contents_in self.old) (contents_in self.new) }
        ensures fragments { OnOk result (HasFragments self.new) }
    {
        if self.fragments.len() == self.document.fragments.len() {
            return Ok(());
        }
        let fragments = number_fragments(alloc, self.document, &mut self.contents)?;
        self.fragments = fragments;
        Ok(())
    }

    /// The numbers of the contents of the selections in the set of a selection with this number.
    pub fn nested(&self, number: usize) -> &[usize]
        ensures { (s : Selection) → HasNumber (contents_in self.now) s number → AreNumbered (contents_in self.now) (nested_selections s) result.now }
    {
        self.contents.nested(number)
    }

    /// The set of the fragment of this name, if there is one.
    pub fn fragment_set(&self, name: &Name) -> Option<NumberedSet<'_, 'doc>>
        requires { HasFragments self.now }
        ensures set { option_map (λ s. s.set.now) result ≡ option_map (λ d. d.value.value.selection_set) (fragments_of (document_in self.now) name.now) }
        ensures numbers { IfSome result (IsNumberedSet (contents_in self.now)) }
    {
        let (number, _, fragment) = self.document.fragments.get_full(name)?;
        Some(NumberedSet {
            set: &fragment.value.selection_set,
            contents: &self.fragments[number],
        })
    }
}

/// The numbers of the contents of the selections in each fragment of a document.
fn number_fragments<'doc>(
    alloc: Global,
    document: &'doc ExecutableDocument,
    contents: &mut Contents<'doc>,
) -> Result<Vec<Vec<usize>>, ValidationError>
    ensures grows { Grows (contents_of contents.old) (contents_of contents.new) }
    ensures numbers { IfOk result (λ fragments. AreSetsNumbered (contents_of contents.new) (sets_among document.now.fragments) fragments.items) }
{
    let mut fragments = Vec::new(alloc);
    for fragment in document.fragments.values() {
        let numbers = contents.number_set(alloc, &fragment.value.selection_set)?;
        fragments.push(numbers)?;
    }
    Ok(fragments)
}
