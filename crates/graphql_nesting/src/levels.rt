//! A document together with the levels of its fragments, for walks that ask for these.

ghost use Rattle.std.specs.Prelude.{◌≡◌, IfOk, IfSome, IsFalse, IsNone, IsSome, IsTrue, Some};
ghost use Rattle.graphql_nodes.specs.declared.nodes.Node.{Node};
ghost use Rattle.graphql_documents.specs.Selections.{fragments_of};
ghost use Rattle.graphql_documents.specs.declared.documents.executables.Fragment.{Fragment};
ghost use Rattle.graphql_nesting.specs.Nesting.{HasLevels, IsEndless};
ghost use Rattle.graphql_nesting.specs.Search.{AreSettled};

use crate::fragments::{FragmentNestings, find_fragment_levels};
use graphql_documents::documents::ExecutableDocument;
use graphql_nodes::{Name, ValidationError};
use std::alloc::Global;

/// A document with the levels of its fragments, where they were found.
#[derive(Drop)]
pub struct DocumentLevels<'doc> {
    pub document: &'doc ExecutableDocument,
    found: Option<FragmentNestings<'doc>>,
    ghost settled: { ∥ IfSome found (AreSettled document.now) ∥₁ },
}

impl<'doc> DocumentLevels<'doc> {
    ghost use Rattle.graphql_nesting.specs.Levels.{levels_are_found};

    /// A document of whose fragments no levels are known. This takes no memory.
    pub fn unknown(document: &'doc ExecutableDocument) -> DocumentLevels<'doc>
        ensures document { result.document.now ≡ document.now }
        ensures found { IsFalse (levels_are_found result) }
    {
        DocumentLevels {
            document,
            found: None,
        }
    }

    /// Finds the levels of the fragments of a document, in time that is linear in it, and without recursion. The only error is a
    /// failed allocation: a number of levels that does not fit is one too, since no memory holds so many sets.
    ///
    /// Specification: 2.4 Selection Sets, 2.8 Fragments.
    pub fn find(
        alloc: Global,
        document: &'doc ExecutableDocument,
    ) -> Result<DocumentLevels<'doc>, ValidationError>
        ensures document { IfOk result (λ levels. levels.document.now ≡ document.now) }
        ensures found { IfOk result (λ levels. IsTrue (levels_are_found levels)) }
    {
        let found = Some(find_fragment_levels(alloc, document)?);
        Ok(DocumentLevels { document, found })
    }

    /// The levels of the fragment that the document has under a name: how many selection sets a way down from it goes through at
    /// most, its own counted and spreads gone into. None where it has no such fragment, where its levels were not found, and where
    /// it leads to a fragment that leads back to itself.
    ///
    /// Specification: 2.8 Fragments; 5.5.2.2 Fragment spreads must not form cycles.
    pub fn levels_of(&self, name: &Name) -> Option<usize>
        ensures levels { IfSome result (λ levels. (d : Node Fragment) → fragments_of self.now.document.now name.now ≡ Some d →
            ∥ HasLevels (fragments_of self.now.document.now) d.value.value.selection_set levels ∥₁) }
        ensures endless { IsNone result → IsTrue (levels_are_found self.now) → (d : Node Fragment) →
            fragments_of self.now.document.now name.now ≡ Some d →
            ∥ IsEndless (fragments_of self.now.document.now) d.value.value.selection_set ∥₁ }
        ensures known { IsSome result → IsTrue (levels_are_found self.now) × IsSome (fragments_of self.now.document.now name.now) }
    {
        let found = self.found.as_ref()?;
        let number = self.document.fragments.get_index_of(name)?;
        found.levels_at(number)
    }
}
