//! Laws of the expansion of sets.

ghost use Rattle.std.specs.Prelude.{◌≡◌, List, [], ◌∷◌, Contains};
ghost use Rattle.graphql_nodes.specs.Names.{NameText, SameName};
ghost use Rattle.graphql_documents.specs.Selections.{Fragments};
ghost use Rattle.graphql_specification.specs.Merging.{FieldSelection, FieldInExpandedSet};
ghost use Rattle.graphql_specification.specs.MergedSets.{Expansion};
ghost use Rattle.graphql_documents.specs.declared.documents.executables.SelectionSet.{SelectionSet};

/// Each field that the expansion of a set lists is inside it.
///
/// Specification: 5.3.2 Field Selection Merging, "including visiting fragments and inline fragments".
pub fn what_an_expansion_lists_is_inside()
    ensures { (fragments : Fragments) (set : SelectionSet) (fields : List FieldSelection) →
        Expansion fragments (set ∷ []) fields →
        (x : FieldSelection) → Contains fields x → FieldInExpandedSet fragments set x }
{}

/// The expansion of a set lists each field inside it, though it meets each named fragment only once, if
/// names that are the same find the same fragment.
///
/// Specification: 5.3.2 Field Selection Merging, "including visiting fragments and inline fragments".
pub fn expansion_lists_what_is_inside()
    ensures { (fragments : Fragments) → ((a b : NameText) → SameName a b → fragments a ≡ fragments b) →
        (set : SelectionSet) (fields : List FieldSelection) → Expansion fragments (set ∷ []) fields →
        (x : FieldSelection) → FieldInExpandedSet fragments set x → Contains fields x }
{}
