//! Laws of the root fields of subscriptions.

ghost use Rattle.std.specs.Prelude.{◌≡◌, ◌↔◌, ◌≤◌, List, [], ◌∷◌, Some, length};
ghost use Rattle.graphql_nodes.specs.Names.{NameText, SameName};
ghost use Rattle.graphql_documents.specs.Selections.{Fragments, fragments_of, selections_of};
ghost use Rattle.graphql_specification.specs.Subscriptions.{WalkedFields, HasOneRootField};
ghost use Rattle.graphql_documents.specs.declared.documents.executables.ExecutableDocument.{ExecutableDocument};
ghost use Rattle.graphql_documents.specs.declared.documents.executables.Field.{Field};
ghost use Rattle.graphql_documents.specs.declared.documents.executables.Fragment.{Fragment};
ghost use Rattle.graphql_documents.specs.declared.documents.executables.FragmentSpread.{FragmentSpread};
ghost use Rattle.graphql_documents.specs.declared.documents.executables.Selection.TheVariants as kind;
ghost use Rattle.graphql_documents.specs.declared.documents.executables.SelectionSet.{SelectionSet};
ghost use Rattle.graphql_nodes.specs.declared.nodes.Node.{Node};

/// A set has one root field exactly where a walk over it and the fragments in it, which goes into each
/// named fragment once, meets one field at most.
///
/// Specification: 5.2.3.1 Single Root Field.
pub fn number_of_walked_fields_decides_one_root_field()
    ensures { (document : ExecutableDocument) (set : SelectionSet) (walked : List (Node Field)) (visited : List NameText) →
        WalkedFields (fragments_of document) [] (selections_of set) walked visited →
        (length walked ≤ 1) ↔ HasOneRootField (fragments_of document) set }
{}

/// Each set of a document has such a walk.
///
/// Specification: 5.2.3.1 Single Root Field.
pub fn each_set_is_walked()
    ensures { (document : ExecutableDocument) (set : SelectionSet) →
        (walked : List (Node Field)) × (visited : List NameText) ×
        WalkedFields (fragments_of document) [] (selections_of set) walked visited }
{}

/// A set that spreads a fragment of one field twice, and has nothing else, has one root field.
///
/// Specification: 5.2.3.1 Single Root Field.
pub fn fragment_of_one_field_spread_twice_is_one_root_field()
    ensures { (document : ExecutableDocument) (set : SelectionSet) (p q : Node FragmentSpread) (d : Node Fragment) (f : Node Field) →
        selections_of set ≡ kind.FragmentSpread p ∷ (kind.FragmentSpread q ∷ []) →
        SameName q.value.value.fragment_name p.value.value.fragment_name →
        fragments_of document p.value.value.fragment_name ≡ Some d →
        selections_of d.value.value.selection_set ≡ kind.Field f ∷ [] →
        HasOneRootField (fragments_of document) set }
{}

/// A set of two fields does not have one root field, whatever their names are.
///
/// Specification: 5.2.3.1 Single Root Field.
pub fn two_fields_are_not_one_root_field()
    ensures { (fragments : Fragments) (set : SelectionSet) (a b : Node Field) →
        selections_of set ≡ kind.Field a ∷ (kind.Field b ∷ []) → ¬ HasOneRootField fragments set }
{}
