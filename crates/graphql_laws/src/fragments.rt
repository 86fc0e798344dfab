//! Laws of cycles of fragments.

ghost use Rattle.std.specs.Prelude.{◌≡◌, List, Some};
ghost use Rattle.graphql_nodes.specs.Names.{NameText, SameName, DifferentNames};
ghost use Rattle.graphql_documents.specs.Selections.{Fragments, Written, fragments_of};
ghost use Rattle.graphql_specification.specs.Fragments.{IsFragmentCycle, FragmentHasNoCycle};
ghost use Rattle.graphql_documents.specs.declared.documents.executables.ExecutableDocument.{ExecutableDocument};
ghost use Rattle.graphql_documents.specs.declared.documents.executables.Fragment.{Fragment};
ghost use Rattle.graphql_documents.specs.declared.documents.executables.FragmentSpread.{FragmentSpread};
ghost use Rattle.graphql_documents.specs.declared.documents.executables.Selection.TheVariants as kind;
ghost use Rattle.graphql_nodes.specs.declared.nodes.Node.{Node};

/// A fragment that spreads itself has a cycle, also where the spread is below a field.
///
/// Specification: 5.5.2.2 Fragment Spreads Must Not Form Cycles.
pub fn fragment_that_spreads_itself_has_a_cycle()
    ensures { (fragments : Fragments) (d : Node Fragment) (p : Node FragmentSpread) →
        Written d.value.value.selection_set (kind.FragmentSpread p) →
        SameName p.value.value.fragment_name d.value.value.name →
        ¬ FragmentHasNoCycle fragments d }
{}

/// A fragment that only reaches a circle has no cycle itself: it spreads nothing but another, and that
/// spreads nothing but itself.
///
/// Specification: 5.5.2.2 Fragment Spreads Must Not Form Cycles.
pub fn fragment_that_only_reaches_a_circle_has_no_cycle()
    ensures { (fragments : Fragments) (d e : Node Fragment) (path : List (Node FragmentSpread)) →
        ((p : Node FragmentSpread) → Written d.value.value.selection_set (kind.FragmentSpread p) →
        SameName p.value.value.fragment_name e.value.value.name) →
        ((p : Node FragmentSpread) → Written e.value.value.selection_set (kind.FragmentSpread p) →
        SameName p.value.value.fragment_name e.value.value.name) →
        ((name : NameText) → SameName name e.value.value.name → fragments name ≡ Some e) →
        DifferentNames d.value.value.name e.value.value.name →
        ¬ IsFragmentCycle fragments d path }
{}

/// A fragment in which no fragment is spread has no cycle.
///
/// Specification: 5.5.2.2 Fragment Spreads Must Not Form Cycles.
pub fn fragment_without_spreads_has_no_cycle()
    ensures { (fragments : Fragments) (d : Node Fragment) →
        ((p : Node FragmentSpread) → ¬ Written d.value.value.selection_set (kind.FragmentSpread p)) →
        FragmentHasNoCycle fragments d }
{}

/// Names of one text find one fragment in a document, wherever they are.
///
/// Specification: 5.5.2.1 Fragment Spread Target Defined.
pub fn names_of_one_text_find_one_fragment()
    ensures { (document : ExecutableDocument) (a b : NameText) → SameName a b → fragments_of document a ≡ fragments_of document b }
{}
