//! Laws of what is reached from a selection set.

ghost use Rattle.std.specs.Prelude.{◌≡◌, List, [], ◌∷◌, Option, Some, None, Contains};
ghost use Rattle.graphql_nodes.specs.Names.{NameText};
ghost use Rattle.graphql_documents.specs.Selections.{Fragments, selections_of, definition_at, InExpandedSet, Reachable, ReachableOn};
ghost use Rattle.graphql_documents.specs.declared.documents.executables.Field.{Field};
ghost use Rattle.graphql_documents.specs.declared.documents.executables.Selection.{Selection};
ghost use Rattle.graphql_documents.specs.declared.documents.executables.Selection.TheVariants as kind;
ghost use Rattle.graphql_documents.specs.declared.documents.executables.SelectionSet.{SelectionSet};
ghost use Rattle.graphql_nodes.specs.declared.nodes.Node.{Node};
ghost use Rattle.graphql_documents.specs.declared.documents.schemas.Schema.{Schema};

/// What is inside the set of a field is reached from the set in which the field is.
///
/// Specification: 2.4 Selection Sets.
pub fn what_is_below_a_field_is_reachable()
    ensures { (fragments : Fragments) (set : SelectionSet) (f : Node Field) (s : Selection) →
        Contains (selections_of set) (kind.Field f) → InExpandedSet fragments f.value.value.selection_set s →
        Reachable fragments set s }
{}

/// Only what is in a set of fields is inside it: what is below its fields is not.
///
/// Specification: 5.3.2 Field Selection Merging.
pub fn what_is_below_a_field_is_not_inside()
    ensures { (fragments : Fragments) (set : SelectionSet) (s : Selection) →
        ((t : Selection) → Contains (selections_of set) t → (f : Node Field) × (t ≡ kind.Field f)) →
        InExpandedSet fragments set s → Contains (selections_of set) s }
{}

/// Where a field is all that a set has, and the known type there lacks it, nothing below it has a place.
///
/// Specification: 5.3.1 Field Selections.
pub fn what_is_below_an_unknown_field_has_no_place()
    ensures { (schema : Option Schema) (fragments : Fragments) (ty : NameText) (set : SelectionSet)
        (f : Node Field) (s : Selection) (here : Option NameText) →
        selections_of set ≡ kind.Field f ∷ [] → definition_at schema (Some ty) f.value.value.name ≡ None →
        ReachableOn schema fragments (Some ty) (selections_of set) s here → Contains (selections_of set) s }
{}
