//! Laws of field merging.

ghost use Rattle.std.specs.Prelude.{◌≡◌, ◌↔◌, List, [], ◌∷◌, Some, Contains, IsTrue};
ghost use Rattle.graphql_nodes.specs.Names.{SameName, DifferentNames};
ghost use Rattle.graphql_documents.specs.TypeReferences.{inner_named_type};
ghost use Rattle.graphql_documents.specs.Schemas.{type_definition, is_output_type};
ghost use Rattle.graphql_documents.specs.Selections.{Fragments, selections_of, response_key, Includes};
ghost use Rattle.graphql_specification.specs.MergedSets.{MeetingFieldsAgree};
ghost use Rattle.graphql_specification.specs.Merging.{FieldSelection, FieldInExpandedSet, set_of, type_of, SameKey, SameResponseShape, SameNameAndArguments, ParentsMayOverlap, OverlapThroughout, FieldsCanMerge};
ghost use Rattle.graphql_documents.specs.declared.documents.executables.Field.{Field};
ghost use Rattle.graphql_documents.specs.declared.documents.executables.Fragment.{Fragment};
ghost use Rattle.graphql_documents.specs.declared.documents.executables.FragmentSpread.{FragmentSpread};
ghost use Rattle.graphql_documents.specs.declared.documents.executables.InlineFragment.{InlineFragment};
ghost use Rattle.graphql_documents.specs.declared.documents.executables.Selection.TheVariants as kind;
ghost use Rattle.graphql_documents.specs.declared.documents.executables.SelectionSet.{SelectionSet};
ghost use Rattle.graphql_nodes.specs.declared.nodes.Node.{Node};
ghost use Rattle.graphql_documents.specs.declared.documents.schemas.ExtendedType.{ExtendedType};
ghost use Rattle.graphql_documents.specs.declared.documents.schemas.ExtendedType.TheVariants.{Object};
ghost use Rattle.graphql_documents.specs.declared.documents.schemas.ObjectType.{ObjectType};
ghost use Rattle.graphql_documents.specs.declared.documents.schemas.Schema.{Schema};
ghost use Rattle.graphql_documents.specs.declared.documents.type_references.Type.{«Type»};

/// Two fields of an object type with one key and different names do not merge.
///
/// Specification: 5.3.2 Field Selection Merging.
pub fn different_fields_under_one_key_do_not_merge()
    ensures { (schema : Schema) (fragments : Fragments) (set : SelectionSet) (object : Node ObjectType) (a b : Node Field) →
        type_definition schema set.ty ≡ Some (Object object) →
        Contains (selections_of set) (kind.Field a) → Contains (selections_of set) (kind.Field b) →
        SameName (response_key a.value.value) (response_key b.value.value) →
        DifferentNames a.value.value.name b.value.value.name →
        ¬ FieldsCanMerge schema fragments set }
{}

/// A set on an object type does not merge if two of its fields have one key and, in their sets, which are on one
/// object type, select two fields with one key and different names.
///
/// Specification: 5.3.2 Field Selection Merging.
pub fn different_fields_below_one_key_do_not_merge()
    ensures { (schema : Schema) (fragments : Fragments) (set : SelectionSet) (outer inner : Node ObjectType) (p q a b : Node Field) →
        type_definition schema set.ty ≡ Some (Object outer) →
        type_definition schema p.value.value.selection_set.ty ≡ Some (Object inner) →
        type_definition schema q.value.value.selection_set.ty ≡ Some (Object inner) →
        Contains (selections_of set) (kind.Field p) → Contains (selections_of set) (kind.Field q) →
        Contains (selections_of p.value.value.selection_set) (kind.Field a) →
        Contains (selections_of q.value.value.selection_set) (kind.Field b) →
        SameName (response_key p.value.value) (response_key q.value.value) →
        SameName (response_key a.value.value) (response_key b.value.value) →
        DifferentNames a.value.value.name b.value.value.name →
        ¬ FieldsCanMerge schema fragments set }
{}

/// Fields on two object types with different names never come together, whatever leads to them, so they
/// need not be one field.
///
/// Specification: 5.3.2 Field Selection Merging, on fields in sets of different object types.
pub fn fields_of_different_objects_need_not_be_one_field()
    ensures { (schema : Schema) (xs ys : List FieldSelection) (x y : FieldSelection) (a b : Node ObjectType) →
        type_definition schema x.parent ≡ Some (Object a) → type_definition schema y.parent ≡ Some (Object b) →
        DifferentNames a.value.value.name b.value.value.name →
        ¬ OverlapThroughout schema xs ys x y }
{}

/// Where a set merges, so does each set of a fragment in it.
///
/// Specification: 5.3.2 Field Selection Merging, "including visiting fragments and inline fragments".
pub fn sets_of_fragments_merge_with_the_set()
    ensures { (schema : Schema) (fragments : Fragments) (set inner : SelectionSet) →
        Includes fragments set inner → FieldsCanMerge schema fragments set → FieldsCanMerge schema fragments inner }
{}

/// Two fields in a fragment that spreads itself do not merge where it is spread, if they have one key and
/// different names.
///
/// Specification: 5.3.2 Field Selection Merging; 5.5.2.2 Fragment Spreads Must Not Form Cycles.
pub fn cyclic_fragment_with_different_fields_does_not_merge()
    ensures { (schema : Schema) (fragments : Fragments) (set : SelectionSet) (p q : Node FragmentSpread) (d : Node Fragment)
        (object : Node ObjectType) (a b : Node Field) →
        Contains (selections_of set) (kind.FragmentSpread p) → fragments p.value.value.fragment_name ≡ Some d →
        Contains (selections_of d.value.value.selection_set) (kind.FragmentSpread q) → fragments q.value.value.fragment_name ≡ Some d →
        type_definition schema d.value.value.selection_set.ty ≡ Some (Object object) →
        Contains (selections_of d.value.value.selection_set) (kind.Field a) →
        Contains (selections_of d.value.value.selection_set) (kind.Field b) →
        SameName (response_key a.value.value) (response_key b.value.value) →
        DifferentNames a.value.value.name b.value.value.name →
        ¬ FieldsCanMerge schema fragments set }
{}

/// Where a type has the shape of another, that has its shape.
///
/// Specification: 5.3.2 Field Selection Merging, SameResponseShape.
pub fn sameness_of_shapes_goes_both_ways()
    ensures { (schema : Schema) (a b : «Type») → SameResponseShape schema a b → SameResponseShape schema b a }
{}

/// Where a type has the shape of a second, and this that of a third, the first has the shape of the
/// third, if what the second names is defined.
///
/// Specification: 5.3.2 Field Selection Merging, SameResponseShape.
pub fn sameness_of_shapes_goes_on()
    ensures { (schema : Schema) (a b c : «Type») (d : ExtendedType) →
        type_definition schema (inner_named_type b) ≡ Some d →
        SameResponseShape schema a b → SameResponseShape schema b c → SameResponseShape schema a c }
{}

/// A type has its own shape, if what it names is an output type or not defined.
///
/// Specification: 5.3.2 Field Selection Merging, SameResponseShape.
pub fn output_type_has_its_own_shape()
    ensures { (schema : Schema) (ty : «Type») →
        ((d : ExtendedType) → type_definition schema (inner_named_type ty) ≡ Some d → IsTrue (is_output_type d)) →
        SameResponseShape schema ty ty }
{}

/// A set of leaf fields merges where its fields agree: two with one key have one shape, and are one field
/// with the same arguments if their parents may overlap.
///
/// Specification: 5.3.2 Field Selection Merging.
pub fn leaf_fields_that_agree_merge()
    ensures { (schema : Schema) (fragments : Fragments) (set : SelectionSet) →
        ((x : FieldSelection) → FieldInExpandedSet fragments set x → selections_of (set_of x) ≡ []) →
        ((x y : FieldSelection) → FieldInExpandedSet fragments set x → FieldInExpandedSet fragments set y → SameKey x y →
        SameResponseShape schema (type_of x) (type_of y)) →
        ((x y : FieldSelection) → FieldInExpandedSet fragments set x → FieldInExpandedSet fragments set y → SameKey x y →
        ParentsMayOverlap schema x y → SameNameAndArguments x.field.value.value y.field.value.value) →
        FieldsCanMerge schema fragments set }
{}

/// Where a set merges, so do the sets of two of its fields with one key, put together, if the parents of
/// the fields may overlap.
///
/// Specification: 5.3.2 Field Selection Merging, FieldsInSetCanMerge of the merged set.
pub fn sets_of_fields_with_one_key_merge_together()
    ensures { (schema : Schema) (fragments : Fragments) (set : SelectionSet) (x y : FieldSelection) →
        FieldInExpandedSet fragments set x → FieldInExpandedSet fragments set y → SameKey x y → ParentsMayOverlap schema x y →
        (together : SelectionSet) (i j : Node InlineFragment) →
        selections_of together ≡ kind.InlineFragment i ∷ (kind.InlineFragment j ∷ []) →
        i.value.value.selection_set ≡ set_of x → j.value.value.selection_set ≡ set_of y →
        FieldsCanMerge schema fragments set → FieldsCanMerge schema fragments together }
{}

/// A set merges exactly where all fields that meet in it agree: to follow two chains from the set and to go down from
/// two fields that are put together is one.
///
/// Specification: 5.3.2 Field Selection Merging, FieldsInSetCanMerge.
pub fn set_merges_where_meeting_fields_agree()
    ensures { (schema : Schema) (fragments : Fragments) (set : SelectionSet) →
        FieldsCanMerge schema fragments set ↔ MeetingFieldsAgree schema fragments set }
{}
