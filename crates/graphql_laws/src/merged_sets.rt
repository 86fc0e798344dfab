//! Laws of the lists of fields that are merged together, and of the groups in them.

ghost use Rattle.std.specs.Prelude.{◌≡◌, ◌≢◌, ◌↔◌, ◌+◌, List, [], ◌∷◌, ◌++◌, All, Contains, length};
ghost use Rattle.graphql_nodes.specs.Names.{NameText, SameName};
ghost use Rattle.graphql_documents.specs.TypeReferences.{inner_named_type};
ghost use Rattle.graphql_documents.specs.Selections.{Fragments, fragments_of, selections_of};
ghost use Rattle.graphql_documents.specs.Built.{IsBuilt};
ghost use Rattle.graphql_documents.specs.Schemas.{NamesKind, is_output_type};
ghost use Rattle.graphql_documents.specs.Executables.{operations_of};
ghost use Rattle.graphql_specification.specs.MergedSets.{MergingDescent, Expansion, IsGroup, nested_sets, MergedSet};
ghost use Rattle.graphql_specification.specs.Merging.{FieldSelection, FieldInExpandedSet, Chain, SameKey, ParentsMayOverlap, set_of, type_of, SameResponseShape, SameNameAndArguments, HaveSameResponsePath, OverlapThroughout, FieldsCanMerge, Pass, shape_pass, field_pass};
ghost use Rattle.graphql_documents.specs.declared.documents.executables.ExecutableDocument.{ExecutableDocument};
ghost use Rattle.graphql_documents.specs.declared.documents.executables.Operation.{Operation};
ghost use Rattle.graphql_documents.specs.declared.documents.executables.SelectionSet.{SelectionSet};
ghost use Rattle.graphql_nodes.specs.declared.nodes.Node.{Node};
ghost use Rattle.graphql_documents.specs.declared.documents.schemas.Schema.{Schema};

/// The expansion of a list of sets lists a field exactly where it is inside one of the sets, if names that
/// are the same find the same fragment.
///
/// Specification: 5.3.2 Field Selection Merging, "including visiting fragments and inline fragments".
pub fn expansion_of_sets_lists_what_is_inside_one_of_them()
    ensures { (fragments : Fragments) → ((a b : NameText) → SameName a b → fragments a ≡ fragments b) →
        (sets : List SelectionSet) (fields : List FieldSelection) → Expansion fragments sets fields → (x : FieldSelection) →
        Contains fields x ↔ ((set : SelectionSet) × Contains sets set × FieldInExpandedSet fragments set x) }
{}

/// Each list of sets has an expansion.
///
/// Specification: 5.3.2 Field Selection Merging, "including visiting fragments and inline fragments".
pub fn each_list_of_sets_has_an_expansion()
    ensures { (document : ExecutableDocument) (sets : List SelectionSet) →
        (fields : List FieldSelection) × Expansion (fragments_of document) sets fields }
{}

/// There is one such expansion only.
///
/// Specification: 5.3.2 Field Selection Merging, "including visiting fragments and inline fragments".
pub fn no_list_of_sets_has_another_expansion()
    ensures { (fragments : Fragments) (sets : List SelectionSet) (a b : List FieldSelection) →
        Expansion fragments sets a → Expansion fragments sets b → a ≡ b }
{}

/// The list below a group has a field exactly where it is inside the set of one of the group's fields, if
/// names that are the same find the same fragment.
///
/// Specification: 5.3.2 Field Selection Merging, the merged set of two fields.
pub fn list_below_a_group_has_what_is_inside_the_sets_of_its_fields()
    ensures { (fragments : Fragments) → ((a b : NameText) → SameName a b → fragments a ≡ fragments b) →
        (group below : List FieldSelection) → Expansion fragments (nested_sets group) below → (x : FieldSelection) →
        Contains below x ↔ ((outer : FieldSelection) × Contains group outer × FieldInExpandedSet fragments (set_of outer) x) }
{}

/// Two fields are put together for their shapes exactly where both are in the list and have one key.
///
/// Specification: 5.3.2 Field Selection Merging, SameResponseShape.
pub fn fields_with_one_key_are_in_one_group()
    ensures { (schema : Schema) (fields : List FieldSelection) (x y : FieldSelection) →
        ((group : List FieldSelection) × IsGroup schema fields shape_pass group × Contains group x × Contains group y) ↔
        (Contains fields x × Contains fields y × SameKey x y) }
{}

/// Two fields are put together for their names and arguments exactly where both are in the list, have one
/// key, and their parents may overlap.
///
/// Specification: 5.3.2 Field Selection Merging, FieldsInSetCanMerge.
pub fn fields_with_one_key_and_overlapping_parents_are_in_one_group()
    ensures { (schema : Schema) (fields : List FieldSelection) (x y : FieldSelection) →
        ((group : List FieldSelection) × IsGroup schema fields field_pass group × Contains group x × Contains group y) ↔
        (Contains fields x × Contains fields y × SameKey x y × ParentsMayOverlap schema x y) }
{}

/// Two fields of a list that is merged for shapes come together in an operation, if they have one key and
/// names that are the same find the same fragment.
///
/// Specification: 5.3.2 Field Selection Merging, SameResponseShape.
pub fn fields_of_a_merged_list_come_together()
    ensures { (schema : Schema) (fragments : Fragments) → ((a b : NameText) → SameName a b → fragments a ≡ fragments b) →
        (operations : List (Node Operation)) (fields : List FieldSelection) (x y : FieldSelection) →
        MergedSet schema fragments operations shape_pass fields → Contains fields x → Contains fields y → SameKey x y →
        (o : Node Operation) × (xs : List FieldSelection) × (ys : List FieldSelection) × Contains operations o ×
        HaveSameResponsePath fragments o.value.value.selection_set xs ys x y }
{}

/// Two fields of a list that is merged for names and arguments come together in an operation where the
/// parents overlap throughout, if they have one key, their parents may overlap, and names that are the same
/// find the same fragment.
///
/// Specification: 5.3.2 Field Selection Merging, FieldsInSetCanMerge.
pub fn fields_of_a_merged_list_whose_parents_may_overlap_come_together()
    ensures { (schema : Schema) (fragments : Fragments) → ((a b : NameText) → SameName a b → fragments a ≡ fragments b) →
        (operations : List (Node Operation)) (fields : List FieldSelection) (x y : FieldSelection) →
        MergedSet schema fragments operations field_pass fields → Contains fields x → Contains fields y → SameKey x y →
        ParentsMayOverlap schema x y →
        (o : Node Operation) × (xs : List FieldSelection) × (ys : List FieldSelection) × Contains operations o ×
        HaveSameResponsePath fragments o.value.value.selection_set xs ys x y × OverlapThroughout schema xs ys x y }
{}

/// Operations merge exactly where the fields of each merged list agree: two with one key have one shape, and
/// are one field with the same arguments if their parents may overlap.
///
/// Specification: 5.3.2 Field Selection Merging.
pub fn operations_merge_where_the_fields_of_merged_lists_agree()
    ensures { (schema : Schema) (document : ExecutableDocument) (operations : List (Node Operation)) →
        ((o : Node Operation) → Contains operations o → FieldsCanMerge schema (fragments_of document) o.value.value.selection_set) ↔
        (((fields : List FieldSelection) → MergedSet schema (fragments_of document) operations shape_pass fields →
        (x y : FieldSelection) → Contains fields x → Contains fields y → SameKey x y →
        SameResponseShape schema (type_of x) (type_of y)) ×
        ((fields : List FieldSelection) → MergedSet schema (fragments_of document) operations field_pass fields →
        (x y : FieldSelection) → Contains fields x → Contains fields y → SameKey x y → ParentsMayOverlap schema x y →
        SameNameAndArguments x.field.value.value y.field.value.value)) }
{}

/// The fields of a list with one key have one shape exactly where the first of each group has the shape of
/// the rest, if their types name output types that are defined.
///
/// Specification: 5.3.2 Field Selection Merging, SameResponseShape.
pub fn first_of_each_group_decides_shapes()
    ensures { (schema : Schema) (fields : List FieldSelection) →
        ((x : FieldSelection) → Contains fields x → NamesKind schema is_output_type (inner_named_type (type_of x))) →
        ((group : List FieldSelection) (first : FieldSelection) (rest : List FieldSelection) →
        IsGroup schema fields shape_pass group → group ≡ first ∷ rest →
        All (λ z. SameResponseShape schema (type_of first) (type_of z)) rest) ↔
        ((x y : FieldSelection) → Contains fields x → Contains fields y → SameKey x y →
        SameResponseShape schema (type_of x) (type_of y)) }
{}

/// The fields of a list with one key whose parents may overlap are one field with the same arguments
/// exactly where the first of each group is so with the rest.
///
/// Specification: 5.3.2 Field Selection Merging, FieldsInSetCanMerge.
pub fn first_of_each_group_decides_names_and_arguments()
    ensures { (schema : Schema) (fields : List FieldSelection) →
        ((group : List FieldSelection) (first : FieldSelection) (rest : List FieldSelection) →
        IsGroup schema fields field_pass group → group ≡ first ∷ rest →
        All (λ z. SameNameAndArguments first.field.value.value z.field.value.value) rest) ↔
        ((x y : FieldSelection) → Contains fields x → Contains fields y → SameKey x y → ParentsMayOverlap schema x y →
        SameNameAndArguments x.field.value.value y.field.value.value) }
{}

/// Operations of a document that was built against its schema, all of them or some, merge exactly where, in
/// each group of each merged list, the first field agrees with the rest.
///
/// Specification: 5.3.2 Field Selection Merging.
pub fn operations_merge_where_the_first_of_each_group_agrees_with_the_rest()
    ensures { (schema : Schema) (document : ExecutableDocument) → IsBuilt schema document →
        (operations : List (Node Operation)) → All (Contains (operations_of document)) operations →
        ((o : Node Operation) → Contains operations o → FieldsCanMerge schema (fragments_of document) o.value.value.selection_set) ↔
        (((fields group : List FieldSelection) (first : FieldSelection) (rest : List FieldSelection) →
        MergedSet schema (fragments_of document) operations shape_pass fields →
        IsGroup schema fields shape_pass group → group ≡ first ∷ rest →
        All (λ z. SameResponseShape schema (type_of first) (type_of z)) rest) ×
        ((fields group : List FieldSelection) (first : FieldSelection) (rest : List FieldSelection) →
        MergedSet schema (fragments_of document) operations field_pass fields →
        IsGroup schema fields field_pass group → group ≡ first ∷ rest →
        All (λ z. SameNameAndArguments first.field.value.value z.field.value.value) rest)) }
{}

/// A descent through groups of merged lists has a chain of as many fields, of which the last selects
/// something, if names that are the same find the same fragment.
///
/// Specification: 5.3.2 Field Selection Merging, the merged set of two fields.
pub fn descent_has_a_chain_of_its_length()
    ensures { (schema : Schema) (fragments : Fragments) → ((a b : NameText) → SameName a b → fragments a ≡ fragments b) →
        (pass : Pass) (set : SelectionSet) (fields : List FieldSelection) (steps : List (List FieldSelection)) →
        Expansion fragments (set ∷ []) fields → MergingDescent schema fragments pass fields steps → steps ≢ [] →
        (chain : List FieldSelection) × (last : FieldSelection) × Chain fragments set (chain ++ last ∷ []) ×
        (length chain + 1 ≡ length steps) × (selections_of (set_of last) ≢ []) }
{}
