//! The law of the equality of fields.

ghost use Rattle.std.specs.Prelude.{◌≡◌, ◌↔◌, IsTrue};
ghost use Rattle.graphql_documents.specs.Contents.{SameField};
ghost use Rattle.graphql_nodes.specs.Names.{SameName};
ghost use Rattle.graphql_field_conflicts.specs.FieldEquality.{hash_input, selection_equality};
ghost use Rattle.graphql_field_conflicts.specs.declared.field_selections.FieldSelection.{FieldSelection};

/// `==` takes two fields for equal exactly when the types of their sets have one name and the fields have the same contents, places
/// apart; and equal ones are hashed alike.
///
/// Specification: 5.3.2 Field Selection Merging.
pub fn equality_of_fields_is_of_contents()
    ensures equality { (x y : FieldSelection) → IsTrue (selection_equality x y) ↔
        (SameName x.parent_type.now y.parent_type.now × SameField x.field.now.value.value y.field.now.value.value) }
    ensures hash { (x y : FieldSelection) → IsTrue (selection_equality x y) → hash_input x ≡ hash_input y }
{}
