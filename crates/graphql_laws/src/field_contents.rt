//! Laws of `==` at values, definitions of fields, fields and selections: it compares contents, not places.

ghost use Rattle.std.specs.Prelude.{◌↔◌, IsTrue, List, [], ◌∷◌};
ghost use Rattle.graphql_documents.specs.Contents.{SameField, SameFieldDefinition, SameSelections};
ghost use Rattle.graphql_specification.specs.MergedSets.{AreAlike};
ghost use Rattle.graphql_specification.specs.Merging.{FieldSelection, SameFields};
ghost use Rattle.graphql_documents.specs.Selections.{fragments_of};
ghost use Rattle.graphql_documents.specs.Values.{IsCopy, SameValue};
ghost use Rattle.graphql_documents.specs.declared.documents.definitions.FieldDefinition.{FieldDefinition};
ghost use Rattle.graphql_documents.specs.declared.documents.executables.ExecutableDocument.{ExecutableDocument};
ghost use Rattle.graphql_documents.specs.declared.documents.executables.Field.{Field};
ghost use Rattle.graphql_documents.specs.declared.documents.executables.Selection.{Selection};
ghost use Rattle.graphql_documents.specs.declared.documents.values.Value.{Value};
ghost use Rattle.graphql_laws.specs.Equality.{field_definition_equality, field_equality, selection_equality, value_equality};

/// `==` takes two values for equal exactly where the one is a copy of the other as written, places apart.
///
/// Specification: 2.9 Input Values.
pub fn equality_of_values_is_of_contents()
    ensures { (a b : Value) → IsTrue (value_equality a b) ↔ IsCopy a b }
{}

/// Values that `==` takes for equal are the same.
///
/// Specification: 5.3.2 Field Selection Merging.
pub fn equal_values_are_the_same()
    ensures { (a b : Value) → IsTrue (value_equality a b) → SameValue a b }
{}

/// `==` takes two definitions of fields for equal exactly where they have the same contents.
///
/// Specification: 3.6 Objects.
pub fn equality_of_field_definitions_is_of_contents()
    ensures { (a b : FieldDefinition) → IsTrue (field_definition_equality a b) ↔ SameFieldDefinition a b }
{}

/// `==` takes two fields for equal exactly where they have the same contents.
///
/// Specification: 2.5 Fields.
pub fn equality_of_fields_is_of_contents()
    ensures { (a b : Field) → IsTrue (field_equality a b) ↔ SameField a b }
{}

/// `==` takes two selections for equal exactly where they are of one kind and have the same contents: as lists of one
/// selection each, they have the same selections.
///
/// Specification: 2.4 Selection Sets.
pub fn equality_of_selections_is_of_contents()
    ensures { (a b : Selection) → IsTrue (selection_equality a b) ↔ SameSelections (a ∷ []) (b ∷ []) }
{}

/// Fields of the same contents are alike in all that merging asks about: key, name, arguments and type, and
/// the fields inside their sets, in any document.
///
/// Specification: 5.3.2 Field Selection Merging.
pub fn fields_of_the_same_contents_are_alike()
    ensures { (document : ExecutableDocument) (a b : Field) → SameField a b → AreAlike (fragments_of document) a b }
{}

/// A field has the same contents as itself.
///
/// Specification: 2.5 Fields.
pub fn field_has_the_same_contents_as_itself()
    ensures { (field : Field) → SameField field field }
{}

/// Where a field has the same contents as another, that has the same contents as it.
///
/// Specification: 2.5 Fields.
pub fn sameness_of_fields_goes_both_ways()
    ensures { (a b : Field) → SameField a b → SameField b a }
{}

/// Fields that have the same contents as a third have the same contents.
///
/// Specification: 2.5 Fields.
pub fn sameness_of_fields_goes_on()
    ensures { (a b c : Field) → SameField a b → SameField b c → SameField a c }
{}

/// A list of fields has the same fields as itself.
///
/// Specification: 5.3.2 Field Selection Merging.
pub fn list_has_the_same_fields_as_itself()
    ensures { (fields : List FieldSelection) → SameFields fields fields }
{}

/// Where a list has the same fields as another, that has the same fields as it.
///
/// Specification: 5.3.2 Field Selection Merging.
pub fn sameness_of_lists_of_fields_goes_both_ways()
    ensures { (a b : List FieldSelection) → SameFields a b → SameFields b a }
{}

/// Lists that have the same fields as a third have the same fields.
///
/// Specification: 5.3.2 Field Selection Merging.
pub fn sameness_of_lists_of_fields_goes_on()
    ensures { (a b c : List FieldSelection) → SameFields a b → SameFields b c → SameFields a c }
{}
