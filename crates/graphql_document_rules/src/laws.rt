//! Laws of the response keys at the root of a subscription. Each law is a function that does nothing, whose contract is the law.

ghost use Rattle.std.specs.Prelude.{◌≡◌, Contains};
ghost use Rattle.graphql_document_rules.specs.SingleRootField.{HasOneResponseKey};
ghost use Rattle.graphql_documents.specs.Selections.{Fragments, response_key, selections_of};
ghost use Rattle.graphql_documents.specs.declared.documents.executables.Field.{Field};
ghost use Rattle.graphql_documents.specs.declared.documents.executables.Selection.TheVariants as kind;
ghost use Rattle.graphql_documents.specs.declared.documents.executables.Selection.{Selection};
ghost use Rattle.graphql_documents.specs.declared.documents.executables.SelectionSet.{SelectionSet};
ghost use Rattle.graphql_documents.specs.declared.documents.schemas.Schema.{Schema};
ghost use Rattle.graphql_nodes.specs.Names.{DifferentNames, NameText, SameName};
ghost use Rattle.graphql_nodes.specs.declared.nodes.Node.{Node};

/// A set of fields alone, all of one response key, has one response key, however many fields it has.
///
/// Specification: 5.2.3.1 Single Root Field.
pub fn fields_of_one_key_are_one_response_key()
    ensures { (schema : Schema) (fragments : Fragments) (set : SelectionSet) (key : NameText) →
        ((s : Selection) → Contains (selections_of set) s → (f : Node Field) × (s ≡ kind.Field f) × SameName (response_key f.value.value) key) →
        HasOneResponseKey schema fragments set }
{}

/// A set in which there are two fields of different response keys does not have one response key.
///
/// Specification: 5.2.3.1 Single Root Field.
pub fn fields_of_two_keys_are_not_one_response_key()
    ensures { (schema : Schema) (fragments : Fragments) (set : SelectionSet) (a b : Node Field) →
        Contains (selections_of set) (kind.Field a) → Contains (selections_of set) (kind.Field b) →
        DifferentNames (response_key a.value.value) (response_key b.value.value) → ¬ HasOneResponseKey schema fragments set }
{}
