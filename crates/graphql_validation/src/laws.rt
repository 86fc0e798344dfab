//! What follows for whoever answers a request from what the calls say. Each law is a function that does nothing,
//! whose contract is the law.

ghost use Rattle.std.specs.Prelude.{◌↔◌, [], All, Any, Contains, List};
ghost use Rattle.graphql_documents.specs.Built.{IsBuilt};
ghost use Rattle.graphql_specification.specs.CollectFields.{CollectedFrom, CollectsFrom, Gathered};
ghost use Rattle.graphql_documents.specs.Executables.{operations_of};
ghost use Rattle.graphql_specification.specs.MergedSets.{under_key};
ghost use Rattle.graphql_specification.specs.Merging.{FieldSelection, FieldsCanMerge, SameNameAndArguments, SameResponseShape, type_of};
ghost use Rattle.graphql_nodes.specs.Names.{NameText};
ghost use Rattle.graphql_documents.specs.Selections.{fragments_of};
ghost use Rattle.graphql_documents.specs.declared.documents.executables.ExecutableDocument.{ExecutableDocument};
ghost use Rattle.graphql_documents.specs.declared.documents.executables.Operation.{Operation};
ghost use Rattle.graphql_documents.specs.declared.documents.executables.SelectionSet.{SelectionSet};
ghost use Rattle.graphql_nodes.specs.declared.nodes.Node.{Node};
ghost use Rattle.graphql_documents.specs.declared.documents.schemas.Schema.{Schema};

/// The walk that collects fields lists exactly those that are collected from one of the sets: each is there,
/// or in a fragment there, and all sets and conditions on the way apply to the object.
///
/// Specification: 6.3.2 Field Collection.
pub fn walk_lists_what_is_collected()
    ensures { (schema : Schema) (document : ExecutableDocument) (object : NameText) (sets : List SelectionSet) (fields : List FieldSelection) →
        CollectsFrom schema (fragments_of document) object [] sets fields → (x : FieldSelection) →
        Contains fields x ↔ Any (λ set. CollectedFrom schema (fragments_of document) object set x) sets }
{}

/// Of a document that was built, in an operation that merges: where the sets were gathered along one path of
/// object types and response keys, all fields that an object answers under one key are one field of one name
/// with the same arguments, and of one shape. So whoever executes the operation can answer them by the first.
///
/// Specification: 5.3.2 Field Selection Merging; 6.3.2 Field Collection.
pub fn fields_under_one_key_agree()
    ensures { (schema : Schema) (document : ExecutableDocument) (operation : Node Operation) →
        IsBuilt schema document → Contains (operations_of document) operation →
        FieldsCanMerge schema (fragments_of document) operation.value.value.selection_set →
        (path : List (NameText × NameText)) (object : NameText) (sets : List SelectionSet) →
        All (Gathered schema (fragments_of document) operation.value.value path) sets →
        (fields : List FieldSelection) → CollectsFrom schema (fragments_of document) object [] sets fields →
        (key : NameText) (x y : FieldSelection) → Contains (under_key key fields) x → Contains (under_key key fields) y →
        SameNameAndArguments x.field.value.value y.field.value.value × SameResponseShape schema (type_of x) (type_of y) }
{}
