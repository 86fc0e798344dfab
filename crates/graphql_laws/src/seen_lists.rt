//! The law of the merged lists that a walk has seen.

ghost use Rattle.std.specs.Prelude.{◌↔◌, List, All, Contains};
ghost use Rattle.graphql_documents.specs.Selections.{fragments_of};
ghost use Rattle.graphql_documents.specs.Built.{IsBuilt};
ghost use Rattle.graphql_documents.specs.Executables.{operations_of};
ghost use Rattle.graphql_specification.specs.Merging.{FieldSelection, FieldsCanMerge, SameFields, Pass, field_pass, shape_pass};
ghost use Rattle.graphql_specification.specs.MergedSets.{MergedSet, HasSeen, ListPasses};
ghost use Rattle.graphql_documents.specs.declared.documents.executables.ExecutableDocument.{ExecutableDocument};
ghost use Rattle.graphql_documents.specs.declared.documents.executables.Operation.{Operation};
ghost use Rattle.graphql_nodes.specs.declared.nodes.Node.{Node};
ghost use Rattle.graphql_documents.specs.declared.documents.schemas.Schema.{Schema};

/// Operations of a document that was built against its schema, all of them or some, merge exactly where, in
/// each group of each list that two walks have seen, the first field agrees with the rest: one walk over the
/// lists that are merged for shapes, and one over those for names and arguments. A walk may pass over a list
/// of the same fields, by their contents, as a list that it has seen.
///
/// Specification: 5.3.2 Field Selection Merging.
pub fn lists_that_were_seen_decide_merging()
    ensures { (schema : Schema) (document : ExecutableDocument) → IsBuilt schema document →
        (operations : List (Node Operation)) → All (Contains (operations_of document)) operations →
        (shapes fields : List (List FieldSelection)) →
        HasSeen schema (fragments_of document) operations shape_pass shapes →
        HasSeen schema (fragments_of document) operations field_pass fields →
        ((o : Node Operation) → Contains operations o → FieldsCanMerge schema (fragments_of document) o.value.value.selection_set) ↔
        (All (ListPasses schema shape_pass) shapes × All (ListPasses schema field_pass) fields) }
{}

/// A walk that has seen lists so has seen each merged list of the operations, but for places: for each of them
/// one that it has seen has the same fields, by their contents, in the same order.
///
/// Specification: 5.3.2 Field Selection Merging.
pub fn each_merged_list_was_seen()
    ensures { (schema : Schema) (document : ExecutableDocument) (operations : List (Node Operation)) (pass : Pass) (seen : List (List FieldSelection)) →
        HasSeen schema (fragments_of document) operations pass seen →
        (fields : List FieldSelection) → MergedSet schema (fragments_of document) operations pass fields →
        (known : List FieldSelection) × Contains seen known × SameFields fields known }
{}
