//! Laws of the operations that were merged.

ghost use Rattle.std.specs.Prelude.{◌↔◌, All, Contains, IsFalse};
ghost use Rattle.graphql_documents.specs.Built.{IsBuilt};
ghost use Rattle.graphql_documents.specs.Executables.{operations_of};
ghost use Rattle.graphql_specification.specs.Merging.{FieldsCanMerge};
ghost use Rattle.graphql_documents.specs.Selections.{fragments_of};
ghost use Rattle.graphql_merging.specs.Mergers.{IsSound, document_of, has_refused, merging_of, schema_of};
ghost use Rattle.graphql_merging.specs.declared.merging.FieldsInSetCanMerge.{FieldsInSetCanMerge};

/// Whatever operations of a document that was built against its schema were handed to
/// `FieldsInSetCanMerge::validate_operation`, one after another: where memory was never refused and no
/// operation nests too deep, no conflict was found exactly where each of them merges.
///
/// Specification: 5.3.2 Field Selection Merging.
pub fn conflicts_decide_whether_operations_merge()
    ensures { (m : FieldsInSetCanMerge) → IsBuilt (schema_of m) (document_of m) →
        All (Contains (operations_of (document_of m))) (merging_of m).operations →
        IsSound m → IsFalse (has_refused m) → IsFalse (merging_of m).too_deep →
        IsFalse (merging_of m).conflicting ↔
        All (λ o. FieldsCanMerge (schema_of m) (fragments_of (document_of m)) o.value.value.selection_set) (merging_of m).operations }
{}
