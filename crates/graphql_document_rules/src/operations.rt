//! The rules of operations that need a schema.

ghost use Rattle.std.specs.Prelude.{◌≡◌, ◌⊎◌, [], All, IfOk, IsFalse, IsTrue, OnOk, Some, map};
ghost use Rattle.graphql_diagnostics.specs.Diagnostics.{IsLimitEntry, entries};
ghost use Rattle.graphql_diagnostics.specs.Reports.{Appends, ChecksWithin, KeepsReports, ReportsWithin};
ghost use Rattle.graphql_document_rules.specs.DocumentRules.{FixedRuleReport};
ghost use Rattle.graphql_document_rules.specs.SingleRootField.{OperationRootHolds};
ghost use Rattle.graphql_documents.specs.Built.{IsBuilt};
ghost use Rattle.graphql_documents.specs.Executables.{operations_of};
ghost use Rattle.graphql_documents.specs.Selections.{fragments_of};
ghost use Rattle.graphql_validation.specs.Works.{IsPassed, most_of};
ghost use Rattle.graphql_specification.specs.Documents.{DocumentLimit};
ghost use Rattle.graphql_specification.specs.Merging.{FieldsCanMerge};

use crate::subscriptions::validate_subscription_root;
use graphql_diagnostics::DiagnosticList;
use graphql_documents::documents::{ExecutableDocument, Operation, Schema};
use graphql_merging::bounded::BoundedMerging;
use graphql_nodes::{Node, ValidationError};
use graphql_operations::operations_of;
use graphql_validation::lone_fields::lone_fields::have_lone_fields;
use graphql_validation::pair_merging::merging::merge_by_pairs_within;
use graphql_validation::pair_merging::work::PairWork;

/// Validates the operations of a document by the rules that need a schema, one after another: those of subscriptions, and that
/// all fields that come together in a response agree: if some do, by sets as far as the work allows, and then by pairs. Answers
/// whether all of this was decided: it was, unless the work that merging by pairs has counted passes its bound.
pub(crate) fn validate_operations(
    diagnostics: &mut DiagnosticList,
    schema: &Schema,
    document: &ExecutableDocument,
    work: usize,
    pair_work: &mut PairWork,
) -> Result<bool, ValidationError>
    ensures holds { IsBuilt schema.now document.now →
        IfOk result (λ decided. IsTrue decided → ReportsWithin IsLimitEntry
        (All (λ o. OperationRootHolds schema.now document.now o.value.value) (operations_of document.now) ×
        All (λ o. FieldsCanMerge schema.now (fragments_of document.now) o.value.value.selection_set) (operations_of document.now))
        (λ e. FixedRuleReport (Some schema.now) document.now e ⊎ DocumentLimit (Some schema.now) document.now e.details e.location)
        (entries diagnostics.old) (entries diagnostics.new)) }
    ensures truth { KeepsReports
        (λ e. FixedRuleReport (Some schema.now) document.now e ⊎ DocumentLimit (Some schema.now) document.now e.details e.location)
        (entries diagnostics.old) (entries diagnostics.new) }
    ensures subscriptions { OnOk result (Appends (λ added. added ≡ [] → All (λ o. OperationRootHolds schema.now document.now o.value.value) (operations_of document.now))
        (entries diagnostics.old) (entries diagnostics.new)) }
    ensures passed { IfOk result (λ decided. IsFalse decided → IsPassed pair_work.new) }
    ensures most { most_of pair_work.new ≡ most_of pair_work.old }
{
    let alloc = diagnostics.allocator();
    let operations = operations_of(alloc, document)?;
    if have_lone_fields(alloc, document, &operations, work)? {
        validate_subscriptions(diagnostics, schema, document, &operations)?;
        return Ok(true);
    }
    validate_and_merge(diagnostics, schema, document, &operations, work, pair_work)
}

/// Validates operations by the rules of subscriptions, one after another.
fn validate_subscriptions(
    diagnostics: &mut DiagnosticList,
    schema: &Schema,
    document: &ExecutableDocument,
    operations: &[&Node<Operation>],
) -> Result<(), ValidationError>
    requires { map (λ o. o.now) operations.now ≡ operations_of document.now }
    ensures { ChecksWithin result (All (λ o. OperationRootHolds schema.now document.now o.value.value) (operations_of document.now))
        (FixedRuleReport (Some schema.now) document.now)
        (λ e. DocumentLimit (Some schema.now) document.now e.details e.location)
        diagnostics.old diagnostics.new }
{
    for operation in operations {
        validate_subscription_root(schema, document, operation, diagnostics)?;
    }
    Ok(())
}

/// Validates operations by the rules that need a schema, one after another, and answers whether all of this was decided.
fn validate_and_merge(
    diagnostics: &mut DiagnosticList,
    schema: &Schema,
    document: &ExecutableDocument,
    operations: &[&Node<Operation>],
    work: usize,
    pair_work: &mut PairWork,
) -> Result<bool, ValidationError>
    requires { map (λ o. o.now) operations.now ≡ operations_of document.now }
    ensures holds { IsBuilt schema.now document.now →
        IfOk result (λ decided. IsTrue decided → ReportsWithin IsLimitEntry
        (All (λ o. OperationRootHolds schema.now document.now o.value.value) (operations_of document.now) ×
        All (λ o. FieldsCanMerge schema.now (fragments_of document.now) o.value.value.selection_set) (operations_of document.now))
        (λ e. FixedRuleReport (Some schema.now) document.now e ⊎ DocumentLimit (Some schema.now) document.now e.details e.location)
        (entries diagnostics.old) (entries diagnostics.new)) }
    ensures truth { KeepsReports
        (λ e. FixedRuleReport (Some schema.now) document.now e ⊎ DocumentLimit (Some schema.now) document.now e.details e.location)
        (entries diagnostics.old) (entries diagnostics.new) }
    ensures subscriptions { OnOk result (Appends (λ added. added ≡ [] → All (λ o. OperationRootHolds schema.now document.now o.value.value) (operations_of document.now))
        (entries diagnostics.old) (entries diagnostics.new)) }
    ensures passed { IfOk result (λ decided. IsFalse decided → IsPassed pair_work.new) }
    ensures most { most_of pair_work.new ≡ most_of pair_work.old }
{
    let alloc = diagnostics.allocator();
    let mut merging = BoundedMerging::new(alloc, schema, document, Some(work));
    let mut undecided = Vec::new(alloc);
    for operation in operations {
        validate_subscription_root(schema, document, operation, diagnostics)?;
        let decided = merging.validate_operation(operation, diagnostics)?;
        if !decided {
            undecided.push(*operation)?;
        }
    }
    // What merging by sets has found takes much memory, and merging by pairs does not need it.
    drop(merging);
    if undecided.is_empty() {
        return Ok(true);
    }
    merge_by_pairs_within(diagnostics, schema, document, &undecided, pair_work)
}
