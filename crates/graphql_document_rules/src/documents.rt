//! The calls that validate a whole document.

ghost use Rattle.indexmap.specs.IndexMap.{values};
ghost use Rattle.std.specs.Option.{option_copied};
ghost use Rattle.std.specs.Prelude.{◌≡◌, ◌↔◌, [], All, IfOk, IsFalse, IsTrue, None, OnOk, Some};
ghost use Rattle.graphql_diagnostics.specs.Diagnostics.{IsLimitEntry, entries};
ghost use Rattle.graphql_diagnostics.specs.Reports.{Appends, ChecksWithin, KeepsReports};
ghost use Rattle.graphql_document_rules.specs.DocumentRules.{DocumentRuleReport, DocumentRulesHold, DocumentRulesHoldBut};
ghost use Rattle.graphql_document_rules.specs.SingleRootField.{OperationRootHolds};
ghost use Rattle.graphql_documents.specs.Built.{IsBuilt};
ghost use Rattle.graphql_documents.specs.Executables.{operations_of};
ghost use Rattle.graphql_validation.specs.Works.{IsPassed, most_of};
ghost use Rattle.graphql_specification.specs.Defer.{DeferHolds};
ghost use Rattle.graphql_specification.specs.Documents.{DocumentLimit};
ghost use Rattle.graphql_specification.specs.FragmentsUsed.{IsFragmentUsed};
ghost use Rattle.graphql_specification.specs.Operations.{OperationHolds};
ghost use Rattle.graphql_validation.specs.RuleSets.{HoldsIfOthersAreSilent, OperationHoldsBut};

use crate::operations::validate_operations;
use graphql_diagnostics::DiagnosticList;
use graphql_documents::documents::{ExecutableDocument, Schema};
use graphql_nodes::ValidationError;
use graphql_operations::{validate_defer, validate_fragments_used};
pub use graphql_validation::pair_merging::work::PairWork;
use graphql_validation::rules::operations::validate_operation_definitions;

/// Validates a document against a schema by the rules of `validate_executable_document_within` of `graphql_validation`, with one
/// rule exchanged: the fields at the root of a subscription have one response key at most. Several fields of one key count once,
/// and a field counts only if it is collected for objects of the subscription type. `work` bounds the work of merging by sets as
/// it does there.
///
/// Reports come in the order of that call. The only error is a failed allocation.
///
/// The operations that are left when `work` is used up are merged by pairs, and `pair_work` counts that work. The answer is
/// whether every rule was decided. It was, unless more was counted than `pair_work` allows (`passed`). The call does not change
/// how much that is (`most`).
///
/// Of a document that was built against the schema: if every rule was decided and no limit is reported, nothing is reported
/// exactly when every rule holds (`silence`). Of any document, decided or not: a diagnostic names a broken rule (`reports`), or
/// it is of a limit that is really passed (`limits`), also if memory is refused; and if nothing is reported, all rules except
/// merging hold (`parts`). If the document was built, every rule was decided, and only unused variables and fragments are
/// reported, all other rules hold (`others`).
///
/// Specification: 5 Validation.
pub fn validate_document_rules(
    diagnostics: &mut DiagnosticList,
    schema: &Schema,
    document: &ExecutableDocument,
    work: usize,
    pair_work: &mut PairWork,
) -> Result<bool, ValidationError>
    ensures silence { IsBuilt schema.now document.now →
        IfOk result (λ decided. IsTrue decided → Appends (λ added. All (λ e. ¬ IsLimitEntry e) added → ((added ≡ []) ↔ DocumentRulesHold (Some schema.now) document.now))
        (entries diagnostics.old) (entries diagnostics.new)) }
    ensures reports { KeepsReports (λ e. ¬ IsLimitEntry e → DocumentRuleReport (Some schema.now) document.now e.details e.location)
        (entries diagnostics.old) (entries diagnostics.new) }
    ensures limits { KeepsReports (λ e. IsLimitEntry e → DocumentLimit (Some schema.now) document.now e.details e.location)
        (entries diagnostics.old) (entries diagnostics.new) }
    ensures parts { OnOk result (Appends (λ added. added ≡ [] →
        All (λ o. OperationHolds (Some schema.now) document.now o.value.value) (operations_of document.now) ×
        All (λ d. IsFragmentUsed document.now d.value.value) (values document.now.fragments) × DeferHolds document.now ×
        All (λ o. OperationRootHolds schema.now document.now o.value.value) (operations_of document.now))
        (entries diagnostics.old) (entries diagnostics.new)) }
    ensures others { IsBuilt schema.now document.now →
        IfOk result (λ decided. IsTrue decided → HoldsIfOthersAreSilent (λ off. DocumentRulesHoldBut off (Some schema.now) document.now)
        (entries diagnostics.old) (entries diagnostics.new)) }
    ensures passed { IfOk result (λ decided. IsFalse decided → IsPassed pair_work.new) }
    ensures most { most_of pair_work.new ≡ most_of pair_work.old }
{
    validate_with_or_without_schema(diagnostics, Some(schema), document)?;
    validate_operations(diagnostics, schema, document, work, pair_work)
}

/// Validates a document without a schema, by the rules that need none: all except those of subscriptions and merging. Reports
/// come in the order of `validate_document_rules`. The only error is a failed allocation.
///
/// Specification: 5 Validation.
pub fn validate_standalone_document_rules(
    diagnostics: &mut DiagnosticList,
    document: &ExecutableDocument,
) -> Result<(), ValidationError>
    ensures checks { ChecksWithin result (DocumentRulesHold None document.now)
        (λ e. DocumentRuleReport None document.now e.details e.location)
        (λ e. DocumentLimit None document.now e.details e.location)
        diagnostics.old diagnostics.new }
    ensures others { OnOk result (HoldsIfOthersAreSilent (λ off. DocumentRulesHoldBut off None document.now) (entries diagnostics.old) (entries diagnostics.new)) }
{
    validate_with_or_without_schema(diagnostics, None, document)
}

/// Validates a document by the rules that need no schema, against one if it is given.
fn validate_with_or_without_schema(
    diagnostics: &mut DiagnosticList,
    schema: Option<&Schema>,
    document: &ExecutableDocument,
) -> Result<(), ValidationError>
    ensures checks { ChecksWithin result
        (All (λ o. OperationHolds (option_copied schema.entry) document.now o.value.value) (operations_of document.now) ×
        All (λ d. IsFragmentUsed document.now d.value.value) (values document.now.fragments) × DeferHolds document.now)
        (λ e. DocumentRuleReport (option_copied schema.entry) document.now e.details e.location)
        (λ e. DocumentLimit (option_copied schema.entry) document.now e.details e.location)
        diagnostics.old diagnostics.new }
    ensures others { OnOk result (HoldsIfOthersAreSilent (λ off.
        All (λ o. OperationHoldsBut off (option_copied schema.entry) document.now o.value.value) (operations_of document.now) ×
        (IsFalse off.unused_fragments → All (λ d. IsFragmentUsed document.now d.value.value) (values document.now.fragments)) × DeferHolds document.now)
        (entries diagnostics.old) (entries diagnostics.new)) }
{
    validate_operation_definitions(diagnostics, document, schema)?;
    validate_fragments_used(diagnostics, document)?;
    validate_defer(document, diagnostics)
}
