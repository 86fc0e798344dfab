//! The calls that validate a whole document or field set.

ghost use Rattle.indexmap.specs.IndexMap.{values};
ghost use Rattle.std.specs.Option.{option_copied};
ghost use Rattle.std.specs.Prelude.{◌≡◌, ◌↔◌, ◌⊎◌, [], All, IfOk, IsTrue, None, OnOk, Some, map};
ghost use Rattle.graphql_documents.specs.Built.{IsBuilt};
ghost use Rattle.graphql_specification.specs.Defer.{DeferHolds};
ghost use Rattle.graphql_documents.specs.Executables.{operations_of};
ghost use Rattle.graphql_diagnostics.specs.Diagnostics.{IsLimitEntry, entries};
ghost use Rattle.graphql_specification.specs.Documents.{DocumentReport, DocumentHolds, DocumentLimit};
ghost use Rattle.graphql_specification.specs.FragmentsUsed.{IsFragmentUsed};
ghost use Rattle.graphql_specification.specs.Operations.{OperationHolds};
ghost use Rattle.graphql_specification.specs.Subscriptions.{OperationSubscriptionHolds};
ghost use Rattle.graphql_specification.specs.FieldSets.{FieldSetHolds, FieldSetReport};
ghost use Rattle.graphql_specification.specs.Merging.{FieldsCanMerge};
ghost use Rattle.graphql_diagnostics.specs.Reports.{Appends, Checks, ChecksWithin, KeepsReports, ReportsWithin};
ghost use Rattle.graphql_documents.specs.Selections.{fragments_of};
ghost use Rattle.graphql_lone_fields.specs.LoneFields.{HasLoneFields};

use graphql_diagnostics::{DiagnosticList, HashSeed};
use graphql_documents::documents::{
    ExecutableDocument, FieldSet, Operation, OperationMap, Schema, Valid,
};
use graphql_lone_fields::lone_fields::have_lone_fields;
use graphql_merging::bounded::BoundedMerging;
use graphql_nodes::{Node, ValidationError};
use graphql_operations::{
    OperationValidationContext, operations_of, validate_defer, validate_fragments_used,
    validate_subscription,
};
use graphql_pair_merging::merging::merge_by_pairs;
use graphql_rules::operations::{validate_operation_definitions, validate_selection_set};
use graphql_variables::VariablesByName;
use indexmap::IndexMap;
use std::alloc::Global;

/// Validates a document against a schema: each operation, with its directives, its variables and the
/// selections and fragments that it reaches; that each fragment is used; the rules of `@defer`, and those
/// of subscriptions; and that all fields that come together in a response agree.
///
/// Reports come in this order: for each operation those of its directives, of the definitions of its
/// variables, its unused variables, and those of its selections, each with what is below it; then the unused
/// fragments; then of `@defer` the labels of each operation and of each fragment, and for each mutation and
/// subscription the roots and the conditions; last, for each operation, those of subscriptions, then of
/// fields whose shapes differ, of fields whose names or arguments do, and whether fields nest too deep to be
/// merged. The only error is a failed allocation.
///
/// Of a document that was built against the schema: where no limit is reported, nothing is reported exactly
/// where every rule holds (`silence`). Of any document: a diagnostic names a broken rule (`reports`), or it is of a
/// limit that is really passed (`limits`), also where memory is refused; and where nothing is reported, all
/// rules hold but for merging (`parts`).
///
/// Specification: 5 Validation.
pub fn validate_executable_document(
    diagnostics: &mut DiagnosticList,
    schema: &Schema,
    document: &ExecutableDocument,
) -> Result<(), ValidationError>
    ensures silence { IsBuilt schema.now document.now →
        OnOk result (Appends (λ added. All (λ e. ¬ IsLimitEntry e) added → ((added ≡ []) ↔ DocumentHolds (Some schema.now) document.now))
        (entries diagnostics.old) (entries diagnostics.new)) }
    ensures reports { KeepsReports (λ e. ¬ IsLimitEntry e → DocumentReport (Some schema.now) document.now e.details e.location)
        (entries diagnostics.old) (entries diagnostics.new) }
    ensures limits { KeepsReports (λ e. IsLimitEntry e → DocumentLimit (Some schema.now) document.now e.details e.location)
        (entries diagnostics.old) (entries diagnostics.new) }
    ensures parts { OnOk result (Appends (λ added. added ≡ [] →
        All (λ o. OperationHolds (Some schema.now) document.now o.value.value) (operations_of document.now) ×
        All (λ d. IsFragmentUsed document.now d.value.value) (values document.now.fragments) × DeferHolds document.now ×
        All (λ o. OperationSubscriptionHolds document.now o.value.value) (operations_of document.now))
        (entries diagnostics.old) (entries diagnostics.new)) }
{
    validate_against(diagnostics, schema, document, None)
}

/// Validates a document against a schema as `validate_executable_document` does, with a bound on the work of merging. The work is
/// the number of selections that are gone past to list the fields that come together, once for shapes and once for names and
/// arguments, of all operations together; a list that comes up again counts again. A field on an abstract type counts again for
/// each object type whose fields it is compared with. If arguments are compared, each four bytes of them count as a selection.
/// On ordinary documents the work is a small multiple of what is written; a document made for it can need exponentially much.
///
/// First the call searches for fields that come together at all. That search visits at most `work` selections, counting each
/// visit. If it finds that there are none, as in most documents, nothing of merging is left to do.
///
/// If more was gone through and compared than `work`, merging by such lists stops. That operation and all later ones are
/// decided by pairs of selection sets, all together, each pair looked at once in each pass: so no more pairs of fields
/// are compared than the square of those that are written.
///
/// Reports come in the same order; those of merging are complete for the operations before. Some conflicts of the operation that
/// was interrupted may be reported; then none until the end, where one conflict is reported if there is one in these operations,
/// even if it was reported before. For these operations there is no limit of the depth. The only error is a failed allocation.
///
/// Specification: 5 Validation.
pub fn validate_executable_document_within(
    diagnostics: &mut DiagnosticList,
    schema: &Schema,
    document: &ExecutableDocument,
    work: usize,
) -> Result<(), ValidationError>
    ensures silence { IsBuilt schema.now document.now →
        OnOk result (Appends (λ added. All (λ e. ¬ IsLimitEntry e) added → ((added ≡ []) ↔ DocumentHolds (Some schema.now) document.now))
        (entries diagnostics.old) (entries diagnostics.new)) }
    ensures reports { KeepsReports (λ e. ¬ IsLimitEntry e → DocumentReport (Some schema.now) document.now e.details e.location)
        (entries diagnostics.old) (entries diagnostics.new) }
    ensures limits { KeepsReports (λ e. IsLimitEntry e → DocumentLimit (Some schema.now) document.now e.details e.location)
        (entries diagnostics.old) (entries diagnostics.new) }
    ensures parts { OnOk result (Appends (λ added. added ≡ [] →
        All (λ o. OperationHolds (Some schema.now) document.now o.value.value) (operations_of document.now) ×
        All (λ d. IsFragmentUsed document.now d.value.value) (values document.now.fragments) × DeferHolds document.now ×
        All (λ o. OperationSubscriptionHolds document.now o.value.value) (operations_of document.now))
        (entries diagnostics.old) (entries diagnostics.new)) }
{
    validate_against(diagnostics, schema, document, Some(work))
}

/// Validates a document against a schema: by the rules that need none, and then by those that do. The work of merging may have a
/// bound.
fn validate_against(
    diagnostics: &mut DiagnosticList,
    schema: &Schema,
    document: &ExecutableDocument,
    work: Option<usize>,
) -> Result<(), ValidationError>
    ensures silence { IsBuilt schema.now document.now →
        OnOk result (Appends (λ added. All (λ e. ¬ IsLimitEntry e) added → ((added ≡ []) ↔ DocumentHolds (Some schema.now) document.now))
        (entries diagnostics.old) (entries diagnostics.new)) }
    ensures reports { KeepsReports (λ e. ¬ IsLimitEntry e → DocumentReport (Some schema.now) document.now e.details e.location)
        (entries diagnostics.old) (entries diagnostics.new) }
    ensures limits { KeepsReports (λ e. IsLimitEntry e → DocumentLimit (Some schema.now) document.now e.details e.location)
        (entries diagnostics.old) (entries diagnostics.new) }
    ensures parts { OnOk result (Appends (λ added. added ≡ [] →
        All (λ o. OperationHolds (Some schema.now) document.now o.value.value) (operations_of document.now) ×
        All (λ d. IsFragmentUsed document.now d.value.value) (values document.now.fragments) × DeferHolds document.now ×
        All (λ o. OperationSubscriptionHolds document.now o.value.value) (operations_of document.now))
        (entries diagnostics.old) (entries diagnostics.new)) }
{
    validate_with_or_without_schema(diagnostics, Some(schema), document)?;
    validate_with_schema(diagnostics, schema, document, work)
}

/// Validates a document without a schema, by the rules that need none: all but those of subscriptions and
/// merging. Reports come in the same order. The only error is a failed allocation.
///
/// Specification: 5 Validation.
pub fn validate_standalone_executable(
    diagnostics: &mut DiagnosticList,
    document: &ExecutableDocument,
) -> Result<(), ValidationError>
    ensures { ChecksWithin result (DocumentHolds None document.now)
        (λ e. DocumentReport None document.now e.details e.location)
        (λ e. DocumentLimit None document.now e.details e.location)
        diagnostics.old diagnostics.new }
{
    validate_with_or_without_schema(diagnostics, None, document)
}

/// Validates a document by the rules that can be asked without a schema, against one if it is there.
fn validate_with_or_without_schema(
    diagnostics: &mut DiagnosticList,
    schema: Option<&Schema>,
    document: &ExecutableDocument,
) -> Result<(), ValidationError>
    ensures { ChecksWithin result
        (All (λ o. OperationHolds (option_copied schema.entry) document.now o.value.value) (operations_of document.now) ×
        All (λ d. IsFragmentUsed document.now d.value.value) (values document.now.fragments) × DeferHolds document.now)
        (λ e. DocumentReport (option_copied schema.entry) document.now e.details e.location)
        (λ e. DocumentLimit (option_copied schema.entry) document.now e.details e.location)
        diagnostics.old diagnostics.new }
{
    validate_operation_definitions(diagnostics, document, schema)?;
    validate_fragments_used(diagnostics, document)?;
    validate_defer(document, diagnostics)
}

/// Validates the operations of a document by the rules that need a schema, one after another: those of
/// subscriptions, and that all fields that come together in a response agree: where some do, by sets as far as the work
/// allows, and then by pairs.
fn validate_with_schema(
    diagnostics: &mut DiagnosticList,
    schema: &Schema,
    document: &ExecutableDocument,
    work: Option<usize>,
) -> Result<(), ValidationError>
    ensures holds { IsBuilt schema.now document.now →
        OnOk result (ReportsWithin IsLimitEntry
        (All (λ o. OperationSubscriptionHolds document.now o.value.value) (operations_of document.now) ×
        All (λ o. FieldsCanMerge schema.now (fragments_of document.now) o.value.value.selection_set) (operations_of document.now))
        (λ e. DocumentReport (Some schema.now) document.now e.details e.location ⊎ DocumentLimit (Some schema.now) document.now e.details e.location)
        (entries diagnostics.old) (entries diagnostics.new)) }
    ensures truth { KeepsReports
        (λ e. DocumentReport (Some schema.now) document.now e.details e.location ⊎ DocumentLimit (Some schema.now) document.now e.details e.location)
        (entries diagnostics.old) (entries diagnostics.new) }
    ensures subscriptions { OnOk result (Appends (λ added. added ≡ [] → All (λ o. OperationSubscriptionHolds document.now o.value.value) (operations_of document.now))
        (entries diagnostics.old) (entries diagnostics.new)) }
{
    let alloc = diagnostics.allocator();
    let operations = operations_of(alloc, document)?;
    if have_nothing_to_merge(alloc, document, &operations, work)? {
        return validate_subscriptions(diagnostics, document, &operations);
    }
    validate_and_merge(diagnostics, schema, document, &operations, work)
}

/// Whether it is found that no fields have to be merged in these operations. It is sought where the work of merging is bounded.
fn have_nothing_to_merge(
    alloc: Global,
    document: &ExecutableDocument,
    operations: &[&Node<Operation>],
    work: Option<usize>,
) -> Result<bool, ValidationError>
    ensures { IfOk result (λ nothing. IsTrue nothing → All (λ o. HasLoneFields (fragments_of document.now) o.now.value.value.selection_set) operations.now) }
{
    match work {
        Some(work) => have_lone_fields(alloc, document, operations, work),
        None => Ok(false),
    }
}

/// Validates operations by the rules of subscriptions, one after another.
fn validate_subscriptions(
    diagnostics: &mut DiagnosticList,
    document: &ExecutableDocument,
    operations: &[&Node<Operation>],
) -> Result<(), ValidationError>
    requires { map (λ o. o.now) operations.now ≡ operations_of document.now }
    ensures { (schema : Schema) → ChecksWithin result (All (λ o. OperationSubscriptionHolds document.now o.value.value) (operations_of document.now))
        (λ e. DocumentReport (Some schema) document.now e.details e.location)
        (λ e. DocumentLimit (Some schema) document.now e.details e.location)
        diagnostics.old diagnostics.new }
{
    for operation in operations {
        validate_subscription(document, operation, diagnostics)?;
    }
    Ok(())
}

/// Validates operations by the rules that need a schema, one after another.
fn validate_and_merge(
    diagnostics: &mut DiagnosticList,
    schema: &Schema,
    document: &ExecutableDocument,
    operations: &[&Node<Operation>],
    work: Option<usize>,
) -> Result<(), ValidationError>
    requires { map (λ o. o.now) operations.now ≡ operations_of document.now }
    ensures holds { IsBuilt schema.now document.now →
        OnOk result (ReportsWithin IsLimitEntry
        (All (λ o. OperationSubscriptionHolds document.now o.value.value) (operations_of document.now) ×
        All (λ o. FieldsCanMerge schema.now (fragments_of document.now) o.value.value.selection_set) (operations_of document.now))
        (λ e. DocumentReport (Some schema.now) document.now e.details e.location ⊎ DocumentLimit (Some schema.now) document.now e.details e.location)
        (entries diagnostics.old) (entries diagnostics.new)) }
    ensures truth { KeepsReports
        (λ e. DocumentReport (Some schema.now) document.now e.details e.location ⊎ DocumentLimit (Some schema.now) document.now e.details e.location)
        (entries diagnostics.old) (entries diagnostics.new) }
    ensures subscriptions { OnOk result (Appends (λ added. added ≡ [] → All (λ o. OperationSubscriptionHolds document.now o.value.value) (operations_of document.now))
        (entries diagnostics.old) (entries diagnostics.new)) }
{
    let alloc = diagnostics.allocator();
    let mut merging = BoundedMerging::new(alloc, schema, document, work);
    let mut undecided = Vec::new(alloc);
    for operation in operations {
        validate_subscription(document, operation, diagnostics)?;
        let decided = merging.validate_operation(operation, diagnostics)?;
        if !decided {
            undecided.push(*operation)?;
        }
    }
    if undecided.is_empty() {
        return Ok(());
    }
    merge_by_pairs(diagnostics, schema, document, &undecided)
}

/// Validates a field set against a schema: every selection that is reached holds at its place. There are no
/// fragments to spread and no variables. The only error is a failed allocation.
///
/// Reports come in the order of the set, each selection with what is below it. No limit is reported.
///
/// Specification: 5.3 Fields; 5.4 Arguments; 5.5 Fragments; 5.6 Values; 5.7 Directives.
pub fn validate_field_set(
    diagnostics: &mut DiagnosticList,
    schema: &Valid<Schema>,
    field_set: &FieldSet,
) -> Result<(), ValidationError>
    ensures checks { Checks result (FieldSetHolds schema.now.0 field_set.now.selection_set)
        (FieldSetReport schema.now.0 field_set.now.selection_set)
        diagnostics.old diagnostics.new }
    ensures limits { KeepsReports (λ e. ¬ IsLimitEntry e) (entries diagnostics.old) (entries diagnostics.new) }
{
    let alloc = diagnostics.allocator();
    let hash_seed = diagnostics.hash_seed();
    let document = empty_document(alloc, hash_seed);
    let variables = VariablesByName::new(alloc, hash_seed, &[])?;
    let mut context = OperationValidationContext::new(alloc, hash_seed, Some(&schema.0), variables);
    let set = &field_set.selection_set;
    validate_selection_set(
        diagnostics,
        &document,
        Some((&schema.0, &set.ty)),
        set,
        &mut context,
    )
}

/// A document without operations and fragments.
fn empty_document(alloc: Global, hash_seed: HashSeed) -> ExecutableDocument
    ensures { result.fragments.entries ≡ [] }
{
    ExecutableDocument {
        operations: OperationMap {
            anonymous: None,
            named: IndexMap::with_hasher(alloc, hash_seed),
        },
        fragments: IndexMap::with_hasher(alloc, hash_seed),
    }
}
