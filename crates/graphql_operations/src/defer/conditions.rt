ghost use Rattle.std.specs.Prelude.{◌≡◌};
ghost use Rattle.graphql_specification.specs.Defer.{DefersCanBeDisabled};
ghost use Rattle.graphql_diagnostics.specs.Reports.{ChecksWithin};
ghost use Rattle.graphql_documents.specs.Selections.{fragments_of};
ghost use Rattle.graphql_nodes.specs.declared.operation_types.OperationType.TheVariants as operation_type;
ghost use Rattle.graphql_operations.specs.OperationDefers.{OperationDeferLimit, OperationDeferReport};

use super::rules::DeferRule;
use graphql_diagnostics::DiagnosticList;
use graphql_documents::documents::{ExecutableDocument, Operation};
use graphql_nodes::{OperationType, ValidationError};

/// Reports each `@defer` of a subscription that can't be disabled, on a selection that is visited whatever
/// the conditions, in order of the walk over these. Where the walk passes its limit, a limit without a
/// location comes behind them. The only error is a failed allocation.
///
/// Specification: the incremental delivery proposal, Defer And Stream Directives Are Used In Valid
/// Operations.
pub(super) fn check_conditions(
    diagnostics: &mut DiagnosticList,
    document: &ExecutableDocument,
    operation: &Operation,
) -> Result<(), ValidationError>
    ensures { ChecksWithin result
        (operation.now.operation_type ≡ operation_type.Subscription → DefersCanBeDisabled (fragments_of document.now) operation.now.selection_set)
        (λ e. OperationDeferReport (fragments_of document.now) operation.now e.details e.location)
        (λ e. OperationDeferLimit (fragments_of document.now) operation.now e.details e.location)
        diagnostics.old diagnostics.new }
{
    match operation.operation_type {
        OperationType::Query | OperationType::Mutation => Ok(()),
        OperationType::Subscription => {
            DeferRule::CanBeDisabled.check(diagnostics, document, &operation.selection_set)
        }
    }
}
