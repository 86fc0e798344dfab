ghost use Rattle.std.specs.Prelude.{◌≢◌};
ghost use Rattle.graphql_specification.specs.Defer.{HasNoDeferAtRoot};
ghost use Rattle.graphql_diagnostics.specs.Reports.{ChecksWithin};
ghost use Rattle.graphql_documents.specs.Selections.{fragments_of};
ghost use Rattle.graphql_nodes.specs.declared.operation_types.OperationType.TheVariants as operation_type;
ghost use Rattle.graphql_operations.specs.OperationDefers.{OperationDeferLimit, OperationDeferReport};

use super::rules::DeferRule;
use graphql_diagnostics::DiagnosticList;
use graphql_documents::documents::{ExecutableDocument, Operation};
use graphql_nodes::{OperationType, ValidationError};

/// Reports each `@defer` on an inline fragment or a spread at the root of a mutation or subscription, in
/// order of the walk over what is inside its set. Where the walk passes its limit, a limit without a location
/// comes behind them. The only error is a failed allocation.
///
/// Specification: the incremental delivery proposal, Defer And Stream Directives Are Used On Valid Root
/// Field.
pub(super) fn check_root(
    diagnostics: &mut DiagnosticList,
    document: &ExecutableDocument,
    operation: &Operation,
) -> Result<(), ValidationError>
    ensures { ChecksWithin result
        (operation.now.operation_type ≢ operation_type.Query → HasNoDeferAtRoot (fragments_of document.now) operation.now.selection_set)
        (λ e. OperationDeferReport (fragments_of document.now) operation.now e.details e.location)
        (λ e. OperationDeferLimit (fragments_of document.now) operation.now e.details e.location)
        diagnostics.old diagnostics.new }
{
    match operation.operation_type {
        OperationType::Query => Ok(()),
        OperationType::Mutation | OperationType::Subscription => {
            let rule = DeferRule::NotAtRoot(operation.operation_type);
            rule.check(diagnostics, document, &operation.selection_set)
        }
    }
}
