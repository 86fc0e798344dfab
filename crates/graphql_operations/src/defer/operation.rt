ghost use Rattle.graphql_specification.specs.Defer.{OperationDeferHolds};
ghost use Rattle.graphql_diagnostics.specs.Reports.{ChecksWithin};
ghost use Rattle.graphql_documents.specs.Selections.{fragments_of};
ghost use Rattle.graphql_operations.specs.OperationDefers.{OperationDeferLimit, OperationDeferReport};

use super::conditions::check_conditions;
use super::roots::check_root;
use graphql_diagnostics::DiagnosticList;
use graphql_documents::documents::{ExecutableDocument, Operation};
use graphql_nodes::ValidationError;

/// Reports each `@defer` in an operation that breaks a rule: first those at the root of a mutation or
/// subscription, then those of a subscription that can't be disabled. The only error is a failed allocation.
///
/// Specification: the incremental delivery proposal, Defer And Stream Directives Are Used On Valid Root
/// Field, and In Valid Operations.
pub(super) fn check_operation_defer(
    diagnostics: &mut DiagnosticList,
    document: &ExecutableDocument,
    operation: &Operation,
) -> Result<(), ValidationError>
    ensures { ChecksWithin result (OperationDeferHolds (fragments_of document.now) operation.now)
        (λ e. OperationDeferReport (fragments_of document.now) operation.now e.details e.location)
        (λ e. OperationDeferLimit (fragments_of document.now) operation.now e.details e.location)
        diagnostics.old diagnostics.new }
{
    check_root(diagnostics, document, operation)?;
    check_conditions(diagnostics, document, operation)
}
