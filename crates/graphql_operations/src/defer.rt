//! The rules of `@defer`.

ghost use Rattle.std.specs.Prelude.{All};
ghost use Rattle.graphql_specification.specs.Defer.{DeferHolds, OperationDeferHolds, DeferReport, DeferLimit};
ghost use Rattle.graphql_documents.specs.Executables.{operations_of};
ghost use Rattle.graphql_diagnostics.specs.Reports.{ChecksWithin};
ghost use Rattle.graphql_documents.specs.Selections.{fragments_of};

mod conditions;
mod labels;
mod operation;
mod roots;
mod rules;
mod written;

use super::fragments_used::operations_of;
use graphql_diagnostics::DiagnosticList;
use graphql_documents::documents::ExecutableDocument;
use graphql_nodes::ValidationError;
use labels::validate_labels;
use operation::check_operation_defer;

/// The name of the directive that defers a fragment.
pub const DEFER_DIRECTIVE_NAME: &str = "defer";

/// Validates `@defer` in a document: no label is a variable, and no two are one text, wherever they are
/// written; none is at the root of a mutation or subscription; and in a subscription each can be disabled.
///
/// Reports come in this order: of the labels in the operations and then in the fragments, spread or not, at
/// the label's value; then for each operation of what is at its root, and of what can't be disabled, at the
/// directive. Operations are taken in order, the one without a name first.
///
/// Where a walk passes its limit, a limit without a location follows the diagnostics of what it visited. The
/// only error is a failed allocation.
///
/// Specification: the incremental delivery proposal, Directive Labels Are Unique, Defer And Stream
/// Directives Are Used On Valid Root Field, and Are Used In Valid Operations.
pub fn validate_defer(
    document: &ExecutableDocument,
    diagnostics: &mut DiagnosticList,
) -> Result<(), ValidationError>
    ensures { ChecksWithin result (DeferHolds document.now)
        (λ e. DeferReport document.now e.details e.location)
        (λ e. DeferLimit document.now e.details e.location)
        diagnostics.old diagnostics.new }
{
    validate_labels(document, diagnostics)?;
    check_operations(document, diagnostics)
}

/// Reports each `@defer` that breaks a rule of its operation, one operation after another.
fn check_operations(
    document: &ExecutableDocument,
    diagnostics: &mut DiagnosticList,
) -> Result<(), ValidationError>
    ensures { ChecksWithin result (All (λ o. OperationDeferHolds (fragments_of document.now) o.value.value) (operations_of document.now))
        (λ e. DeferReport document.now e.details e.location)
        (λ e. DeferLimit document.now e.details e.location)
        diagnostics.old diagnostics.new }
{
    let operations = operations_of(diagnostics.allocator(), document)?;
    for operation in &operations {
        check_operation_defer(diagnostics, document, &operation.value)?;
    }
    Ok(())
}
