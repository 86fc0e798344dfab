//! The document of one operation, and what is reported of it.

ghost use Rattle.std.specs.Prelude.{◌≡◌, IfSome, Ok, OnOk, Option, Some};
ghost use Rattle.graphql_diagnostics.specs.Reports.{KeepsReports};
ghost use Rattle.graphql_frontend.specs.Documents.{IsOnlyOff};
ghost use Rattle.graphql_frontend.specs.RuleSets.{RuleSet};
ghost use Rattle.graphql_project_checking.specs.Silence.{HoldsWith, QuietOnlyIf};
ghost use Rattle.graphql_project_checking.specs.Truth.{AreOfDocumentWith};
ghost use Rattle.graphql_variables.specs.Uses.{names_of};

use crate::contexts::Context;
use graphql_diagnostics::HashSeed;
use graphql_documents::documents::{ExecutableDocument, Operation};
use graphql_frontend::{OperationMark, ProjectReports, Reports, ValidationError, validate_built};
use graphql_nodes::{Name, Node, SourceSpan};
use graphql_pools::document_of;
use indexmap::IndexSet;
use std::alloc::Global;

/// Reports what is wrong with an operation that reaches the fragments of these names: the rules that it breaks in the document of it and of
/// these fragments, or the limit that this passes.
///
/// Specification: 5 Validation.
pub(crate) fn check_operation(
    alloc: Global,
    context: Context<'_>,
    operation: &Node<Operation>,
    names: &IndexSet<&Name, HashSeed>,
    found: &mut ProjectReports,
) -> Result<(), ValidationError>
    ensures silence { OnOk result (QuietOnlyIf found.old.lists.items found.new.lists.items
        (λ off. HoldsWith off context.entry.schema.now context.entry.pool.now operation.now (names_of names.now.keys))) }
    ensures truth { OnOk result (KeepsReports (AreOfDocumentWith context.entry.bounds context.entry.schema.now context.entry.pool.now operation.now (names_of names.now.keys))
        found.old.lists.items found.new.lists.items) }
{
    match reports_of(alloc, context, operation, names)? {
        None => Ok(()),
        Some(reports) => {
            let mark = OperationMark::of(alloc, operation)?;
            found.push(Some(mark), reports)?;
            Ok(())
        }
    }
}

/// What is reported of the document of an operation and of the fragments of these names. The document is dropped at one place alone: each
/// more costs a proof.
fn reports_of(
    alloc: Global,
    context: Context<'_>,
    operation: &Node<Operation>,
    names: &IndexSet<&Name, HashSeed>,
) -> Result<Option<Reports>, ValidationError>
    ensures silence { (reports : Option Reports) → result ≡ Ok reports → (off : RuleSet) → IfSome reports (IsOnlyOff off) →
        HoldsWith off context.entry.schema.now context.entry.pool.now operation.now (names_of names.now.keys) }
    ensures truth { (reports : Reports) → result ≡ Ok (Some reports) →
        AreOfDocumentWith context.entry.bounds context.entry.schema.now context.entry.pool.now operation.now (names_of names.now.keys) reports }
{
    let document = document_of(alloc, context.pool, operation, names)?;
    let bytes = bytes_of(operation, &document);
    validate_built(
        alloc,
        Some(context.schema),
        &document,
        context.bounds,
        bytes,
    )
}

/// How many bytes the operation and the fragments of its document have.
fn bytes_of(operation: &Node<Operation>, document: &ExecutableDocument) -> usize {
    let mut bytes = bytes_at(operation.location);
    for fragment in document.fragments.values() {
        bytes = bytes.saturating_add(bytes_at(fragment.location));
    }
    bytes
}

/// How many bytes there are at a location; none where it is not known.
fn bytes_at(location: Option<SourceSpan>) -> usize {
    match location {
        Some(span) => span.end.saturating_sub(span.start) as usize,
        None => 0,
    }
}
