//! Whether the operations of a document reach at most so many bytes.

ghost use Rattle.std.specs.Prelude.{◌≡◌, ◌+◌, ◌∷◌, [], IfOk, IfSome, IsSome, IsTrue, MatchOption, sum_by};
ghost use Rattle.std.specs.Option.{option_map_or};
ghost use Rattle.graphql_documents.specs.Executables.{operations_of};
ghost use Rattle.graphql_documents.specs.Selections.{fragments_of};
ghost use Rattle.graphql_reach.specs.Reach.{HaveReach, IsFirstToPass, IsReachReportOf, ReachAtMost, ReachesWithin, bytes_at, nodes_at};

use crate::reached::reached_fragments;
use crate::reports::ReachReport;
use graphql_documents::documents::{ExecutableDocument, Operation};
use graphql_nodes::{Name, Node, SourceSpan, ValidationError};
use std::alloc::Global;

/// Whether the operations of a document reach at most so many bytes of its text: nothing where they do, else one report.
///
/// An operation reaches its own definition and, once, each fragment that it spreads, itself or by another one that it reaches. A
/// definition has the bytes of its location, and none where that is not known. The bytes of all operations count, one after
/// another: a fragment counts for each operation that reaches it, since with each it is validated anew. The report is about
/// the first operation that passes the bound together with those before it; the operation without a name comes before the others,
/// and these in the order of the text.
///
/// Where not even operations that all reached each fragment would pass the bound, no fragment is searched for. Else the time is
/// that of the bytes that are reached until the bound is passed. The only error is a failed allocation: a number of bytes that
/// does not fit is one too.
///
/// Specification: 2.3 Operations, 2.8 Fragments.
pub fn check_reach(
    alloc: Global,
    document: &ExecutableDocument,
    most: usize,
) -> Result<Option<ReachReport>, ValidationError>
    ensures found { IfOk result (λ found. MatchOption found (ReachesWithin most document.now) (IsReachReportOf most document.now)) }
    ensures exact { IfOk result (λ found. IsSome found → ¬ ReachesWithin most document.now) }
{
    let operations = all_operations(alloc, document)?;
    if all_reach_within(document, &operations, most) {
        return Ok(None);
    }
    check_operations(alloc, document, &operations, most)
}

/// The operations of a document: the one without a name, then the others in order.
fn all_operations(
    alloc: Global,
    document: &ExecutableDocument,
) -> Result<Vec<&Node<Operation>>, ValidationError>
    ensures { IfOk result (λ all. nodes_at all.items ≡ operations_of document.now) }
{
    let anonymous = document.operations.anonymous.iter();
    let named = document.operations.named.values();
    Ok(anonymous.chain(named).collect(alloc)?)
}

/// Whether the operations reach at most so many bytes, even if each of them reaches all fragments.
fn all_reach_within(
    document: &ExecutableDocument,
    operations: &[&Node<Operation>],
    most: usize,
) -> bool
    ensures { IsTrue result → ReachAtMost document.now (nodes_at operations.now) most }
{
    match bytes_at_worst(document, operations) {
        Some(bytes) => bytes <= most,
        None => false,
    }
}

/// How many bytes the operations reach, if each of them reaches all fragments. None where the number does not fit.
fn bytes_at_worst(document: &ExecutableDocument, operations: &[&Node<Operation>]) -> Option<usize>
    ensures { IfSome result (ReachAtMost document.now (nodes_at operations.now)) }
{
    let fragments = bytes_of_fragments(document)?;
    let mut bytes = 0_usize;
    for operation in operations {
        bytes = bytes
            .checked_add(bytes_at(operation.location))?
            .checked_add(fragments)?;
    }
    Some(bytes)
}

/// How many bytes the fragments of a document have together. None where the number does not fit.
fn bytes_of_fragments(document: &ExecutableDocument) -> Option<usize>
    ensures { IfSome result (λ bytes. bytes ≡ sum_by (λ e. bytes_at e.1.location) document.now.fragments.entries) }
{
    let mut bytes = 0_usize;
    for fragment in document.fragments.values() {
        bytes = bytes.checked_add(bytes_at(fragment.location))?;
    }
    Some(bytes)
}

/// Reports the first of the operations that passes the bound together with those before it.
fn check_operations(
    alloc: Global,
    document: &ExecutableDocument,
    operations: &[&Node<Operation>],
    most: usize,
) -> Result<Option<ReachReport>, ValidationError>
    ensures { IfOk result (λ found. MatchOption found (ReachAtMost document.now (nodes_at operations.now) most) (IsFirstToPass most document.now (nodes_at operations.now))) }
{
    let mut bytes = 0;
    for operation in operations {
        bytes = sum_of(bytes, bytes_reached(alloc, document, operation)?)?;
        if bytes > most {
            return Ok(Some(ReachReport {
                bytes,
                most,
                location: operation.location,
            }));
        }
    }
    Ok(None)
}

/// How many bytes an operation reaches.
fn bytes_reached(
    alloc: Global,
    document: &ExecutableDocument,
    operation: &Node<Operation>,
) -> Result<usize, ValidationError>
    ensures { IfOk result (HaveReach document.now (operation.now ∷ [])) }
{
    let names = reached_fragments(alloc, document, &operation.value.selection_set)?;
    // The names of fragments differ, as a map says where it is counted.
    let _count = document.fragments.len();
    let mut bytes = bytes_at(operation.location);
    for name in &names {
        bytes = sum_of(bytes, bytes_named(document, name))?;
    }
    Ok(bytes)
}

/// How many bytes the fragment of this name has; none where it is not defined.
fn bytes_named(document: &ExecutableDocument, name: &Name) -> usize
    ensures { result ≡ option_map_or (λ d. bytes_at d.location) (fragments_of document.now name.now) 0 }
{
    match document.fragments.get(name) {
        Some(fragment) => bytes_at(fragment.location),
        None => 0,
    }
}

/// How many bytes there are at a location; none where it is not known.
fn bytes_at(location: Option<SourceSpan>) -> usize
    ensures { result ≡ bytes_at location }
{
    match location {
        Some(span) => span.end.saturating_sub(span.start) as usize,
        None => 0,
    }
}

/// The sum of two numbers of bytes. Fails where it does not fit.
fn sum_of(bytes: usize, more: usize) -> Result<usize, ValidationError>
    ensures { IfOk result (λ sum. sum ≡ bytes + more) }
{
    match bytes.checked_add(more) {
        Some(sum) => Ok(sum),
        None => Err(ValidationError::OutOfMemory),
    }
}
