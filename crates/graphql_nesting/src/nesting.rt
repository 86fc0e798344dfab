//! Whether a document nests within a bound.

ghost use Rattle.std.specs.Prelude.{◌≡◌, ◌+◌, ◌<◌, ◌∷◌, [], IfOk, IsSome, MatchOption, SomeIff, option_to_list};
ghost use Rattle.indexmap.specs.IndexMap.{values};
ghost use Rattle.graphql_documents.specs.Executables.{operations_of};
ghost use Rattle.graphql_documents.specs.Selections.{fragments_of};
ghost use Rattle.graphql_documents.specs.declared.documents.executables.ExecutableDocument.{ExecutableDocument};
ghost use Rattle.graphql_nesting.specs.Nesting.{IsNestingReportOf, NestsWithin};
ghost use Rattle.graphql_nesting.specs.Search.{AreSettled};
ghost use Rattle.graphql_nesting.specs.Checks.{ChecksEndless, ChecksFragments, ChecksOperations, EndlessFound};

use crate::fragments::{FragmentNesting, FragmentNestings, find_fragment_levels};
use crate::reports::{NestedPart, NestingReport};
use crate::written::written_levels;
use graphql_documents::documents::{ExecutableDocument, Operation};
use graphql_nodes::{Name, Node, SourceSpan, ValidationError};
use indexmap::IndexMap;
use std::alloc::Global;

/// Whether the selection sets of a document nest within a bound, spreads of fragments gone into: nothing where they do, else
/// one report.
///
/// A set is one level, and the sets of fields, inline fragments and spread fragments in it are below it. A definition that leads
/// to a fragment which leads back to itself is endless; of an endless operation what is written in it counts, and of all endless
/// fragments together what is written in them. The report is about the first operation that passes the bound; else about the
/// first fragment; else about the endless fragments, at the first of them.
///
/// A walk that goes into no fragment twice on its way down is then at most three times as deep as the bound. The time is linear
/// in the document, and nothing is recursive. The only error is a failed allocation: a number of levels that does not fit is one
/// too, since no memory holds so many sets.
///
/// Specification: 2.4 Selection Sets, 2.8 Fragments; 5.5.2.2 Fragment spreads must not form cycles.
pub fn check_nesting(
    alloc: Global,
    document: &ExecutableDocument,
    most: usize,
) -> Result<Option<NestingReport>, ValidationError>
    ensures found { IfOk result (λ found. MatchOption found (NestsWithin most document.now) (IsNestingReportOf most document.now)) }
    ensures exact { IfOk result (λ found. IsSome found → ¬ NestsWithin most document.now) }
{
    let fragments = find_fragment_levels(alloc, document)?;
    if let Some(report) = check_operations(alloc, &fragments, document, most)? {
        return Ok(Some(report));
    }
    if let Some(report) = check_fragments(&fragments, most) {
        return Ok(Some(report));
    }
    check_endless(&fragments, most)
}

/// Reports the first operation that nests too deep.
fn check_operations(
    alloc: Global,
    fragments: &FragmentNestings,
    document: &ExecutableDocument,
    most: usize,
) -> Result<Option<NestingReport>, ValidationError>
    requires { AreSettled document.now fragments.now }
    ensures { IfOk result (ChecksOperations most document.now (operations_of document.now)) }
{
    if let Some(report) = check_anonymous(alloc, fragments, document, most)? {
        return Ok(Some(report));
    }
    check_named(alloc, fragments, document, most)
}

/// Reports the operation without a name, if it nests too deep.
fn check_anonymous(
    alloc: Global,
    fragments: &FragmentNestings,
    document: &ExecutableDocument,
    most: usize,
) -> Result<Option<NestingReport>, ValidationError>
    requires { AreSettled document.now fragments.now }
    ensures { IfOk result (ChecksOperations most document.now (option_to_list document.now.operations.anonymous)) }
{
    match &document.operations.anonymous {
        Some(operation) => check_operation(alloc, fragments, document, operation, most),
        None => Ok(None),
    }
}

/// Reports the first operation with a name that nests too deep.
fn check_named(
    alloc: Global,
    fragments: &FragmentNestings,
    document: &ExecutableDocument,
    most: usize,
) -> Result<Option<NestingReport>, ValidationError>
    requires { AreSettled document.now fragments.now }
    ensures { IfOk result (ChecksOperations most document.now (values document.now.operations.named)) }
{
    for operation in document.operations.named.values() {
        if let Some(report) = check_operation(alloc, fragments, document, operation, most)? {
            return Ok(Some(report));
        }
    }
    Ok(None)
}

/// Reports an operation, if it nests too deep.
fn check_operation(
    alloc: Global,
    fragments: &FragmentNestings,
    document: &ExecutableDocument,
    operation: &Node<Operation>,
    most: usize,
) -> Result<Option<NestingReport>, ValidationError>
    requires { AreSettled document.now fragments.now }
    ensures { IfOk result (ChecksOperations most document.now (operation.now ∷ [])) }
{
    let written = written_levels(alloc, document, &operation.value.selection_set)?;
    let levels = fragments.levels_of(&written)?.unwrap_or(written.levels);
    Ok(report_of(levels, most, operation.location))
}

/// The report of a definition with so many levels, if these are too many.
fn report_of(levels: usize, most: usize, location: Option<SourceSpan>) -> Option<NestingReport>
    ensures { SomeIff result (most < levels) (record { part = NestedPart.Definition; levels = levels; most = most; location = location }) }
{
    if levels <= most {
        return None;
    }
    Some(NestingReport {
        part: NestedPart::Definition,
        levels,
        most,
        location,
    })
}

/// Reports the first fragment that is not endless and nests too deep.
fn check_fragments(fragments: &FragmentNestings, most: usize) -> Option<NestingReport>
    ensures { (document : ExecutableDocument) → AreSettled document fragments.now → ChecksFragments most document (values document.fragments) result }
{
    for (number, nesting) in fragments.fragments.iter().enumerate() {
        let levels = fragments.levels_at(number).unwrap_or(0);
        if let Some(report) = report_of(levels, most, nesting.fragment.location) {
            return Some(report);
        }
    }
    None
}

/// Reports the endless fragments, if they nest too deep together.
fn check_endless(
    fragments: &FragmentNestings,
    most: usize,
) -> Result<Option<NestingReport>, ValidationError>
    ensures { (document : ExecutableDocument) → AreSettled document fragments.now → IfOk result (ChecksEndless most document (values document.fragments)) }
{
    let endless = endless_levels(fragments)?;
    if endless.levels <= most {
        return Ok(None);
    }
    Ok(Some(NestingReport {
        part: NestedPart::EndlessFragments,
        levels: endless.levels,
        most,
        location: endless.location,
    }))
}

/// The written levels of endless fragments together, and where the first of these is.
#[derive(Clone, Copy, Debug)]
struct EndlessLevels {
    levels: usize,
    location: Option<SourceSpan>,
}

/// The levels that are written in the endless fragments of a document. Fails where their sum does not fit.
fn endless_levels(fragments: &FragmentNestings) -> Result<EndlessLevels, ValidationError>
    ensures { (document : ExecutableDocument) → AreSettled document fragments.now →
        IfOk result (λ endless. EndlessFound (fragments_of document) (values document.fragments) endless.levels endless.location) }
{
    let mut endless = EndlessLevels {
        levels: 0,
        location: None,
    };
    for (number, nesting) in fragments.fragments.iter().enumerate() {
        if fragments.levels_at(number).is_none() {
            endless = endless.with(nesting)?;
        }
    }
    Ok(endless)
}

impl EndlessLevels {
    /// With an endless fragment more. Fails where the sum does not fit: no memory holds so many sets.
    fn with(self, nesting: &FragmentNesting) -> Result<EndlessLevels, ValidationError>
        ensures levels { IfOk result (λ endless. endless.levels ≡ self.levels + nesting.now.written.levels) }
        ensures first { IfOk result (λ endless. self.levels ≡ 0 → endless.location ≡ nesting.now.fragment.now.location) }
        ensures later { IfOk result (λ endless. 0 < self.levels → endless.location ≡ self.location) }
    {
        let Some(levels) = self.levels.checked_add(nesting.written.levels) else {
            return Err(ValidationError::OutOfMemory);
        };
        let location = if self.levels == 0 {
            nesting.fragment.location
        } else {
            self.location
        };
        Ok(EndlessLevels { levels, location })
    }
}
