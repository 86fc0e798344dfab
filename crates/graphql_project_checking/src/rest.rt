//! Files of which some have definitions that cannot be built, or are no documents.

ghost use Rattle.std.specs.Prelude.{Contains, IfOk, OnOk};
ghost use Rattle.graphql_diagnostics.specs.Reports.{KeepsReports};
ghost use Rattle.graphql_frontend.specs.Schemas.{IsUsable};
ghost use Rattle.graphql_project_checking.specs.Truth.{AddsOfParts, SayParts, SaysPart};

use crate::building::Building;
use crate::contexts::Context;
use crate::marks::Marks;
use crate::parts::{leave_out, those_that_build};
use crate::whole::check_each;
use graphql_building_reports::BuildingReportList;
use graphql_diagnostics::{Details, DiagnosticData, DiagnosticEntry, DiagnosticList, HashSeed};
use graphql_document_checking::{build_document, check_document};
use graphql_documents::documents::ExecutableDocument;
use graphql_frontend::{ListOperation, ProjectReports, Reports, ValidationError};
use graphql_nodes::Name;
use graphql_pools::pool_of;
use graphql_trees::{Definition, Document};
use indexmap::IndexSet;
use std::alloc::Global;

/// Fragments of which nothing is known but that they may be there.
#[derive(Drop)]
struct Unknown {
    /// The names of those that cannot be built.
    names: IndexSet<Name, HashSeed>,
    /// Whether there may be others, with any name.
    may_be_others: bool,
}

/// Reports what is wrong with the operations that can be built, with the definitions of a file together that can, and that reach no fragment
/// of which nothing is known.
pub(crate) fn check_rest(
    alloc: Global,
    building: Building<'_>,
    own: Vec<Document>,
    lent: Vec<Document>,
    may_be_others: bool,
    found: &mut ProjectReports,
) -> Result<(), ValidationError>
    ensures truth { IsUsable building.entry.schema.now →
        OnOk result (AddsOfParts building.entry.bounds building.entry.schema.now own.items lent.items found.old.lists.items found.new.lists.items) }
{
    let mut left_out = Vec::new(alloc);
    let files = build_parts(alloc, building, own, &mut left_out)?;
    let lenders = build_parts(alloc, building, lent, &mut left_out)?;
    let unknown = Unknown {
        names: fragment_names(alloc, building.hash_seed, &left_out)?,
        may_be_others,
    };
    let pool = pool_of(alloc, building.hash_seed, &files, &lenders)?;
    let context = Context {
        schema: building.schema,
        pool: &pool,
        bounds: building.bounds,
    };
    let mut used = IndexSet::with_hasher(alloc, building.hash_seed);
    let mut all = ProjectReports::new(alloc);
    check_each(alloc, context, files, &mut used, &mut all)?;
    let (all, operations) = all.into_parts();
    add_known(all, operations, &unknown, found)
}

/// The typed documents of what can be built of these. What cannot is added to what is left out.
fn build_parts(
    alloc: Global,
    building: Building<'_>,
    documents: Vec<Document>,
    left_out: &mut Vec<Definition>,
) -> Result<Vec<ExecutableDocument>, ValidationError>
    ensures { IfOk result (λ files. SayParts building.entry.schema.now documents.items files.items) }
{
    let mut built = Vec::new(alloc);
    for document in documents {
        if let Some(typed) = build_part(alloc, building, document, left_out)? {
            built.push(typed)?;
        }
    }
    Ok(built)
}

fn build_part(
    alloc: Global,
    building: Building<'_>,
    document: Document,
    left_out: &mut Vec<Definition>,
) -> Result<Option<ExecutableDocument>, ValidationError>
    ensures { IfOk result (SaysPart building.entry.schema.now document) }
{
    let part = those_that_build(alloc, building.schema, document, left_out)?;
    let mut reports = BuildingReportList::with_hash_seed(alloc, building.hash_seed);
    check_document(&mut reports, building.schema, &part)?;
    if reports.is_empty() {
        let typed = build_document(alloc, building.hash_seed, building.schema, &part)?;
        Ok(Some(typed))
    } else {
        leave_out(part, left_out)?;
        Ok(None)
    }
}

/// The names of the fragments among these definitions.
fn fragment_names(
    alloc: Global,
    hash_seed: HashSeed,
    definitions: &[Definition],
) -> Result<IndexSet<Name, HashSeed>, ValidationError> {
    let mut names = IndexSet::with_hasher(alloc, hash_seed);
    for definition in definitions {
        let Definition::Fragment(fragment) = definition else {
            continue;
        };
        names.insert(fragment.name.clone_in(alloc)?)?;
    }
    Ok(names)
}

/// Adds those of the reports that do not follow from what is not known, each with the operation whose document it is about.
fn add_known(
    all: Vec<Reports>,
    operations: Vec<ListOperation>,
    unknown: &Unknown,
    found: &mut ProjectReports,
) -> Result<(), ValidationError>
    ensures truth { OnOk result (KeepsReports (Contains all.items) found.old.lists.items found.new.lists.items) }
{
    let mut marks = Marks::of(operations);
    for reports in all {
        let mark = marks.next_mark();
        if may_follow(&reports, unknown) {
            continue;
        }
        found.push(mark, reports)?;
    }
    Ok(())
}

/// Whether one of the reports says that a fragment is not defined of which nothing is known.
fn may_follow(reports: &Reports, unknown: &Unknown) -> bool {
    match reports {
        Reports::DocumentRules(reports) => any_may_follow(&reports.rules, unknown),
        Reports::FirstDocumentRules(rules) => any_may_follow(rules, unknown),
        _ => false,
    }
}

fn any_may_follow(rules: &DiagnosticList, unknown: &Unknown) -> bool {
    rules.iter().any(|entry| is_of_unknown(entry, unknown))
}

fn is_of_unknown(entry: &DiagnosticEntry, unknown: &Unknown) -> bool {
    match &entry.details {
        Details::Diagnostic(DiagnosticData::UndefinedFragment { name }) => {
            unknown.may_be_others || unknown.names.contains(name)
        }
        _ => false,
    }
}
