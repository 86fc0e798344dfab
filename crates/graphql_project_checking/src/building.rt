//! Whether the definitions of files can be built, and the typed documents that they make.

ghost use Rattle.std.specs.Prelude.{◌≡◌, ◌≢◌, ◌++◌, [], All, Contains, IfOk, IsOk, IsTrue, OnOk, Some, map, option_to_list};
ghost use Rattle.std.specs.List.{AllZip};
ghost use Rattle.graphql_building_reports.specs.Checks.{reports_of};
ghost use Rattle.graphql_diagnostics.specs.Reports.{KeepsReports};
ghost use Rattle.graphql_document_checking.specs.Trees.{fragments_in};
ghost use Rattle.graphql_document_checking.specs.DocumentReports.{DocumentBuildingReport};
ghost use Rattle.graphql_nodes.specs.Names.{AreDistinct};
ghost use Rattle.graphql_project_checking.specs.Silence.{BuildAll, BuildAsLent, BuildsTo, HasFragmentsOf, OthersBuild, SilentOnlyIf};
ghost use Rattle.graphql_project_checking.specs.Truth.{AreOfBuilding, AreOfOneDocument, IsFragmentNameReport};
ghost use Rattle.graphql_projects.specs.OperationTrees.{fragments_among};
ghost use Rattle.graphql_document_checking.specs.References.{nows};

use crate::parts::parts_of;
use graphql_building_reports::BuildingReportList;
use graphql_diagnostics::HashSeed;
use graphql_document_checking::{
    Repeated, build_document, check_definitions, check_document, check_repetitions,
};
use graphql_documents::documents::{ExecutableDocument, Schema};
use graphql_frontend::first_reports::report_bound;
use graphql_frontend::{Bounds, Reports, ValidationError};
use graphql_nodes::Name;
use graphql_trees::{Definition, Document};
use std::alloc::Global;

/// What building is checked with.
#[derive(Clone, Copy)]
pub(crate) struct Building<'a> {
    pub schema: &'a Schema,
    /// Names are hashed by this seed.
    pub hash_seed: HashSeed,
    pub bounds: Bounds,
}

/// Reports fragments of files that have the name of an earlier one, of their own file or of another.
///
/// Specification: 5.5.1.1 Fragment Name Uniqueness.
pub(crate) fn check_fragment_names(
    alloc: Global,
    building: Building<'_>,
    own: &[Document],
    lent: &[Document],
    found: &mut Vec<Reports>,
) -> Result<(), ValidationError>
    ensures silence { OnOk result (SilentOnlyIf found.old.items found.new.items (AreDistinct (map (λ p. p.0) (fragments_among (own.now ++ lent.now))))) }
    ensures truth { OnOk result (KeepsReports (AreOfBuilding (IsFragmentNameReport (own.now ++ lent.now))) found.old.items found.new.items) }
{
    let mut names = Vec::new(alloc);
    push_fragment_names(own, &mut names)?;
    push_fragment_names(lent, &mut names)?;
    let mut reports = new_list(alloc, building);
    let checked = check_repetitions(&mut reports, &names, Repeated::Fragment);
    add_reports(reports, checked, building.bounds, found)
}

/// Adds the names of the fragments of these documents, in order.
fn push_fragment_names<'a>(
    documents: &'a [Document],
    names: &mut Vec<&'a Name>,
) -> Result<(), ValidationError>
    ensures { OnOk result (nows names.new.items ≡ nows names.old.items ++ map (λ p. p.0) (fragments_among documents.now)) }
{
    for document in documents {
        push_names(document.definitions.as_slice(), names)?;
    }
    Ok(())
}

/// Adds the names of the fragments among the definitions, in order.
fn push_names<'a>(
    definitions: &'a [Definition],
    names: &mut Vec<&'a Name>,
) -> Result<(), ValidationError>
    ensures { OnOk result (nows names.new.items ≡ nows names.old.items ++ map (λ p. p.0) (fragments_in definitions.now)) }
{
    for definition in definitions {
        let Definition::Fragment(fragment) = definition else {
            continue;
        };
        names.push(&fragment.name)?;
    }
    Ok(())
}

/// The typed documents of those of these that can be built, in order. What keeps the others from being built is reported.
pub(crate) fn build_files(
    alloc: Global,
    building: Building<'_>,
    documents: &[Document],
    found: &mut Vec<Reports>,
) -> Result<Vec<ExecutableDocument>, ValidationError>
    ensures silence { IfOk result (λ files. SilentOnlyIf found.old.items found.new.items (BuildAll building.entry.schema.now documents.now files.items)) }
    ensures truth { OnOk result (KeepsReports (AreOfOneDocument building.entry.schema.now documents.now) found.old.items found.new.items) }
{
    let mut files = Vec::new(alloc);
    for document in documents {
        let file = build_file(alloc, building, document, found)?;
        add_file(file, &mut files)?;
    }
    Ok(files)
}

/// Adds the file, if there is one.
fn add_file(
    file: Option<ExecutableDocument>,
    files: &mut Vec<ExecutableDocument>,
) -> Result<(), ValidationError>
    ensures { OnOk result (files.new.items ≡ files.old.items ++ option_to_list file) }
{
    match file {
        Some(file) => {
            files.push(file)?;
            Ok(())
        }
        None => Ok(()),
    }
}

/// The typed document, if it can be built. If not, it is reported why.
fn build_file(
    alloc: Global,
    building: Building<'_>,
    document: &Document,
    found: &mut Vec<Reports>,
) -> Result<Option<ExecutableDocument>, ValidationError>
    ensures silence { IfOk result (λ file. SilentOnlyIf found.old.items found.new.items (BuildsTo building.entry.schema.now document.now file)) }
    ensures truth { OnOk result (KeepsReports (AreOfBuilding (DocumentBuildingReport (Some building.entry.schema.now) document.now)) found.old.items found.new.items) }
{
    let mut reports = new_list(alloc, building);
    match check_document(&mut reports, building.schema, document) {
        Ok(()) => {
            if reports.is_empty() {
                let schema = building.schema;
                let file = build_document(alloc, building.hash_seed, schema, document)?;
                return Ok(Some(file));
            }
            found.push(Reports::Building(reports))?;
            Ok(None)
        }
        Err(error) => {
            add_first(reports, error, building.bounds, found)?;
            Ok(None)
        }
    }
}

/// The fragments of files that are lent.
#[derive(Drop)]
pub(crate) struct Lent {
    /// The files as documents without definitions other than fragments.
    pub documents: Vec<Document>,
    pub files: Vec<ExecutableDocument>,
}

/// The fragments of files that are lent, those that can be built. What keeps definitions from being built is reported. Of other rules none is
/// asked.
pub(crate) fn build_lent_files(
    alloc: Global,
    building: Building<'_>,
    documents: Vec<Document>,
    found: &mut Vec<Reports>,
) -> Result<Lent, ValidationError>
    ensures silence { IfOk result (λ lent. SilentOnlyIf found.old.items found.new.items (BuildAsLent building.entry.schema.now documents.items lent)) }
    ensures truth { OnOk result (KeepsReports (AreOfOneDocument building.entry.schema.now documents.items) found.old.items found.new.items) }
    ensures fragments { IfOk result (λ lent. AllZip HasFragmentsOf documents.items lent.documents.items) }
{
    let fragments = fragments_of_files(alloc, building, documents, found)?;
    let files = build_files(alloc, building, &fragments, found)?;
    Ok(Lent {
        documents: fragments,
        files,
    })
}

/// The documents with the fragments of these alone. What keeps other definitions from being built is reported.
fn fragments_of_files(
    alloc: Global,
    building: Building<'_>,
    documents: Vec<Document>,
    found: &mut Vec<Reports>,
) -> Result<Vec<Document>, ValidationError>
    ensures silence { OnOk result (SilentOnlyIf found.old.items found.new.items (All (OthersBuild building.entry.schema.now) documents.items)) }
    ensures truth { OnOk result (KeepsReports (AreOfOneDocument building.entry.schema.now documents.items) found.old.items found.new.items) }
    ensures fragments { IfOk result (λ fragments. AllZip HasFragmentsOf documents.items fragments.items) }
{
    let mut fragments = Vec::new(alloc);
    for document in documents {
        let alone = fragments_of_file(alloc, building, document, found)?;
        fragments.push(alone)?;
    }
    Ok(fragments)
}

fn fragments_of_file(
    alloc: Global,
    building: Building<'_>,
    document: Document,
    found: &mut Vec<Reports>,
) -> Result<Document, ValidationError>
    ensures silence { OnOk result (SilentOnlyIf found.old.items found.new.items (OthersBuild building.entry.schema.now document)) }
    ensures truth { OnOk result (KeepsReports (AreOfBuilding (DocumentBuildingReport (Some building.entry.schema.now) document)) found.old.items found.new.items) }
    ensures fragments { IfOk result (HasFragmentsOf document) }
{
    let parts = parts_of(alloc, document)?;
    let mut reports = new_list(alloc, building);
    let checked = check_definitions(&mut reports, Some(building.schema), parts.others.as_slice());
    add_reports(reports, checked, building.bounds, found)?;
    Ok(parts.fragments)
}

fn new_list(alloc: Global, building: Building<'_>) -> BuildingReportList
    ensures { reports_of result ≡ [] }
{
    BuildingReportList::with_bound(alloc, building.hash_seed, report_bound(building.bounds))
}

/// Adds the reports of a check, if there are any: the first ones, if the check ended because the list keeps no more.
fn add_reports(
    reports: BuildingReportList,
    checked: Result<(), ValidationError>,
    bounds: Bounds,
    found: &mut Vec<Reports>,
) -> Result<(), ValidationError>
    ensures silence { OnOk result (SilentOnlyIf found.old.items found.new.items (IsOk checked × (reports_of reports ≡ []))) }
    ensures truth { OnOk result (KeepsReports (AreOfBuilding (Contains (reports_of reports))) found.old.items found.new.items) }
{
    match checked {
        Ok(()) => add_all(reports, found),
        Err(error) => add_first(reports, error, bounds, found),
    }
}

/// Adds the first reports, if a check ended with this error because the list keeps no more.
fn add_first(
    reports: BuildingReportList,
    error: ValidationError,
    bounds: Bounds,
    found: &mut Vec<Reports>,
) -> Result<(), ValidationError>
    ensures some { OnOk result (found.new.items ≢ []) }
    ensures truth { OnOk result (KeepsReports (AreOfBuilding (Contains (reports_of reports))) found.old.items found.new.items) }
{
    if !is_full(&reports, bounds) {
        return Err(error);
    }
    found.push(Reports::FirstBuilding(reports))?;
    Ok(())
}

fn add_all(reports: BuildingReportList, found: &mut Vec<Reports>) -> Result<(), ValidationError>
    ensures silence { OnOk result (SilentOnlyIf found.old.items found.new.items (reports_of reports ≡ [])) }
    ensures truth { OnOk result (KeepsReports (AreOfBuilding (Contains (reports_of reports))) found.old.items found.new.items) }
{
    if reports.is_empty() {
        return Ok(());
    }
    found.push(Reports::Building(reports))?;
    Ok(())
}

/// Whether a check ended because the list has a report and keeps no more.
fn is_full(reports: &BuildingReportList, bounds: Bounds) -> bool
    ensures { IsTrue result → reports_of reports.now ≢ [] }
{
    reports.has_more() && !reports.is_empty() && reports.iter().len() <= bounds.reports.max(1)
}
