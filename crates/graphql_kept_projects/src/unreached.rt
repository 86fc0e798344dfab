//! Fragments that no operation reaches: each is validated as an operation would be that spreads it alone.

ghost use Rattle.std.specs.Prelude.{◌≡◌, [], ◌∷◌, IfOk, List, OnOk};
ghost use Rattle.std.specs.List.{AllZip};
ghost use Rattle.graphql_frontend.specs.Schemas.{IsUsable};
ghost use Rattle.graphql_frontend.specs.declared.texts.SourceText as source_text;
ghost use Rattle.graphql_kept_projects.specs.Left.{AreKnownOf, AreKnownOfList, AreKnownOfOne, AreTrueOfFragments, IsSourceLeft};
ghost use Rattle.graphql_kept_reports.specs.Reports.{KeepsReports};
ghost use Rattle.graphql_project_checking.specs.Truth.{AreAllTrue};

use crate::certain::push_rules;
use crate::known::marks_of;
use crate::scopes::Scope;
use graphql_documents::documents::Schema;
use graphql_frontend::{
    DocumentReports, FileId, ProjectReports, Reports, SourceText, ValidationError,
};
use graphql_kept_reports::{
    DiagnosticList, Doubts, Unreached, add_known_of_fragments, spreading_operations,
};
use graphql_parser::Bounds;
use graphql_project_checking::{check_part_of_project, check_project};
use std::alloc::{AllocError, Global};
use std::slice::from_ref;

/// The file of the operations that are added.
const ADDED: FileId = FileId(u32::MAX);

/// The fragments that no operation reaches, as these reports say.
pub(crate) fn unreached_in(alloc: Global, lists: &[Reports]) -> Result<Unreached, AllocError> {
    let mut unreached = Unreached::new(alloc);
    for reports in lists {
        match reports {
            Reports::DocumentRules(reports) => unreached.add(alloc, &reports.rules)?,
            Reports::FirstDocumentRules(list) => unreached.add(alloc, list)?,
            _ => {}
        }
    }
    Ok(unreached)
}

/// Adds what is reported of fragments of these texts that no operation reaches, as far as it is true without an operation, and could not be false of the whole
/// texts.
pub(crate) fn add_unreached(
    alloc: Global,
    schema: &Schema,
    scope: Scope,
    unreached: &Unreached,
    left: &[SourceText<'_>],
    doubts: &Doubts,
    bounds: Bounds,
    found: &mut ProjectReports,
) -> Result<(), ValidationError>
    requires { IsUsable schema.now }
    ensures { (read : List source_text.SourceText) → AllZip IsSourceLeft read left.now →
        OnOk result (KeepsReports (AreTrueOfFragments bounds schema.now read) found.old.lists.items found.new.lists.items) }
{
    if unreached.is_empty() {
        return Ok(());
    }
    let texts = texts_of(alloc, left)?;
    let names = unreached.roots(alloc, &texts)?;
    let text = spreading_operations(alloc, &names)?;
    let added = SourceText {
        file_id: ADDED,
        text: text.as_str(),
    };
    let reported = reports_beside(alloc, schema, scope, added, left, bounds)?;
    add_all_known(alloc, reported, doubts, ADDED, found)
}

/// What is reported of the operations of a text, which may spread the fragments of these.
fn reports_beside(
    alloc: Global,
    schema: &Schema,
    scope: Scope,
    added: SourceText<'_>,
    left: &[SourceText<'_>],
    bounds: Bounds,
) -> Result<ProjectReports, ValidationError>
    requires { IsUsable schema.now }
    ensures { IfOk result (λ reported. AreAllTrue bounds schema.now (added.entry ∷ []) left.now reported.lists.items) }
{
    let own = from_ref(&added);
    if scope.is_whole {
        check_project(alloc, schema, own, left, bounds)
    } else {
        check_part_of_project(alloc, schema, own, left, bounds)
    }
}

/// Adds those reports of the lists about operations that are known to be true of fragments of the whole texts.
fn add_all_known(
    alloc: Global,
    reported: ProjectReports,
    doubts: &Doubts,
    added: FileId,
    found: &mut ProjectReports,
) -> Result<(), ValidationError>
    ensures { OnOk result (KeepsReports (AreKnownOfOne doubts.now added reported.lists.items) found.old.lists.items found.new.lists.items) }
{
    let (lists, operations) = reported.into_parts();
    let mut marks = marks_of(alloc, operations)?;
    let mut position = 0_usize;
    for reports in lists {
        let is_marked = marks.remove(&position).is_some();
        position = position.saturating_add(1);
        add_if(alloc, is_marked, reports, doubts, added, found)?;
    }
    Ok(())
}

/// Adds those reports that are known to be true of fragments of the whole texts, if the list is about an operation.
fn add_if(
    alloc: Global,
    is_marked: bool,
    reports: Reports,
    doubts: &Doubts,
    added: FileId,
    found: &mut ProjectReports,
) -> Result<(), ValidationError>
    ensures { OnOk result (KeepsReports (AreKnownOfList doubts.now added reports) found.old.lists.items found.new.lists.items) }
{
    if is_marked {
        add_known(alloc, reports, doubts, added, found)
    } else {
        Ok(())
    }
}

/// Adds those reports on rules that are known to be true of fragments of the whole texts.
fn add_known(
    alloc: Global,
    reports: Reports,
    doubts: &Doubts,
    added: FileId,
    found: &mut ProjectReports,
) -> Result<(), ValidationError>
    ensures { OnOk result (KeepsReports (AreKnownOfList doubts.now added reports) found.old.lists.items found.new.lists.items) }
{
    match reports.into_document_rules() {
        Some(reports) => add_known_rules(alloc, reports, doubts, added, found),
        None => Ok(()),
    }
}

fn add_known_rules(
    alloc: Global,
    reports: DocumentReports,
    doubts: &Doubts,
    added: FileId,
    found: &mut ProjectReports,
) -> Result<(), ValidationError>
    ensures { OnOk result (KeepsReports (AreKnownOf doubts.now added reports) found.old.lists.items found.new.lists.items) }
{
    let DocumentReports { rules, .. } = reports;
    let mut known = DiagnosticList::with_hash_seed(alloc, rules.hash_seed());
    add_known_of_fragments(rules.into_entries(), doubts, added, &mut known)?;
    push_rules(alloc, known, found)
}

fn texts_of<'a>(alloc: Global, left: &[SourceText<'a>]) -> Result<Vec<&'a str>, AllocError> {
    let mut texts = Vec::new(alloc);
    for source in left {
        texts.push(source.text)?;
    }
    Ok(texts)
}
