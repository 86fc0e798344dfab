//! Two schemas, compared.

ghost use Rattle.std.specs.Prelude.{◌↔◌, All, Any, Bool, IfOk, IsFalse, IsTrue, false, true};
ghost use Rattle.std.specs.List.Sorted.{IsPermutation};
ghost use Rattle.graphql_documents.specs.Built.{StandsUnderOwnNames};
ghost use Rattle.graphql_document_building.specs.Documents.{HasOutputFields};
ghost use Rattle.graphql_schema_changes.specs.Keeps.{KeepsDocumentsValid, KeepsLoneFieldsValid, KeepsRoots};
ghost use Rattle.graphql_change_kinds.specs.Breaks.{Breaks, IsHarmless};
ghost use Rattle.graphql_change_kinds.specs.Changes.{IsTrueOf};
ghost use Rattle.graphql_schema_comparison.specs.Comparisons.{KeepsAll};

use crate::directives::compare_directives;
use crate::roots::compare_roots;
use crate::types::compare_types;
use graphql_change_kinds::{ChangeList, SchemaChange, SchemaPair};
use graphql_documents::documents::Schema;
use graphql_nodes::{SourceSpan, ValidationError};
use graphql_shape_comparison::Meetings;
use std::alloc::Global;

/// What changes from one schema to another.
pub struct Comparison {
    /// By their places in the new schema, and then what was removed, by its places in the old one.
    pub changes: Vec<SchemaChange>,
    /// No change was found that breaks a document without two fields under one response key.
    pub keeps_lone_fields: bool,
    /// No change was found that breaks a document.
    pub keeps_documents: bool,
}

// Written out, so that only this crate proves it: a derived one is proved again in each crate that drops comparisons.
impl Drop for Comparison {
    fn drop(self) {
        let Comparison {
            changes: _,
            keeps_lone_fields: _,
            keeps_documents: _,
        } = self;
    }
}

/// Finds what changes from an old schema to a new one. The only error is a failed allocation.
///
/// If `keeps_documents` is true, documents stay valid, for schemas that were read: their types are listed under their own names, and
/// their fields have output types. If `keeps_lone_fields` is true, so do those in which no two fields come together in a response.
/// If one is false, a change says why. What each change says is so of the two schemas.
pub fn compare_schemas(
    alloc: Global,
    old: &Schema,
    new: &Schema,
) -> Result<Comparison, ValidationError>
    ensures roots { IfOk result (λ found. IsTrue found.keeps_lone_fields → KeepsRoots old.now new.now) }
    ensures lone_fields { IfOk result (λ found. IsTrue found.keeps_lone_fields →
        StandsUnderOwnNames old.now → StandsUnderOwnNames new.now → HasOutputFields old.now → HasOutputFields new.now → KeepsLoneFieldsValid old.now new.now) }
    ensures documents { IfOk result (λ found. IsTrue found.keeps_documents →
        StandsUnderOwnNames old.now → StandsUnderOwnNames new.now → HasOutputFields old.now → HasOutputFields new.now → KeepsDocumentsValid old.now new.now) }
    ensures fewer { IfOk result (λ found. IsTrue found.keeps_documents → IsTrue found.keeps_lone_fields) }
    ensures lone_fields_explained { IfOk result (λ found. IsFalse found.keeps_lone_fields ↔ Any (Breaks false) found.changes.items) }
    ensures explained { IfOk result (λ found. IsFalse found.keeps_documents ↔ Any (Breaks true) found.changes.items) }
    ensures each { IfOk result (λ found. All (IsTrueOf old.now new.now) found.changes.items) }
{
    let pair = SchemaPair { old, new };
    let changes = find_changes(alloc, pair)?;
    let breaks_lone_fields = break_documents(&changes, false);
    let breaks_documents = break_documents(&changes, true);
    Ok(Comparison {
        changes,
        keeps_lone_fields: !breaks_lone_fields,
        keeps_documents: !breaks_documents,
    })
}

/// The changes in order.
fn find_changes(alloc: Global, pair: SchemaPair<'_>) -> Result<Vec<SchemaChange>, ValidationError>
    ensures keeps { IfOk result (λ changes. (merging : Bool) → All (IsHarmless merging) changes.items → KeepsAll pair.entry.old.now pair.entry.new.now merging) }
    ensures each { IfOk result (λ changes. All (IsTrueOf pair.entry.old.now pair.entry.new.now) changes.items) }
{
    let hash_seed = *pair.new.types.hasher();
    let meetings = Meetings::new(alloc, hash_seed, pair)?;
    let mut list = ChangeList {
        changes: Vec::new(alloc),
        hash_seed,
    };
    compare_roots(&mut list, pair)?;
    compare_types(&mut list, pair, &meetings)?;
    compare_directives(&mut list, pair)?;
    let changes = in_order(list.changes)?;
    Ok(changes)
}

/// Whether one of the changes breaks documents: with merging, some of all; without it, some of those in which no two fields come together
/// in a response.
fn break_documents(changes: &[SchemaChange], merging: bool) -> bool
    ensures { IsTrue result ↔ Any (Breaks merging) changes.now }
{
    changes.iter().any(|found| found.change.breaks(merging))
}

/// The changes by their places in the new schema, and then what was removed, by its places in the old one.
fn in_order(mut changes: Vec<SchemaChange>) -> Result<Vec<SchemaChange>, ValidationError>
    ensures { IfOk result (λ sorted. IsPermutation changes.items sorted.items) }
{
    changes.sort_by_key(|change| order_of(change))?;
    Ok(changes)
}

/// Where a change comes: what was removed last, and what has a place first.
fn order_of(change: &SchemaChange) -> (bool, bool, u32, u32) {
    let is_removal = change.is_removal();
    match place_of(change) {
        Some(place) => (is_removal, false, place.file_id.0, place.start),
        None => (is_removal, true, 0, 0),
    }
}

fn place_of(change: &SchemaChange) -> Option<SourceSpan> {
    if change.is_removal() {
        change.old
    } else {
        change.new
    }
}
