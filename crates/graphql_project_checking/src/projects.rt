//! What is reported of a project.

ghost use Rattle.std.specs.Prelude.{◌≡◌, ◌↔◌, [], All, IfOk, IsTrue, OnOk};
ghost use Rattle.graphql_frontend.specs.Documents.{IsOnlyOff};
ghost use Rattle.graphql_frontend.specs.RuleSets.{RuleSet};
ghost use Rattle.graphql_frontend.specs.Schemas.{IsUsable};
ghost use Rattle.graphql_project_checking.specs.Truth.{AddsTrue, AreAllTrue};
ghost use Rattle.graphql_projects.specs.Projects.{ProjectHolds, ProjectHoldsBut};

use crate::building::{Building, build_files, build_lent_files, check_fragment_names};
use crate::rest::check_rest;
use crate::texts::read_texts;
use crate::whole::check_whole;
use graphql_diagnostics::HashSeed;
use graphql_documents::documents::Schema;
use graphql_frontend::texts::hash_seed_of;
use graphql_frontend::{Bounds, ProjectReports, Reports, SourceText, ValidationError};
use std::alloc::Global;

/// Reports what is wrong with files that are validated together against a schema that was read: each operation in the document of it and of
/// exactly the fragments that it reaches, in these files or in those that are lent. Each list is of one text, of one operation, of the
/// definitions of one file together, or of the names of all fragments. The only error is a failed allocation.
///
/// A text without a token is skipped. Names of fragments differ in all files, names of operations in a file, and an operation without a name
/// is alone in its file. A fragment is reported as unused if no operation of these files reaches it; one that is lent never is. Of
/// files that are lent each definition has to build, and no other rule is asked.
///
/// If a text is no document, or a definition cannot be built, an operation that reaches a fragment of which nothing is known for that
/// reason is not validated, and no fragment is reported as unused.
///
/// If nothing is reported, the project holds (`silence`). If only unused variables and fragments are reported, it holds by all other
/// rules (`others`).
///
/// Specification: 2.2 Document, 5 Validation.
pub fn check_project(
    alloc: Global,
    schema: &Schema,
    sources: &[SourceText<'_>],
    lent: &[SourceText<'_>],
    bounds: Bounds,
) -> Result<ProjectReports, ValidationError>
    requires { IsUsable schema.now }
    ensures silence { IfOk result (λ found. found.lists.items ≡ [] → ProjectHolds bounds schema.now sources.now lent.now) }
    ensures others { IfOk result (λ found. (off : RuleSet) → All (IsOnlyOff off) found.lists.items → ProjectHoldsBut off bounds schema.now sources.now lent.now) }
    ensures truth { IfOk result (λ found. AreAllTrue bounds schema.now sources.now lent.now found.lists.items) }
{
    let mut found = ProjectReports::new(alloc);
    check_texts(alloc, schema, sources, lent, bounds, true, &mut found)?;
    Ok(found)
}

/// Reports what is wrong with some files of a project, of which others could not be read. What these may define is not reported as
/// missing: an operation that spreads a fragment which is not in these files is not validated, and no fragment is reported as unused.
///
/// Specification: 2.2 Document, 5 Validation.
pub fn check_part_of_project(
    alloc: Global,
    schema: &Schema,
    sources: &[SourceText<'_>],
    lent: &[SourceText<'_>],
    bounds: Bounds,
) -> Result<ProjectReports, ValidationError>
    requires { IsUsable schema.now }
    ensures truth { IfOk result (λ found. AreAllTrue bounds schema.now sources.now lent.now found.lists.items) }
{
    let mut found = ProjectReports::new(alloc);
    check_texts(alloc, schema, sources, lent, bounds, false, &mut found)?;
    Ok(found)
}

fn check_texts(
    alloc: Global,
    schema: &Schema,
    sources: &[SourceText<'_>],
    lent: &[SourceText<'_>],
    bounds: Bounds,
    is_all: bool,
    found: &mut ProjectReports,
) -> Result<(), ValidationError>
    requires { IsUsable schema.now }
    ensures others { IsTrue is_all → found.old.lists.items ≡ [] →
        OnOk result ((off : RuleSet) → All (IsOnlyOff off) found.new.lists.items → ProjectHoldsBut off bounds schema.now sources.now lent.now) }
    ensures truth { OnOk result (AddsTrue bounds schema.now sources.now lent.now found.old.lists.items found.new.lists.items) }
{
    let building = Building {
        schema,
        hash_seed: seed_of_all(alloc, sources, lent)?,
        bounds,
    };
    let own = read_texts(alloc, sources, bounds, &mut found.lists)?;
    let lent = read_texts(alloc, lent, bounds, &mut found.lists)?;
    let is_all_read = is_silent(is_all, found.lists.as_slice());
    check_fragment_names(alloc, building, &own, &lent, &mut found.lists)?;
    let files = build_files(alloc, building, &own, &mut found.lists)?;
    let built = build_lent_files(alloc, building, lent, &mut found.lists)?;
    if is_silent(is_all_read, found.lists.as_slice()) {
        check_whole(alloc, building, &own, files, &built.files, found)
    } else {
        check_rest(alloc, building, own, built.documents, !is_all_read, found)
    }
}

/// Whether this is so, and nothing was found.
fn is_silent(is_so: bool, found: &[Reports]) -> bool
    ensures { IsTrue result ↔ (IsTrue is_so × (found.now ≡ [])) }
{
    is_so && found.is_empty()
}

/// The seed that is drawn from all texts.
fn seed_of_all<'a>(
    alloc: Global,
    sources: &[SourceText<'a>],
    lent: &[SourceText<'a>],
) -> Result<HashSeed, ValidationError> {
    let mut all = Vec::from_slice(alloc, sources)?;
    all.extend_from_slice(lent)?;
    Ok(hash_seed_of(&all))
}
