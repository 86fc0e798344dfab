//! Rounds in which texts are validated without what cannot be built.

ghost use Rattle.std.specs.Prelude.{◌≡◌, All, IfOk, List, OnOk};
ghost use Rattle.graphql_frontend.specs.Schemas.{IsUsable};
ghost use Rattle.graphql_frontend.specs.declared.texts.SourceText as source_text;
ghost use Rattle.graphql_kept_projects.specs.Left.{AreFurther, AreTrueOfFragments, AreTrueOfLeft, IsLeft};
ghost use Rattle.graphql_kept_projects.specs.Rounds.{may_hide_faults};
ghost use Rattle.graphql_kept_reports.specs.Reports.{KeepsReports};

use crate::certain::add_all_certain;
use crate::kept::{Left, doubts_of, left_without, sources_of};
use crate::known::add_known;
use crate::scopes::{Scope, reports_of};
use crate::unreached::{add_unreached, unreached_in};
use graphql_documents::documents::Schema;
use graphql_frontend::{ProjectReports, Reports, SourceText, ValidationError};
use graphql_kept_reports::{Doubts, Faults, add_doubtful, add_faults, has_unreached};
use graphql_parser::Bounds;
use std::alloc::{AllocError, Global};

/// As many times texts are validated again at most.
const MOST_ROUNDS: usize = 4;

/// Adds to what was found in texts what is found in them without what cannot be built, and what is found without the schema in those with something that
/// cannot. A report that could be false of the whole texts is not
/// added, nor are the others of its list: what it is about is left out as well, and the rest is validated again. A fragment that no operation reaches is
/// validated as an operation would be that spreads it alone, without its variables.
///
/// What was found stays. Each list that is added is true of what is left of the texts, in which some parts are blank or `__typename`; or it has some of
/// the reports on one of the texts as a document without a schema, or on such an operation. The only error is a failed allocation.
///
/// Specification: 5 Validation.
pub fn add_further(
    alloc: Global,
    schema: &Schema,
    read: &[SourceText<'_>],
    scope: Scope,
    bounds: Bounds,
    found: &mut ProjectReports,
) -> Result<(), ValidationError>
    requires { IsUsable schema.now }
    ensures { OnOk result (KeepsReports (AreFurther bounds schema.now read.now) found.old.lists.items found.new.lists.items) }
{
    let mut faults = Faults::new(alloc);
    add_building_faults(alloc, &found.lists, &mut faults)?;
    if faults.is_empty() {
        let unreached = unreached_in(alloc, &found.lists)?;
        let doubts = Doubts::new(alloc);
        return add_unreached(
            alloc, schema, scope, &unreached, read, &doubts, bounds, found,
        );
    }
    add_all_certain(alloc, read, scope, &faults, bounds, found)?;
    let left = Left::of(alloc, read)?;
    add_rounds(alloc, schema, read, scope, bounds, faults, left, found)
}

/// Whether texts of which this is reported may have other faults: some are no documents, cannot be built, or have fragments that no operation reaches.
pub fn may_hide_faults(reports: &Reports) -> bool
    ensures { result ≡ may_hide_faults reports.now }
{
    match reports {
        Reports::Syntax(_) | Reports::Building(_) | Reports::FirstBuilding(_) => true,
        Reports::DocumentRules(reports) => has_unreached(&reports.rules),
        Reports::FirstDocumentRules(list) => has_unreached(list),
        _ => false,
    }
}

/// Adds what is found in each round.
fn add_rounds(
    alloc: Global,
    schema: &Schema,
    read: &[SourceText<'_>],
    scope: Scope,
    bounds: Bounds,
    mut faults: Faults,
    mut left: Left,
    found: &mut ProjectReports,
) -> Result<(), ValidationError>
    requires usable { IsUsable schema.now }
    requires left { IsLeft read.now left }
    ensures { OnOk result (KeepsReports (AreFurther bounds schema.now read.now) found.old.lists.items found.new.lists.items) }
{
    for _ in 0..MOST_ROUNDS {
        left = left_without(alloc, &faults, bounds, left)?;
        let doubts = doubts_of(alloc, read, &left)?;
        let further = check_left(alloc, schema, scope, &left, bounds)?;
        faults = faults_beside(alloc, &further, &doubts)?;
        add_unreached_of(
            alloc, schema, scope, &further, &left, &doubts, bounds, found,
        )?;
        add_known(alloc, further, &doubts, found)?;
        if faults.is_empty() {
            break;
        }
    }
    Ok(())
}

/// Adds what is found in the fragments that no operation reaches by these reports on what is left.
fn add_unreached_of(
    alloc: Global,
    schema: &Schema,
    scope: Scope,
    further: &ProjectReports,
    left: &Left,
    doubts: &Doubts,
    bounds: Bounds,
    found: &mut ProjectReports,
) -> Result<(), ValidationError>
    requires { IsUsable schema.now }
    ensures { (read : List source_text.SourceText) → IsLeft read left.now →
        OnOk result (KeepsReports (AreTrueOfFragments bounds schema.now read) found.old.lists.items found.new.lists.items) }
{
    let unreached = unreached_in(alloc, &further.lists)?;
    let sources = sources_of(alloc, left)?;
    add_unreached(
        alloc, schema, scope, &unreached, &sources, doubts, bounds, found,
    )
}

/// Adds what these reports say keeps texts from being built. Of a list with more than the bounds keep, nothing is added.
fn add_building_faults(
    alloc: Global,
    lists: &[Reports],
    faults: &mut Faults,
) -> Result<(), AllocError> {
    for reports in lists {
        match reports {
            Reports::Building(list) => add_faults(alloc, list, faults)?,
            _ => {}
        }
    }
    Ok(())
}

/// What is at fault by these reports on what is left: what keeps it from being built, and what a report is about that could be false of the whole
/// texts.
fn faults_beside(
    alloc: Global,
    further: &ProjectReports,
    doubts: &Doubts,
) -> Result<Faults, AllocError> {
    let mut faults = Faults::new(alloc);
    add_building_faults(alloc, &further.lists, &mut faults)?;
    for reports in &further.lists {
        add_doubtful_faults(reports, doubts, &mut faults)?;
    }
    Ok(faults)
}

fn add_doubtful_faults(
    reports: &Reports,
    doubts: &Doubts,
    faults: &mut Faults,
) -> Result<(), AllocError> {
    match reports {
        Reports::DocumentRules(reports) => add_doubtful(&reports.rules, doubts, faults),
        Reports::FirstDocumentRules(list) => add_doubtful(list, doubts, faults),
        _ => Ok(()),
    }
}

/// What is found in what is left of texts.
fn check_left(
    alloc: Global,
    schema: &Schema,
    scope: Scope,
    left: &Left,
    bounds: Bounds,
) -> Result<ProjectReports, ValidationError>
    requires { IsUsable schema.now }
    ensures { (read : List source_text.SourceText) → IsLeft read left.now → IfOk result (λ further. All (AreTrueOfLeft bounds schema.now read) further.lists.items) }
{
    let sources = sources_of(alloc, left)?;
    reports_of(alloc, schema, &sources, scope, bounds)
}
