//! Rounds in which the texts of a schema are read without what cannot be built.

ghost use Rattle.std.specs.Prelude.{◌≡◌, ◌∷◌, ◌++◌, [], All, IfOk, IfSome, List, OnOk};
ghost use Rattle.graphql_kept_reports.specs.BuildingRule as building_rule;
ghost use Rattle.graphql_frontend.specs.declared.reports.Reports.TheVariants.{SchemaRules};
ghost use Rattle.graphql_frontend.specs.declared.texts.SourceText as source_text;
ghost use Rattle.graphql_kept_projects.specs.Left.{IsLeft};
ghost use Rattle.graphql_kept_projects.specs.declared.kept.LeftText as left_text;
ghost use Rattle.graphql_kept_reports.specs.Reports.{KeepsReports};
ghost use Rattle.graphql_kept_reports.specs.SchemaCuts.{AreDoubtsOf, rules_of};
ghost use Rattle.graphql_kept_projects.specs.Schemas.{AreCertainOfSchema, AreCertainOfSome, AreSourcesOf, AreTrueOfLeftSchema, IsInDoubt, RejectsLeft, are_certain};

use crate::kept::{Left, LeftText, left_without};
use graphql_frontend::{
    Reports, SchemaReading, SchemaReports, SourceText, ValidationError, read_schema,
};
use graphql_kept_reports::{
    BuildingReportList, Faults, SchemaDoubts, add_faults, certain_of_schema, has_doubtful_of_schema,
};
use graphql_parser::Bounds;
use graphql_text_parts::has_no_token;
use std::alloc::{AllocError, Global};

/// As many times texts are read again at most.
const MOST_ROUNDS: usize = 4;

/// What is reported of texts without what keeps them from making a schema by these reports. The only error is a failed allocation.
///
/// Specification: 3 Type System.
pub(crate) fn reports_of_left(
    alloc: Global,
    whole: &[SourceText<'_>],
    reports: &BuildingReportList,
    bounds: Bounds,
) -> Result<Vec<Reports>, ValidationError>
    ensures { IfOk result (λ further. All (AreTrueOfLeftSchema bounds whole.now (rules_of reports.now)) further.items) }
{
    let mut doubts = SchemaDoubts::new(alloc);
    let faults = faults_of(alloc, reports, &mut doubts)?;
    let left = Left::of(alloc, whole)?;
    let mut further = Vec::new(alloc);
    add_rounds(alloc, whole, bounds, faults, doubts, left, &mut further)?;
    Ok(further)
}

/// Adds what is reported in each round.
fn add_rounds(
    alloc: Global,
    whole: &[SourceText<'_>],
    bounds: Bounds,
    mut faults: Faults,
    mut doubts: SchemaDoubts,
    mut left: Left,
    further: &mut Vec<Reports>,
) -> Result<(), ValidationError>
    requires { IsLeft whole.now left }
    ensures { (first : List building_rule.BuildingRule) → IsInDoubt first doubts →
        OnOk result (KeepsReports (AreTrueOfLeftSchema bounds whole.now first) further.old.items further.new.items) }
{
    for _ in 0..MOST_ROUNDS {
        left = left_without(alloc, &faults, bounds, left)?;
        let reports = rejects(alloc, &left, bounds)?;
        faults = faults_beside(alloc, &reports, &mut doubts)?;
        add_certain(alloc, reports, &doubts, further)?;
        if faults.is_empty() {
            break;
        }
    }
    Ok(())
}

/// What keeps texts from making a schema by these reports: it is left out, so that others may be in doubt.
fn faults_of(
    alloc: Global,
    reports: &BuildingReportList,
    doubts: &mut SchemaDoubts,
) -> Result<Faults, AllocError>
    ensures { (found : List building_rule.BuildingRule) → AreDoubtsOf found doubts.old → OnOk result (AreDoubtsOf (found ++ rules_of reports.now) doubts.new) }
{
    let mut faults = Faults::new(alloc);
    add_faults(alloc, reports, &mut faults)?;
    doubts.add(alloc, reports)?;
    Ok(faults)
}

/// What keeps texts from making a schema by these reports, if there are any, and they are of that. Of more than the bounds keep, nothing is taken.
fn faults_beside(
    alloc: Global,
    reports: &Option<Reports>,
    doubts: &mut SchemaDoubts,
) -> Result<Faults, AllocError>
    ensures { (first : List building_rule.BuildingRule) → IsInDoubt first doubts.old → OnOk result (IsInDoubt first doubts.new) }
{
    match reports {
        Some(Reports::Building(list)) => faults_of(alloc, list, doubts),
        _ => Ok(Faults::new(alloc)),
    }
}

/// Why what is left of texts is rejected as a schema, if it is.
fn rejects(alloc: Global, left: &Left, bounds: Bounds) -> Result<Option<Reports>, ValidationError>
    ensures { (whole : List source_text.SourceText) → IsLeft whole left.now → IfOk result (λ reports. IfSome reports (RejectsLeft bounds whole)) }
{
    let sources = sources_of(alloc, left)?;
    let reading = read_schema(alloc, &sources, bounds)?;
    match reading {
        SchemaReading::Rejected(reports) => Ok(Some(reports)),
        SchemaReading::Accepted(_) | SchemaReading::LacksIntrospection => Ok(None),
    }
}

/// What is left of texts, under their numbers, but for texts of which no token is left.
fn sources_of<'a>(alloc: Global, left: &'a Left) -> Result<Vec<SourceText<'a>>, AllocError>
    ensures { IfOk result (λ sources. AreSourcesOf left.now.texts.items sources.items) }
{
    let mut sources = Vec::new(alloc);
    for left in &left.texts {
        add_source(left, &mut sources)?;
    }
    Ok(sources)
}

/// Adds what is left of a text, unless that has no token.
fn add_source<'a>(left: &'a LeftText, sources: &mut Vec<SourceText<'a>>) -> Result<(), AllocError>
    ensures { (before : List left_text.LeftText) → AreSourcesOf before sources.old.items →
        OnOk result (AreSourcesOf (before ++ left.now ∷ []) sources.new.items) }
{
    let text = left.text.as_str();
    if has_no_token(text) {
        return Ok(());
    }
    let file_id = left.file_id;
    sources.push(SourceText { file_id, text })?;
    Ok(())
}

/// Adds those of these reports on what is left that cannot be false of the whole, if there are any.
fn add_certain(
    alloc: Global,
    reports: Option<Reports>,
    doubts: &SchemaDoubts,
    further: &mut Vec<Reports>,
) -> Result<(), ValidationError>
    ensures { OnOk result (KeepsReports (AreCertainOfSome doubts.now reports) further.old.items further.new.items) }
{
    let Some(reports) = reports else {
        return Ok(());
    };
    if let Some(certain) = certain_of(alloc, reports, doubts)? {
        further.push(certain)?;
    }
    Ok(())
}

/// Those of these reports on what is left that cannot be false of the whole, if there are any.
fn certain_of(
    alloc: Global,
    reports: Reports,
    doubts: &SchemaDoubts,
) -> Result<Option<Reports>, ValidationError>
    ensures { IfOk result (λ certain. IfSome certain (AreCertainOfSchema doubts.now reports)) }
{
    if are_certain(&reports, doubts) {
        return Ok(Some(reports));
    }
    match reports.into_schema_rules() {
        Some(rules) => certain_rules(alloc, rules, doubts),
        None => Ok(None),
    }
}

/// Whether none of these reports could be false of the whole. Errors of syntax are: the whole texts have none.
fn are_certain(reports: &Reports, doubts: &SchemaDoubts) -> bool
    ensures { result ≡ are_certain doubts.now reports.now }
{
    match reports {
        Reports::Building(_) | Reports::FirstBuilding(_) => true,
        Reports::SchemaRules(reports) => !has_doubtful_of_schema(&reports.rules, doubts),
        Reports::FirstSchemaRules(list) => !has_doubtful_of_schema(list, doubts),
        _ => false,
    }
}

fn certain_rules(
    alloc: Global,
    reports: SchemaReports,
    doubts: &SchemaDoubts,
) -> Result<Option<Reports>, ValidationError>
    ensures { IfOk result (λ certain. IfSome certain (AreCertainOfSchema doubts.now (SchemaRules reports))) }
{
    let has_more = reports.has_more;
    let SchemaReports {
        rules,
        input_fields,
        ..
    } = reports;
    let rules = certain_of_schema(alloc, rules, doubts)?;
    if rules.is_empty() && input_fields.is_empty() {
        return Ok(None);
    }
    Ok(Some(Reports::SchemaRules(SchemaReports {
        rules,
        input_fields,
        has_more,
    })))
}
