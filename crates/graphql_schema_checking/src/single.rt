//! What may be there only once.

ghost use Rattle.std.specs.Prelude.{◌≡◌, ◌≤◌, ◌∷◌, All, Contains, List, Option, length};
ghost use Rattle.graphql_nodes.specs.declared.spans.SourceSpan.{SourceSpan};
ghost use Rattle.graphql_building_reports.specs.Checks.{Checks};
ghost use Rattle.graphql_schema_checking.specs.SchemaReports.{LaterReport};
ghost use Rattle.graphql_schema_checking.specs.Steps.{single_rule};

use graphql_building_reports::{BuildingReportList, BuildingRule};
use graphql_nodes::{OperationType, SourceSpan, ValidationError};

/// What a schema has at most one of.
#[derive(Clone, Copy, Debug)]
pub(crate) enum Single {
    Schema,
    Root(OperationType),
}

impl Single {
    fn again(self, original: Option<SourceSpan>) -> BuildingRule
        ensures { result ≡ single_rule self original }
    {
        match self {
            Single::Schema => BuildingRule::SchemaDefinitionCollision { original },
            Single::Root(operation_type) => BuildingRule::DuplicateRootOperation {
                operation_type,
                original,
            },
        }
    }
}

/// Reports each place behind the first. The only error is a failed allocation.
pub(crate) fn check_single(
    reports: &mut BuildingReportList,
    places: &[Option<SourceSpan>],
    what: Single,
) -> Result<(), ValidationError>
    ensures { Checks result (length places.now ≤ 1) (LaterReport places.now (single_rule what)) reports.old reports.new }
{
    match places {
        [] => Ok(()),
        [original, later @ ..] => check_later(reports, *original, later, what),
    }
}

fn check_later(
    reports: &mut BuildingReportList,
    original: Option<SourceSpan>,
    later: &[Option<SourceSpan>],
    what: Single,
) -> Result<(), ValidationError>
    ensures { Checks result (All (λ place. ⊥) later.now) (LaterReport (original ∷ later.now) (single_rule what)) reports.old reports.new }
{
    for place in later {
        report_later(reports, original, *place, what)?;
    }
    Ok(())
}

fn report_later(
    reports: &mut BuildingReportList,
    original: Option<SourceSpan>,
    place: Option<SourceSpan>,
    what: Single,
) -> Result<(), ValidationError>
    ensures { (later : List (Option SourceSpan)) → Contains later place →
        Checks result ⊥ (LaterReport (original ∷ later) (single_rule what)) reports.old reports.new }
{
    reports.push(place, what.again(original))
}
