//! What helps with single reports.

ghost use Rattle.std.specs.Option.{option_copied};
ghost use Rattle.std.specs.Prelude.{IfOk, IfSome, Some};
ghost use Rattle.graphql_findings.specs.Helps.{HelpsWith, IsBuildingHelp, IsRuleHelp, IsSyntaxHelp, help_text};
ghost use Rattle.graphql_findings.specs.Singles.{report_of};

use crate::singles::Single;
use graphql_building_reports::BuildingReport;
use graphql_diagnostics::DiagnosticEntry;
use graphql_documents::documents::Schema;
use graphql_helps::{Help, help_of_building, help_of_details};
use graphql_nodes::ValidationError;
use graphql_shown_reports::frontend::texts::{SourceText, SyntaxReport};
use graphql_shown_reports::text_of;
use graphql_syntax_helps::{SyntaxHelp, help_of_syntax};
use std::alloc::Global;
use std::fmt;

/// What helps with a report.
#[derive(Debug, Drop)]
pub enum FindingHelp<'a> {
    /// By what the schema defines.
    Schema(Help<'a>),
    /// By what the text has at the place of a syntax error.
    Syntax(SyntaxHelp),
}

impl fmt::Display for FindingHelp<'_> {
    ghost output = { λ help. Some (help_text help) };

    fn fmt<W: fmt::Write>(&self, f: &mut fmt::Formatter<W>) -> fmt::Result {
        match self {
            FindingHelp::Schema(help) => write!(f, "{help}"),
            FindingHelp::Syntax(help) => write!(f, "{help}"),
        }
    }
}

/// What helps with a report, if something does: with a syntax error by the text, with rules of a document by the schema against
/// which it was validated. The only error is a failed allocation.
pub fn help_of<'a>(
    alloc: Global,
    schema: Option<&Schema>,
    sources: &[SourceText<'_>],
    single: Single<'a>,
) -> Result<Option<FindingHelp<'a>>, ValidationError>
    ensures { IfOk result (λ help. IfSome help (HelpsWith (report_of single.entry) (option_copied schema.entry) sources.now)) }
{
    if let Single::Syntax(report) = single {
        return Ok(help_of_error(sources, report));
    }
    let Some(schema) = schema else {
        return Ok(None);
    };
    match single {
        Single::Building(report) => help_of_report(alloc, schema, report),
        Single::Validation(entry) => help_of_entry(alloc, schema, entry),
        _ => Ok(None),
    }
}

/// What helps with a syntax error.
fn help_of_error<'a>(sources: &[SourceText<'_>], report: &SyntaxReport) -> Option<FindingHelp<'a>>
    ensures { IfSome result (IsSyntaxHelp sources.now report.now) }
{
    match help_of_syntax(text_of(sources, report.file_id), report.error) {
        Some(help) => Some(FindingHelp::Syntax(help)),
        None => None,
    }
}

/// What helps with a rule of building.
fn help_of_report<'a>(
    alloc: Global,
    schema: &Schema,
    report: &'a BuildingReport,
) -> Result<Option<FindingHelp<'a>>, ValidationError>
    ensures { IfOk result (λ help. IfSome help (IsBuildingHelp schema.now report.now)) }
{
    match help_of_building(alloc, schema, &report.rule)? {
        Some(help) => Ok(Some(FindingHelp::Schema(help))),
        None => Ok(None),
    }
}

/// What helps with a rule of validation.
fn help_of_entry<'a>(
    alloc: Global,
    schema: &Schema,
    entry: &'a DiagnosticEntry,
) -> Result<Option<FindingHelp<'a>>, ValidationError>
    ensures { IfOk result (λ help. IfSome help (IsRuleHelp schema.now entry.now)) }
{
    match help_of_details(alloc, schema, &entry.details)? {
        Some(help) => Ok(Some(FindingHelp::Schema(help))),
        None => Ok(None),
    }
}
