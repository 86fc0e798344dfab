//! The lines that texts give.

ghost use Rattle.std.specs.Prelude.{IfOk};
ghost use Rattle.graphql_frontend.specs.Schemas.{AcceptsOnlyUsableSchemas, IsUsable};

use crate::faults::Fault;
use crate::places::Place;
use crate::reports::print_entry;
use graphql_diagnostics::{DiagnosticEntry, DiagnosticList};
use graphql_documents::documents::Schema;
use graphql_frontend::{Reports, SchemaReading, SourceText, read_schema, validate_document};
use graphql_input_rules::InputFieldRepetition;
use graphql_nodes::FileId;
use graphql_parser::Bounds;
use graphql_schema_building::BUILT_IN_DEFINITIONS;
use graphql_shown_reports::BuildingReportList;
use graphql_shown_reports::rule_names::building_rule;
use graphql_usage_rules::VariableMisuse;
use std::alloc::Global;
use std::io::Write;

/// Whether lines name places: an example that names no file shows none.
#[derive(Clone, Copy)]
pub enum Places {
    Hidden,
    Shown,
}

/// Enough for the examples at the limits of walks.
const BOUNDS: Bounds = Bounds {
    tokens: usize::MAX,
    depth: 1_000,
    reach: usize::MAX,
    work: usize::MAX,
    reports: usize::MAX,
    report_bytes: usize::MAX,
};

/// The file that places name.
const FILE: FileId = FileId(1);

/// The file of the schema of a document.
const SCHEMA_FILE: FileId = FileId(2);

/// What a document gives against a schema, both from their texts.
pub fn document_lines(
    alloc: Global,
    schema: &str,
    text: &str,
    places: Places,
) -> Result<Vec<u8>, Fault> {
    match reading(alloc, SCHEMA_FILE, schema)? {
        SchemaReading::Accepted(schema) => lines_against(alloc, &schema, text, places),
        SchemaReading::Rejected(reports) => {
            let mut lines = Vec::new(alloc);
            writeln!(&mut lines, "the schema does not hold")?;
            print_reports(&reports, places, &mut lines)?;
            Ok(lines)
        }
        SchemaReading::LacksIntrospection => Ok(Vec::new(alloc)),
    }
}

/// What a schema gives from its text.
pub fn schema_lines(alloc: Global, text: &str, places: Places) -> Result<Vec<u8>, Fault> {
    let mut lines = Vec::new(alloc);
    if let SchemaReading::Rejected(reports) = reading(alloc, FILE, text)? {
        print_reports(&reports, places, &mut lines)?;
    }
    Ok(lines)
}

/// What the texts of a schema come to: those of every schema, and this one.
fn reading(alloc: Global, file_id: FileId, text: &str) -> Result<SchemaReading, Fault>
    ensures { IfOk result AcceptsOnlyUsableSchemas }
{
    let sources = [
        SourceText {
            file_id: FileId::BUILT_IN,
            text: BUILT_IN_DEFINITIONS,
        },
        SourceText { file_id, text },
    ];
    Ok(read_schema(alloc, &sources, BOUNDS)?)
}

/// What a document gives against a schema that was read.
fn lines_against(
    alloc: Global,
    schema: &Schema,
    text: &str,
    places: Places,
) -> Result<Vec<u8>, Fault>
    requires { IsUsable schema.now }
{
    let source = SourceText {
        file_id: FILE,
        text,
    };
    let mut lines = Vec::new(alloc);
    if let Some(reports) = validate_document(alloc, schema, source, BOUNDS)? {
        print_reports(&reports, places, &mut lines)?;
    }
    Ok(lines)
}

/// Prints a line for each report: its place and message, or what keeps the texts from being built.
fn print_reports(reports: &Reports, places: Places, lines: &mut Vec<u8>) -> Result<(), Fault> {
    match reports {
        Reports::Syntax(_) => Ok(writeln!(lines, "no GraphQL document")?),
        Reports::Building(list) | Reports::FirstBuilding(list) => {
            print_building_rules(list, lines)
        }
        Reports::Nesting(report) => Ok(writeln!(lines, "- {report}")?),
        Reports::Reach(report) => Ok(writeln!(lines, "- {report}")?),
        Reports::Work(report) => Ok(writeln!(lines, "- {report}")?),
        Reports::FirstSchemaRules(rules) | Reports::FirstDocumentRules(rules) => {
            print_entries(rules, places, lines)
        }
        Reports::SchemaRules(reports) => {
            print_entries(&reports.rules, places, lines)?;
            print_repetitions(reports.input_fields.as_slice(), lines)
        }
        Reports::DocumentRules(reports) => {
            print_entries(&reports.rules, places, lines)?;
            print_repetitions(reports.input_fields.as_slice(), lines)?;
            print_misuses(reports.usages.as_slice(), lines)
        }
    }
}

fn print_building_rules(list: &BuildingReportList, lines: &mut Vec<u8>) -> Result<(), Fault> {
    for report in list.iter() {
        writeln!(lines, "not built: {}", building_rule(&report.rule))?;
    }
    Ok(())
}

fn print_repetitions(
    repetitions: &[InputFieldRepetition],
    lines: &mut Vec<u8>,
) -> Result<(), Fault> {
    for repetition in repetitions {
        writeln!(lines, "- {repetition}")?;
    }
    Ok(())
}

fn print_misuses(misuses: &[VariableMisuse], lines: &mut Vec<u8>) -> Result<(), Fault> {
    for misuse in misuses {
        writeln!(lines, "- {misuse}")?;
    }
    Ok(())
}

fn print_entries(list: &DiagnosticList, places: Places, lines: &mut Vec<u8>) -> Result<(), Fault> {
    for entry in list.iter() {
        let place = shown_place(entry, places);
        print_entry(entry, place, lines)?;
    }
    Ok(())
}

/// The place that the line of a diagnostic shows, if it shows one.
fn shown_place(entry: &DiagnosticEntry, places: Places) -> Place {
    match places {
        Places::Hidden => Place(None),
        Places::Shown => Place(entry.location),
    }
}
