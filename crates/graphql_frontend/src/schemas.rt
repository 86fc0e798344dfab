//! Schemas, from their texts.

ghost use Rattle.std.specs.Prelude.{All, IfOk, List};
ghost use Rattle.graphql_building_reports.specs.Checks.{reports_of};
ghost use Rattle.graphql_schema_building.specs.SchemaReports.{SchemaBuildingReport};
ghost use Rattle.graphql_trees.specs.declared.documents.Document as document_tree;
ghost use Rattle.graphql_documents.specs.declared.documents.schemas.Schema as schema_type;
ghost use Rattle.graphql_frontend.specs.Schemas.{AcceptsOnlyUsableSchemas, AreReportsOfSchema, Judges, JudgesTrees, ReadsSchema};
ghost use Rattle.graphql_parser.specs.declared.bounds.Bounds as source_bounds;
ghost use Rattle.graphql_document_rules.specs.BuiltInScalars.{SchemaRetainsUsedBuiltInScalars};

use crate::first_reports::{is_full_of_building_rules, report_bound};
use crate::meta_fields::has_types_of_meta_fields;
use crate::reports::{Reports, SchemaReports};
use crate::schema_rules::{SchemaRuleReports, schema_reports};
use crate::texts::{Parsed, SourceText, hash_seed_of, parse_texts};
use graphql_building_reports::BuildingReportList;
use graphql_diagnostics::HashSeed;
use graphql_documents::documents::Schema;
use graphql_nodes::ValidationError;
use graphql_parser::Bounds;
use graphql_schema_building::{build_schema, check_schema};
use graphql_trees::Document;
use std::alloc::Global;
use std::mem;

/// What texts come to as a schema.
#[derive(Drop)]
pub enum SchemaReading {
    /// A schema that holds, whose used built-in scalars are retained.
    Accepted(Schema),
    /// What is wrong with the texts, or with the schema that they make.
    Rejected(Reports),
    /// A schema without the types of its meta-fields: the definitions that every schema has are not among the texts.
    LacksIntrospection,
}

/// Reads a schema from its texts. The first is `BUILT_IN_DEFINITIONS`, the text of the definitions that every schema has, as
/// file `FileId::BUILT_IN`. The others are those of a user, each as another file: what that file defines counts as built in.
///
/// Texts that are no documents are reported first, each with its first error; then rules that keep the texts from
/// making a schema; then rules that the schema breaks. The only error is a failed allocation.
///
/// Specification: 2.2 Document; 3 Type System.
pub fn read_schema(
    alloc: Global,
    sources: &[SourceText<'_>],
    bounds: Bounds,
) -> Result<SchemaReading, ValidationError>
    ensures reads { IfOk result (ReadsSchema bounds sources.now) }
    ensures usable { IfOk result AcceptsOnlyUsableSchemas }
{
    let Parsed { documents, errors } = parse_texts(alloc, sources, bounds)?;
    if errors.is_empty() {
        schema_of_documents(alloc, hash_seed_of(sources), &documents, bounds)
    } else {
        Ok(SchemaReading::Rejected(Reports::Syntax(errors)))
    }
}

/// The schema that these documents make, if they make one that holds. Its maps hash names by this seed.
fn schema_of_documents(
    alloc: Global,
    hash_seed: HashSeed,
    documents: &[Document],
    bounds: Bounds,
) -> Result<SchemaReading, ValidationError>
    ensures { IfOk result (JudgesTrees bounds documents.now) }
{
    let mut reports = BuildingReportList::with_bound(alloc, hash_seed, report_bound(bounds));
    match check_schema(&mut reports, documents) {
        Ok(()) => {
            if reports.is_empty() {
                let schema = build_schema(alloc, hash_seed, documents)?;
                validated(alloc, schema, bounds)
            } else {
                Ok(SchemaReading::Rejected(Reports::Building(reports)))
            }
        }
        Err(error) => first_building_reports(reports, bounds, error),
    }
}

/// The first reports, if a check ended with this error because there are more than the bounds keep.
fn first_building_reports(
    reports: BuildingReportList,
    bounds: Bounds,
    error: ValidationError,
) -> Result<SchemaReading, ValidationError>
    ensures { (trees : List document_tree.Document) → All (SchemaBuildingReport trees) (reports_of reports) → IfOk result (JudgesTrees bounds trees) }
{
    if is_full_of_building_rules(&reports, bounds) {
        Ok(SchemaReading::Rejected(Reports::FirstBuilding(reports)))
    } else {
        Err(error)
    }
}

/// The schema, if it holds, with its used built-in scalars retained.
fn validated(
    alloc: Global,
    mut schema: Schema,
    bounds: Bounds,
) -> Result<SchemaReading, ValidationError>
    ensures { IfOk result (Judges bounds schema) }
{
    match schema_reports(alloc, &mut schema, bounds)? {
        SchemaRuleReports::All(reports) => Ok(reading_of(schema, reports)),
        SchemaRuleReports::First(rules) => {
            Ok(SchemaReading::Rejected(Reports::FirstSchemaRules(rules)))
        }
    }
}

/// What a schema comes to, with its used built-in scalars retained, of which the rules report this.
fn reading_of(schema: Schema, reports: SchemaReports) -> SchemaReading
    ensures { (bounds : source_bounds.Bounds) (given : schema_type.Schema) → SchemaRetainsUsedBuiltInScalars given schema → AreReportsOfSchema given schema reports →
        Judges bounds given result }
{
    if !reports.is_empty() {
        SchemaReading::Rejected(Reports::SchemaRules(reports))
    } else if has_types_of_meta_fields(&schema) {
        SchemaReading::Accepted(schema)
    } else {
        SchemaReading::LacksIntrospection
    }
}

/// Gives up a schema at the end of a process, which frees all memory at once: to free a schema part by part takes time.
pub fn abandon(schema: Schema) {
    mem::forget(schema)
}
