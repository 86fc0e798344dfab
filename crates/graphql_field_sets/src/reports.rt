//! What is reported of field sets.

use graphql_building_reports::BuildingReportList;
use graphql_diagnostics::{DiagnosticList, HashSeed};
use graphql_frontend::{Reports, SchemaReports, SyntaxReport};
use std::alloc::Global;

/// What is reported of field sets, by stages.
#[derive(Drop)]
pub(crate) struct FieldSetReports {
    /// Strings that are no field sets.
    pub syntax: Vec<SyntaxReport>,
    /// What keeps field sets from being built.
    pub building: BuildingReportList,
    /// Rules that field sets break.
    pub rules: DiagnosticList,
}

impl FieldSetReports {
    pub(crate) fn new(alloc: Global, hash_seed: HashSeed) -> FieldSetReports {
        FieldSetReports {
            syntax: Vec::new(alloc),
            building: BuildingReportList::with_hash_seed(alloc, hash_seed),
            rules: DiagnosticList::with_hash_seed(alloc, hash_seed),
        }
    }

    /// What the first stage reports that reports something.
    pub(crate) fn into_reports(self, alloc: Global) -> Option<Reports> {
        let FieldSetReports {
            syntax,
            building,
            rules,
        } = self;
        if !syntax.is_empty() {
            Some(Reports::Syntax(syntax))
        } else if !building.is_empty() {
            Some(Reports::Building(building))
        } else if !rules.is_empty() {
            Some(Reports::SchemaRules(SchemaReports {
                rules,
                input_fields: Vec::new(alloc),
                has_more: false,
            }))
        } else {
            None
        }
    }
}
