//! What is reported of texts.

ghost use Rattle.std.specs.Prelude.{◌≡◌, ◌↔◌, IsTrue};
ghost use Rattle.graphql_frontend.specs.Documents.{ReportsNothing, document_rules};
ghost use Rattle.graphql_frontend.specs.Schemas.{ReportsNothingOfSchema, schema_rules};

use crate::texts::SyntaxReport;
use crate::work::WorkReport;
use graphql_building_reports::BuildingReportList;
use graphql_diagnostics::{DiagnosticEntry, DiagnosticList};
use graphql_input_rules::InputFieldRepetition;
use graphql_nesting::NestingReport;
use graphql_usage_rules::{ReachReport, VariableMisuse};

/// What is reported of texts, by the first stage that reports something.
#[derive(Debug)]
pub enum Reports {
    /// Texts that are no documents.
    Syntax(Vec<SyntaxReport>),
    /// Rules that the texts break, so that nothing is built of them.
    Building(BuildingReportList),
    /// The first of these, if there are more than the bounds keep.
    FirstBuilding(BuildingReportList),
    /// A document that nests too deep to be validated.
    Nesting(NestingReport),
    /// A document whose operations reach too much to be validated.
    Reach(ReachReport),
    /// A document whose fields take too much work to compare.
    Work(WorkReport),
    /// Rules that the schema breaks.
    SchemaRules(SchemaReports),
    /// The first of these, if there are more than the bounds keep.
    FirstSchemaRules(DiagnosticList),
    /// Rules that the document breaks.
    DocumentRules(DocumentReports),
    /// The first of these, if there are more than the bounds keep.
    FirstDocumentRules(DiagnosticList),
}

// Written out, so that only this crate proves it: a derived one is proved again in each crate that drops reports.
impl Drop for Reports {
    fn drop(self) {
        match self {
            Reports::Syntax(_) => {}
            Reports::Building(_) | Reports::FirstBuilding(_) => {}
            Reports::Nesting(_) => {}
            Reports::Reach(_) => {}
            Reports::Work(_) => {}
            Reports::SchemaRules(_) => {}
            Reports::FirstSchemaRules(_) | Reports::FirstDocumentRules(_) => {}
            Reports::DocumentRules(_) => {}
        }
    }
}

/// What is reported of a schema that was built.
#[derive(Debug, Drop)]
pub struct SchemaReports {
    /// What the rules of validation report of the schema.
    pub rules: DiagnosticList,
    /// Input fields that object values give again.
    pub input_fields: Vec<InputFieldRepetition>,
    /// Whether there are more of these input fields than the bounds keep.
    pub has_more: bool,
}

/// What is reported of a document that was built.
#[derive(Debug, Drop)]
pub struct DocumentReports {
    /// What the rules of validation report of the document.
    pub rules: DiagnosticList,
    /// Variables that an operation uses and does not define, without those that validation reports as undefined.
    pub undefined_variables: Vec<DiagnosticEntry>,
    /// Input fields that object values give again.
    pub input_fields: Vec<InputFieldRepetition>,
    /// Usages of variables that are not allowed, without those that end where a report of validation ends.
    pub usages: Vec<VariableMisuse>,
    /// Whether there are more undefined variables, input fields or usages than the bounds keep.
    pub has_more: bool,
}

impl Reports {
    /// How many are shown: those that are kept, and one more if there are others.
    pub fn len(&self) -> usize {
        match self {
            Reports::Syntax(errors) => errors.len(),
            Reports::Building(list) => list.iter().len(),
            Reports::FirstBuilding(list) => list.iter().len().saturating_add(1),
            Reports::FirstSchemaRules(list) | Reports::FirstDocumentRules(list) => {
                list.len().saturating_add(1)
            }
            Reports::Nesting(_) | Reports::Reach(_) | Reports::Work(_) => 1,
            Reports::SchemaRules(reports) => {
                reports
                    .rules
                    .len()
                    .saturating_add(reports.input_fields.len())
                    .saturating_add(usize::from(reports.has_more))
            }
            Reports::DocumentRules(reports) => reports
                .rules
                .len()
                .saturating_add(reports.undefined_variables.len())
                .saturating_add(reports.input_fields.len())
                .saturating_add(reports.usages.len())
                .saturating_add(usize::from(reports.has_more)),
        }
    }
}

impl Reports {
    /// The reports on the rules of a document, if these are such.
    pub fn into_document_rules(self) -> Option<DocumentReports>
        ensures { result ≡ document_rules self }
    {
        match self {
            Reports::DocumentRules(reports) => Some(reports),
            _ => None,
        }
    }

    /// The reports on the rules of a schema, if these are such.
    pub fn into_schema_rules(self) -> Option<SchemaReports>
        ensures { result ≡ schema_rules self }
    {
        match self {
            Reports::SchemaRules(reports) => Some(reports),
            _ => None,
        }
    }
}

impl SchemaReports {
    /// Whether there is none.
    pub fn is_empty(&self) -> bool
        ensures { IsTrue result ↔ ReportsNothingOfSchema self.now }
    {
        self.rules.is_empty() && self.input_fields.is_empty()
    }
}

impl DocumentReports {
    /// Whether there is none.
    pub fn is_empty(&self) -> bool
        ensures { IsTrue result ↔ ReportsNothing self.now }
    {
        self.rules.is_empty()
            && self.undefined_variables.is_empty()
            && self.input_fields.is_empty()
            && self.usages.is_empty()
    }
}
