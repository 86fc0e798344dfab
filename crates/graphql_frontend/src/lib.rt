//! GraphQL from texts to a verdict: texts are parsed, built into typed data, and validated. Each stage reports all that it
//! finds, and where it reports something the next one does not begin.
#![tactic(auto)]

mod document_rules;
pub mod documents;
pub mod first_reports;
mod meta_fields;
pub mod project_reports;
pub mod reports;
mod schema_rules;
pub mod schemas;
pub mod texts;
pub mod verdicts;
pub mod work;

pub use documents::{
    validate_built, validate_document, validate_documents, validate_standalone_document,
};
pub use graphql_input_rules::{InputFieldRepetition, check_input_fields};
pub use graphql_nodes::{FileId, SourceSpan, ValidationError};
pub use graphql_parser::Bounds;
pub use graphql_schema_building::BUILT_IN_DEFINITIONS;
pub use graphql_usage_rules::ReportList;
pub use project_reports::{ListOperation, OperationMark, ProjectReports};
pub use reports::{DocumentReports, Reports, SchemaReports};
pub use schemas::{SchemaReading, abandon, read_schema};
pub use texts::{SourceText, SyntaxReport, syntax_error_of};
pub use verdicts::{Verdict, document_source, schema_sources, validate, validate_texts};
pub use work::WorkReport;
