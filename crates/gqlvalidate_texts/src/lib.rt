//! The files that findings are about, and what a run was, for all formats.
#![tactic(auto)]

pub mod files;
pub mod operations;
pub mod runs;

pub use files::{file_of, of_first_file};
pub use graphql_report_formats::named_texts::Texts;
pub use graphql_report_formats::{
    Finding, FindingHelp, Note, OperationMark, ProjectReports, Reports, ShownReport, SourceText,
    depend_on_operations, findings_beside, findings_of, json_format, named_texts, schema_texts,
};
pub use operations::{operation_notes, place_of};
pub use runs::{Run, UNREADABLE, UNREADABLE_RULE};
