//! Findings as JSON, and the texts that they are about: what the program shares with callers in other languages.
#![tactic(auto)]

pub mod json_format;
pub mod named_texts;
pub mod schema_texts;

pub use graphql_findings::{
    Finding, FindingHelp, Findings, Note, OperationMark, ProjectReports, Reports, ShownReport,
    SourceText, depend_on_operations, findings_beside, findings_of,
};
