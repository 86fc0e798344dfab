//! What is shown of reports: each fault once, in the order of files and places, with notes on its other places and what helps.
#![tactic(auto)]

pub mod findings;
pub mod helps;
mod notes;
mod operations;
mod order;
mod singles;

pub use findings::{Finding, Findings, findings_beside, findings_of};
pub use graphql_notes::Note;
pub use graphql_shown_reports::frontend::{OperationMark, ProjectReports, Reports, SourceText};
pub use graphql_shown_reports::{ShownReport, shown_reports};
pub use helps::FindingHelp;
pub use operations::depend_on_operations;
