//! Findings as text for people, as annotations of GitHub Actions, as JSON, and in the formats of other tools: Checkstyle, GitLab, JUnit
//! and SARIF.
#![tactic(auto)]

pub mod checkstyle;
mod excerpts;
mod fingerprints;
pub mod github;
pub mod gitlab;
mod helped;
pub mod json_findings;
pub mod junit;
pub mod sarif;
pub mod severities;
pub mod styles;
pub mod text;
mod xml;

pub use gqlvalidate_texts::{
    Finding, ProjectReports, Reports, Run, ShownReport, SourceText, Texts, depend_on_operations,
    findings_beside, findings_of, json_format, named_texts, schema_texts,
};
pub use styles::Style;
