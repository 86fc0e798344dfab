//! What the commands of `gqlvalidate` share: the texts of a schema, what is printed of a run, and how many reports there are.
#![tactic(auto)]

pub mod accounts;
pub mod bounds;
mod comments;
pub mod dialects;
mod files;
pub mod json_lines;
mod kept;
pub mod policies;
pub mod presentations;
pub mod schema_files;
pub mod schema_reports;
pub mod sheets;

pub use gqlvalidate_formats::{
    Finding, Texts, depend_on_operations, findings_of, github, json_format, named_texts,
    schema_texts,
};
