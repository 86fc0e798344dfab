//! Bytes to JSON: what calls of other languages and of servers answer.
#![tactic(auto)]

pub mod answers;
pub mod batches;
pub mod documents;
pub mod files;
pub mod limits;
mod objects;
pub mod schemas;
pub mod session_laws;
pub mod sessions;
mod texts;

pub use answers::{Answer, Found, Refusal};
pub use batches::{Batch, validate_each};
pub use documents::validate;
pub use files::SchemaFile;
pub use graphql_kept_projects::{check_part_of_project, check_project, frontend};
pub use graphql_report_formats::{Finding, findings_of};
pub use limits::Limits;
pub use schemas::validate_schema;
