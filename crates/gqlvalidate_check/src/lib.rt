//! What `gqlvalidate check` and `gqlvalidate syntax` do: they validate documents against a schema, or against the grammar alone.
#![tactic(auto)]

mod again;
mod check;
mod expansions;
mod one_document;
mod project_files;
mod syntax;

pub use expansions::{Words, check_words};
pub use graphql_kept_projects::all_reports_of_schema;
// The program takes these from here: `rt` follows each path from a crate down to another.
pub use gqlvalidate_sources::runs::{
    accounts, bounds, dialects, named_texts, policies, presentations, schema_files, schema_reports,
    schema_texts,
};
pub use gqlvalidate_watching::{Kept, KeptRuns, Repeated};
pub use syntax::check_syntax;
