//! The field sets of a subgraph of Apollo Federation: what `@key`, `@requires` and `@provides` select.
#![tactic(auto)]

mod checks;
mod field_sets;
mod reports;
mod sets;
mod subgraphs;
mod texts;

pub use checks::check_field_sets;
pub use field_sets::{FieldSetText, field_sets_in};
// Callers take these from here: `rt` follows each path from a crate down to another.
pub use graphql_frontend::texts::{Parsed, hash_seed_of, parse_texts};
pub use graphql_frontend::{SchemaReading, read_schema};
pub use subgraphs::read_subgraph;
pub use texts::text_of_field_set;
