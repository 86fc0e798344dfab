//! Typed schemas from the trees of texts: what the trees say, and the text of the definitions that every schema
//! has.
#![tactic(auto)]

pub mod built_in;
pub mod directives;
pub mod named_types;
pub mod numbered;
pub mod parts;
mod redefined;
pub mod roots;
pub mod schema;
pub mod schema_definitions;
mod type_parts;
pub mod types;

pub use built_in::BUILT_IN_DEFINITIONS;
pub use graphql_schema_checking::check_schema;
pub use schema::build_schema;
