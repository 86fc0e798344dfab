//! Whether the trees of texts make a schema: the rules that ask nothing but the texts, with their reports.
#![tactic(auto)]

mod by_name;
mod checks;
pub mod definitions;
pub mod kinds;
mod members;
pub mod names;
pub mod roots;
pub mod schema;
mod single;

pub use schema::check_schema;
