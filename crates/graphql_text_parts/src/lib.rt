//! Texts that are no documents, cut into parts of which some are: so that a fault in one definition hides no fault in another.
#![tactic(auto)]

mod groups;
mod heads;
pub mod parts;
mod schema_heads;

pub use graphql_blanks::Part;
pub use graphql_tokens::has_no_token;
pub use parts::{faulty_schema_parts_beside, parts_beside, text_of_part};
