//! Files of which some definitions cannot be built, validated again without what keeps these from it: so that a fault in a definition hides no
//! other fault.
#![tactic(auto)]

mod certain;
pub mod documents;
mod kept;
mod known;
mod parts;
pub mod rounds;
mod schema_parts;
mod schema_rounds;
pub mod schemas;
pub mod scopes;
mod unreached;

pub use documents::{all_reports_of_document, all_reports_of_documents};
pub use graphql_frontend as frontend;
pub use graphql_project_checking::{check_part_of_project, check_project};
pub use rounds::{add_further, may_hide_faults};
pub use schemas::all_reports_of_schema;
pub use scopes::{Scope, reports_of};
