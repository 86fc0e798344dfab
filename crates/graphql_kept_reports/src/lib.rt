//! What reports say of the parts of texts that are to be left out, and which reports on what is left could be false of the whole.
#![tactic(auto)]

pub mod certain;
pub mod doubts;
pub mod faults;
mod names;
pub mod schema_certain;
pub mod schema_doubts;
mod spreads;
pub mod unreached;
mod uses;

pub use certain::add_certain;
pub use doubts::Doubts;
pub use faults::{add_doubtful, add_faults};
pub use graphql_building_reports::BuildingReportList;
pub use graphql_diagnostics::DiagnosticList;
pub use graphql_kept_texts::{Faults, Kept, kept_of};
pub use schema_certain::{certain_of_schema, has_doubtful_of_schema};
pub use schema_doubts::SchemaDoubts;
pub use unreached::{Unreached, add_known_of_fragments, has_unreached, spreading_operations};
