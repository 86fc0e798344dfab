//! What keeps a schema or a document from being built of the trees of texts: rules that the texts break, with the texts of
//! their messages, and lists of reports.
#![tactic(auto)]

pub mod kinds;
pub mod lists;
pub mod rules;

pub use kinds::{ExecutableKind, LeafKind, TypeKind};
pub use lists::{BuildingReport, BuildingReportList};
pub use rules::BuildingRule;
