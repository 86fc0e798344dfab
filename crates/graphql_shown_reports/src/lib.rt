//! What is reported of texts, as it is shown: with the name of a rule, a message and places.
#![tactic(auto)]

pub mod rule_names;
pub mod shown;
pub mod shown_texts;

pub use graphql_building_reports::BuildingReportList;
pub use graphql_frontend as frontend;
pub use graphql_frontend::texts::SourceText;
pub use shown::{ShownReport, shown_reports, text_of};
pub use shown_texts::{shown_copy, shown_text};
