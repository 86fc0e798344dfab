//! How much of its text the operations of a document reach: decided before it is validated, since each operation is validated with
//! all fragments that it reaches.
#![tactic(auto)]

mod reach;
mod reached;
mod reports;

pub use reach::check_reach;
pub use reached::reached_fragments;
pub use reports::ReachReport;
