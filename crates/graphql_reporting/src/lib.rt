//! Lists of reports, of whatever is reported.
#![tactic(auto)]

pub mod lists;

pub use lists::ReportList;
