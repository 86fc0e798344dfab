//! The command line of `gqlvalidate`: from words to what they ask for.
#![tactic(auto)]

mod commands;
pub mod dialects;
mod levels;
pub mod reading;
pub mod requests;

// Crates that validate take these from here: `rt` follows each path from a crate down to another.
pub use gqlvalidate_dialects::{ClientName, Dialect};
pub use reading::parse;
pub use requests::{
    ChangeFormat, Color, Configuration, ConfigurationChoice, FailOn, Format, Grouping, Limits,
    PathEnds, PathList, Refusal, Reporting, Request,
};
