//! The texts of a run: those of its files, of the literals in its programs, as a client sends them, and the parts of a text that is
//! no document.
#![tactic(auto)]

mod client_texts;
pub mod cuts;
mod programs;
pub mod run_paths;
pub mod run_texts;

// The crates above take these from here: `rt` follows each path from a crate down to another.
pub use gqlvalidate_inputs as inputs;
pub use gqlvalidate_runs as runs;
pub use graphql_literals::is_program;
pub use run_paths::Paths;
