//! What helps with texts that are no documents: why a string or a number is no token, what people write who know other languages,
//! and the bracket that is not closed.
#![tactic(auto)]

pub mod brackets;
pub mod helps;
pub mod slips;
mod strings;

pub use brackets::{unclosed_bracket, unclosed_place};
pub use helps::SyntaxHelp;
pub use slips::help_of_syntax;
