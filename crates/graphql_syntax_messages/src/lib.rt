//! The messages that say why a GraphQL text is refused.
#![tactic(auto)]

pub mod excerpts;
pub mod messages;
pub mod refused;
pub mod words;

pub use messages::SyntaxMessage;
