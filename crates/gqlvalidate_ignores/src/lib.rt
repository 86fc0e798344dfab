//! Comments that ignore reports: `# gqlvalidate-ignore RULE, RULE`.
#![tactic(auto)]

pub mod comments;
pub mod ignores;
pub mod rules;

pub use ignores::{Ignore, ignores_in};
pub use rules::{Ignorable, meaning_of};
