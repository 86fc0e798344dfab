//! Patterns that stand for paths of files, as `src/**/*.{graphql,gql}`.
#![tactic(auto)]

mod characters;
pub mod matching;
pub mod parsing;
pub mod patterns;
mod rows;

pub use matching::selects;
pub use parsing::PatternError;
pub use patterns::Pattern;
