//! What each rule asks, with a wrong and a right example.
#![tactic(auto)]

pub mod comments;
pub mod definitions;
pub mod explanations;
pub mod limits;
pub mod schema;
pub mod selections;
pub mod subscriptions;
pub mod types;
pub mod values;

pub use explanations::{Explanation, explanation_of, tables};
