//! Validation of executable documents by the rules of `graphql_validation`, with one rule exchanged: a subscription has one response
//! key at its root, and several fields of one key count once.
#![tactic(auto)]

pub mod documents;
pub mod laws;
mod operations;
mod subscriptions;
