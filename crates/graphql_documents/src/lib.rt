//! GraphQL schemas and documents as plain data, and the definitions that say when they are valid.
#![tactic(auto)]

pub mod documents;
