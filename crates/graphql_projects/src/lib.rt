//! What it means that a project is valid: files whose operations spread each other's fragments.
#![tactic(auto)]

pub use graphql_reach::reached_fragments;
