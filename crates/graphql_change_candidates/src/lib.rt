//! Documents that a change of a schema may break, each on a shortest way from a root type to what changed. Nothing is proved of what they
//! are: `graphql_change_witnesses` shows one only if validation confirms it.
#![tactic(auto)]

mod candidates;
mod merging;
mod nested_merging;

pub use candidates::witness_candidates;
