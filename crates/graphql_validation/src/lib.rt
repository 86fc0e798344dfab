//! Validation of GraphQL schemas and executable documents, as one library. Each call reports what breaks a rule, and its
//! contract says what it means that nothing is reported; the definitions that contracts cite are those of
//! `graphql_specification`.
#![tactic(auto)]

pub mod argument;
pub mod collect;
pub mod diagnostics;
pub mod directive;
pub mod documents;
pub mod entry;
pub mod guards;
pub mod laws;
pub mod merging;
pub mod operations;
pub mod schema_rules;
pub mod value;
pub mod variable;

pub use graphql_built::built_against;
pub use graphql_lone_fields as lone_fields;
pub use graphql_pair_merging as pair_merging;
pub use graphql_rules as rules;
