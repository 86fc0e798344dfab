//! Searches for cycles that go from reference to reference: among the fragments of a document, and among the
//! input objects and the directives of a schema. Each call reports a definition that leads back to itself,
//! and its contract says what it means that nothing is reported.
#![tactic(auto)]

pub mod directive_levels;
mod directive_ranks;
pub mod directives;
pub mod fragments;
pub mod input_object_levels;
pub mod input_objects;
mod levels;
mod schema_references;
mod steps;

pub use graphql_guards as guards;
