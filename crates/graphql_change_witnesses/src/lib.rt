//! Witnesses of breaking changes: documents that are valid against the old schema and no longer against the new one.
//!
//! A witness is made on a shortest way from a root type to what changed, and is shown only if validation confirms it.
#![tactic(auto)]

pub mod confirmation;

pub use confirmation::{confirmed_witness, is_witness};
