//! Whether an executable document was built against a schema.
#![tactic(auto)]

pub mod built;

pub use built::built_against;
