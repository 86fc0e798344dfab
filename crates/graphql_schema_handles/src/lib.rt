//! A schema that a caller in another language keeps between calls, by a handle.
#![tactic(auto)]

pub mod handle;
pub mod loose;
pub mod sessions;
