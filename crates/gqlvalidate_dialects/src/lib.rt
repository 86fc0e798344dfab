//! Dialects: what the schema and the documents of a run mean beyond the specification.
#![tactic(auto)]

pub mod dialects;

pub use dialects::{CLIENTS, ClientName, Dialect, VERSIONS, is_federation_version};
