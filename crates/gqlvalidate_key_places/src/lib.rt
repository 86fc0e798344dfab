//! Where the keys of a configuration are in its text, in JSON and in TOML.
#![tactic(auto)]

mod json_keys;
mod toml_keys;

pub use json_keys::json_place;
pub use toml_keys::toml_place;
