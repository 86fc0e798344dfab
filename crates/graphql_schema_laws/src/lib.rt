//! Laws of schemas that hold: what a reader may rely on, whatever a validator does.
//!
//! Each function here does nothing, but those of `input_fields`. Its contract is the law.
#![tactic(auto)]

pub mod accepted_schemas;
pub mod default_values;
pub mod finite_values;
pub mod input_fields;
pub mod interfaces;
pub mod type_maps;
