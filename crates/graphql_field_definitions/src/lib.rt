//! The rules of the definitions of fields and of input values in a schema.
//!
//! Specification: 3.6 Objects, Field Definitions; 3.6.1 Field Arguments.
#![tactic(auto)]

mod argument_repetitions;
pub mod built_in_scalars;
pub mod definition_directives;
pub mod fields;
pub mod input_values;
pub mod names;
pub mod referred_types;
