//! What changes of arguments, input objects and enums from one schema to another.
#![tactic(auto)]

mod arguments;
mod input_types;
mod inputs;

pub use arguments::compare_arguments;
pub use input_types::{compare_enums, compare_input_objects};
pub use inputs::{Owner, is_same_type};
