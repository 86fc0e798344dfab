//! That a type implements the interfaces that it lists. Each call reports what breaks a rule, and its contract
//! says what it means that nothing is reported.
#![tactic(auto)]

mod arguments;
mod fields;
mod implementer;
mod listed_fields;
mod names;
mod types;

pub use listed_fields::{
    validate_implementation_field_arguments, validate_implementation_field_types,
    validate_interface_fields,
};
pub use names::validate_implements_interfaces;
pub use types::is_valid_implementation_field_type;
