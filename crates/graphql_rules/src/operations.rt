//! Operations, with the selections and fragments that they reach.

mod fields;
mod fragments;
mod operation;
mod selections;
mod walk;

pub use fields::validate_leaf_field_selection;
pub use operation::{validate_operation, validate_operation_definitions};
pub use selections::{
    validate_field, validate_fragment_definition, validate_fragment_spread,
    validate_inline_fragment, validate_selection_set,
};
