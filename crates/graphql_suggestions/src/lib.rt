//! Names that may have been meant by a name that is not defined.
#![tactic(auto)]

pub mod alike;
pub mod suggestions;

pub use alike::Suggestion;
pub use suggestions::{
    like_argument, like_directive, like_directive_argument, like_enum_value, like_field,
    like_input_field, like_type,
};
