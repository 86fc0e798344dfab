//! The leaves of the syntax tree as typed data: types, values, arguments, directives, and the definitions of
//! variables, input values, fields, enum values and directives.
#![tactic(auto)]

pub mod definitions;
pub mod directives;
pub mod types;
pub mod values;

pub use definitions::{
    build_directive_definition, build_enum_value, build_field_definition, build_input_value,
    build_input_values, build_variables,
};
pub use directives::{build_arguments, build_directives};
pub use types::{build_located_type, build_type};
pub use values::build_value;
