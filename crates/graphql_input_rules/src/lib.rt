//! Rules of the specification on values as they are written in documents and schemas: that object values do not repeat input
//! fields.
#![tactic(auto)]

mod definitions;
pub mod input_fields;
pub mod reports;
pub mod schema_input_fields;
mod values;

pub use input_fields::check_input_fields;
pub use reports::InputFieldRepetition;
pub use schema_input_fields::check_schema_input_fields;
