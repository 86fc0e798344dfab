//! When two fields agree: on their values, on the shapes of their types, and on their names and arguments.

mod arguments;
mod equal_values;
mod field_conflicts;
mod first_field;
mod shapes;
mod values;

pub use arguments::{FieldConflict, same_name_and_arguments};
pub use equal_values::is_same_value;
pub use field_conflicts::find_field_conflict;
pub use first_field::FirstField;
pub use shapes::same_output_type_shape;
pub use values::same_value;
