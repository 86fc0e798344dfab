//! Variables: where they may be, which of them are used, and the walks over selections that find it.
#![tactic(auto)]

mod by_name;
pub mod conditions;
pub mod first_places;
mod unused;
mod usage;
mod uses;
mod walks;

pub use by_name::VariablesByName;
pub use unused::validate_unused_variables;
pub use usage::{check_variable_usage, is_variable_usage_allowed, validate_variable_usage};
pub use uses::variables_in_value;
pub use walks::{
    Walked, walk_open_selections, walk_selections, walk_selections_with_deduped_fragments,
};
