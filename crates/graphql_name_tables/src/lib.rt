//! Elements of a list, each found by its name in about constant time.
#![tactic(auto)]

pub mod by_name;
pub mod named;
pub mod places;

pub use by_name::ByName;
pub use named::Named;
